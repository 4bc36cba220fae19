//! A source and a sink that never fail.

ghost use Rattle.std.specs.Prelude.{◌≡◌};

use crate::memory::copy_at;
use crate::sink::Sink;
use crate::source::{Failed, Source};
use std::marker::Model;

/// A text of which each call reads all that fits. It never fails.
#[derive(Drop)]
pub struct SureSource {
    text: Vec<u8>,
    at: usize,
}

impl Model for SureSource {
    ghost use Rattle.std.specs.Prelude.{◌≤◌, ℕ, List, drop, length};

    ghost Value = { List ℕ };

    ghost view = { λ s. drop s.at s.text.items };

    ghost invariant = { λ s. s.at ≤ length s.text.items };
}

impl SureSource {
    /// A source of this text.
    pub fn new(text: Vec<u8>) -> SureSource
        ensures { result ≡ text.items }
    {
        SureSource { text, at: 0 }
    }
}

impl Source for SureSource {
    ghost use Rattle.std.specs.Prelude.{Some};

    ghost seen = { λ s. record { left = Some s; faults = 0 } };

    fn read(&mut self, buf: &mut [u8]) -> Result<usize, Failed> {
        let count = (self.text.len() - self.at).min(buf.len());
        copy_at(buf, &self.text, self.at, count);
        self.at += count;
        Ok(count)
    }
}

/// Takes all that it is given, keeps nothing, and never fails. It holds no bytes, since it couldn't keep them without memory.
#[derive(Drop)]
pub struct SureSink;

impl Sink for SureSink {
    ghost use Rattle.std.specs.Prelude.{None};

    ghost seen = { λ _. record { held = None; faults = 0 } };

    fn write(&mut self, piece: &[u8]) -> Result<usize, Failed> {
        Ok(piece.len())
    }
}
