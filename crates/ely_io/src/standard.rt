//! The trusted edge: sources and sinks over std's readers and writers, which count the errors that they meet.

ghost use Rattle.std.specs.Prelude.{◌≡◌, ◌<◌, ◌≤◌, IfOk, length};
ghost use Rattle.std.specs.Io.{ReadsAtMost};
ghost use Rattle.std.specs.Io.KnownBytes.{ReadConsumes, WriteAppends};
ghost use Rattle.ely_io.specs.Causes.{HasCause, CountsErrors};

use crate::sink::Sink;
use crate::source::{Failed, Source};
use std::io::{Read, Write};

/// A reader of std, with a count of its errors.
#[derive(Drop)]
pub struct StdSource<R> {
    inner: R,
    faults: u64,
}

impl<R> StdSource<R> {
    /// A source that has not failed.
    pub fn new(inner: R) -> StdSource<R>
        ensures inner { result.inner ≡ inner }
        ensures unfailed { result.faults ≡ 0 }
    {
        StdSource { inner, faults: 0 }
    }
}

impl<R: Read> Source for StdSource<R> {
    ghost seen = { λ s. record { left = R.remaining s.inner; faults = s.faults } };

    /// An error of the reader raises the count by one, and nothing else does.
    fn read(&mut self, buf: &mut [u8]) -> Result<usize, Failed>
        ensures bound { ReadsAtMost result buf.new }
        ensures bytes { ReadConsumes
            (R.remaining self.old.inner) (R.remaining self.new.inner) result buf.new }
        ensures cause { HasCause self.old.faults self.new.faults result }
        ensures counted { CountsErrors self.old.faults self.new.faults result }
    {
        match self.inner.read(buf) {
            Ok(count) => Ok(count),
            Err(_) => {
                self.faults = self.faults.saturating_add(1);
                Err(Failed)
            }
        }
    }
}

/// A writer of std, with a count of its errors and of the writes that took nothing.
#[derive(Drop)]
pub struct StdSink<W> {
    inner: W,
    faults: u64,
}

impl<W> StdSink<W> {
    /// A sink that has not failed.
    pub fn new(inner: W) -> StdSink<W>
        ensures inner { result.inner ≡ inner }
        ensures unfailed { result.faults ≡ 0 }
    {
        StdSink { inner, faults: 0 }
    }
}

impl<W: Write> Sink for StdSink<W> {
    ghost seen = { λ s. record { held = W.contents s.inner; faults = s.faults } };

    /// An error of the writer, or that it took nothing of a piece that is not empty, raises the count by one, and nothing
    /// else does.
    fn write(&mut self, piece: &[u8]) -> Result<usize, Failed>
        ensures bound { IfOk result (λ n. n ≤ length piece.now) }
        ensures some { IfOk result (λ n. 0 < length piece.now → 0 < n) }
        ensures bytes { WriteAppends
            (W.contents self.old.inner) (W.contents self.new.inner) result piece.now }
        ensures cause { HasCause self.old.faults self.new.faults result }
        ensures counted { CountsErrors self.old.faults self.new.faults result }
    {
        let Ok(count) = self.inner.write(piece) else {
            self.faults = self.faults.saturating_add(1);
            return Err(Failed);
        };
        if count == 0 && piece.len() > 0 {
            self.faults = self.faults.saturating_add(1);
            return Err(Failed);
        }
        Ok(count)
    }
}
