//! Sources and sinks in memory, cut and failing by plan, for tests. Each counts its calls from 0.

ghost use Rattle.std.specs.Prelude.{◌≡◌, ℕ, ◌+◌, ◌<◌, ◌≤◌, [], IsTrue, IsErr, IfOk, OnErr, false, drop, length, min, slice_get, take};
ghost use Rattle.std.specs.Io.{ReadsAtMost};
ghost use Rattle.std.specs.Io.KnownBytes.{ReadConsumes, WriteAppends};
ghost use Rattle.ely_io.specs.Causes.{HasCause};
ghost use Rattle.ely_io.specs.Memory.{planned, is_failing, called, failed, read_len, read_from, taken_len, is_refusing, taken_by};

use crate::sink::Sink;
use crate::source::{Failed, Source};
use std::alloc::Global;
use std::marker::Model;

/// What each call moves at most, and which calls fail.
#[derive(Drop)]
struct Plan {
    sizes: Vec<usize>,
    failing: Vec<u64>,
    calls: u64,
    faults: u64,
}

impl Model for Plan {
    ghost use Rattle.ely_io.specs.Memory as memory;

    ghost Value = { memory.Plan };

    ghost view = { λ p. record {
      sizes = p.sizes.items;
      failing = p.failing.items;
      calls = p.calls;
      faults = p.faults;
    } };
}

impl Plan {
    fn new(sizes: Vec<usize>, failing: Vec<u64>) -> Plan
        ensures { result ≡ planned sizes.items failing.items }
    {
        Plan {
            sizes,
            failing,
            calls: 0,
            faults: 0,
        }
    }

    fn calls(&self) -> u64
        ensures { result ≡ self.now.calls }
    {
        self.calls
    }

    fn is_failing(&self) -> bool
        ensures { result ≡ is_failing self.now }
    {
        self.failing.contains(&self.calls)
    }

    /// What this call moves at most, if the plan says it.
    fn size(&self) -> Option<usize>
        ensures { result ≡ slice_get self.now.sizes self.now.calls }
    {
        self.sizes.get(self.calls as usize).copied()
    }

    fn read_len(&self, most: usize) -> usize
        ensures len { result ≡ read_len self.now most }
        ensures some { result ≡ 0 → most ≡ 0 }
    {
        match self.size() {
            Some(size) => size.max(1).min(most),
            None => most,
        }
    }

    fn taken_len(&self, most: usize) -> usize
        ensures { result ≡ taken_len self.now most }
    {
        match self.size() {
            Some(size) => size.min(most),
            None => most,
        }
    }

    /// A call that moved bytes.
    fn pass(&mut self)
        ensures { self.new ≡ called self.old }
    {
        self.calls = self.calls.saturating_add(1);
    }

    /// A call that failed.
    fn fail(&mut self) -> Failed
        ensures plan { self.new ≡ failed self.old }
        ensures later { self.old.faults ≤ self.new.faults }
    {
        self.calls = self.calls.saturating_add(1);
        self.faults = self.faults.saturating_add(1);
        Failed
    }
}

/// A text that is read in pieces, and calls that fail.
#[derive(Drop)]
pub struct MemSource {
    text: Vec<u8>,
    at: usize,
    plan: Plan,
}

impl Model for MemSource {
    ghost use Rattle.std.specs.Prelude.{◌≤◌, drop, length};
    ghost use Rattle.ely_io.specs.Memory.{MemInput};

    ghost Value = { MemInput };

    ghost view = { λ s. record { left = drop s.at s.text.items; plan = s.plan } };

    ghost invariant = { λ s. s.at ≤ length s.text.items };
}

impl MemSource {
    /// Call k reads at most `pieces[k]` bytes and at least 1, and past that list what fits. The calls in `failing` fail.
    pub fn new(text: Vec<u8>, pieces: Vec<usize>, failing: Vec<u64>) -> MemSource
        ensures { result ≡ record {
          left = text.items;
          plan = planned pieces.items failing.items;
        } }
    {
        MemSource {
            text,
            at: 0,
            plan: Plan::new(pieces, failing),
        }
    }

    /// How often it was read, up to 2^64 - 1.
    pub fn calls(&self) -> u64
        ensures { result ≡ self.now.plan.calls }
    {
        self.plan.calls()
    }
}

/// Copies bytes from an offset to the front.
pub(crate) fn copy_at(buf: &mut [u8], text: &[u8], at: usize, count: usize)
    requires room { count ≤ length buf.old }
    requires there { at + count ≤ length text.now }
    ensures { take count buf.new ≡ take count (drop at text.now) }
{
    buf[..count].copy_from_slice(&text[at..at + count]);
}

impl Source for MemSource {
    ghost use Rattle.std.specs.Prelude.{Some};

    ghost seen = { λ s. record { left = Some s.left; faults = s.plan.faults } };

    fn read(&mut self, buf: &mut [u8]) -> Result<usize, Failed>
        ensures bound { ReadsAtMost result buf.new }
        ensures bytes { ReadConsumes (Some self.old.left) (Some self.new.left) result buf.new }
        ensures cause { HasCause self.old.plan.faults self.new.plan.faults result }
        ensures failing { IsTrue (is_failing self.old.plan) →
            IsErr result × (self.new ≡ record self.old { plan = failed self.old.plan }) }
        ensures reads { is_failing self.old.plan ≡ false →
            let n = read_len self.old.plan (min (length self.old.left) (length buf.old)) in
            (result ≡ Ok n) × (self.new ≡ read_from self.old n) }
    {
        if self.plan.is_failing() {
            return Err(self.plan.fail());
        }
        let fitting = (self.text.len() - self.at).min(buf.len());
        let count = self.plan.read_len(fitting);
        copy_at(buf, &self.text, self.at, count);
        self.at += count;
        self.plan.pass();
        Ok(count)
    }
}

/// Bytes that are taken in pieces, and calls that fail.
#[derive(Drop)]
pub struct MemSink {
    bytes: Vec<u8>,
    plan: Plan,
}

impl Model for MemSink {
    ghost use Rattle.ely_io.specs.Memory.{MemOutput};

    ghost Value = { MemOutput };

    ghost view = { λ s. record { held = s.bytes.items; plan = s.plan } };
}

impl MemSink {
    /// Call k takes at most `takes[k]` bytes, and past that list all. It fails where it would take none of a piece that is
    /// not empty, and where it is in `failing`.
    pub fn new(alloc: Global, takes: Vec<usize>, failing: Vec<u64>) -> MemSink
        ensures { result ≡ record { held = []; plan = planned takes.items failing.items } }
    {
        MemSink {
            bytes: Vec::new(alloc),
            plan: Plan::new(takes, failing),
        }
    }

    /// The bytes taken so far.
    pub fn bytes(&self) -> &[u8]
        ensures { result.now ≡ self.now.held }
    {
        self.bytes.as_slice()
    }
}

impl Sink for MemSink {
    ghost use Rattle.std.specs.Prelude.{Some};

    ghost seen = { λ s. record { held = Some s.held; faults = s.plan.faults } };

    /// Want of memory is a failure too.
    fn write(&mut self, piece: &[u8]) -> Result<usize, Failed>
        ensures bound { IfOk result (λ n. n ≤ length piece.now) }
        ensures some { IfOk result (λ n. 0 < length piece.now → 0 < n) }
        ensures bytes { WriteAppends (Some self.old.held) (Some self.new.held) result piece.now }
        ensures cause { HasCause self.old.plan.faults self.new.plan.faults result }
        ensures failing { IsTrue (is_refusing self.old.plan (length piece.now)) → IsErr result }
        ensures err { OnErr result (self.new ≡ record self.old { plan = failed self.old.plan }) }
        ensures takes { IfOk result (λ n. (n ≡ taken_len self.old.plan (length piece.now))
            × (self.new ≡ taken_by self.old (take n piece.now))) }
    {
        let count = self.plan.taken_len(piece.len());
        if self.plan.is_failing() || count == 0 && piece.len() > 0 {
            return Err(self.plan.fail());
        }
        if self.bytes.extend_from_slice(&piece[..count]).is_err() {
            return Err(self.plan.fail());
        }
        self.plan.pass();
        Ok(count)
    }
}
