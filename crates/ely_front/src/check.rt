//! The mode `check`: each line of a script is read, none is run, and those that can't be read are told.

ghost use Rattle.std.specs.Prelude.{◌≡◌, ◌+◌, ◌-◌, ◌^◌, ◌++◌, ◌<◌, ℕ, [], ◌∷◌, OnOk, OnErr};
ghost use Rattle.ely_base.specs.Appended.{Extends};
ghost use Rattle.ely_front.specs.Moments.{at};
ghost use Rattle.ely_front.specs.Check.{bad_line, line_told, count_bad, total_text, TellsBad, TellsTotal, Checks};
ghost use Rattle.ely_front.specs.Call.{Runs, HasCauses, IsComplete};

use crate::call::run_mode;
use crate::first_line::Setup;
use crate::mode::Mode;
use ely_base::{NoMemory, discard, push_number, push_text};
use ely_hash::Steps;
use ely_io::{Sink, Source};
use ely_login::BadLine;
use ely_script::{Command, LineError, push_bad};
use std::alloc::Global;
use std::marker::Brand;
use std::sync::ledger::{Blank, Ledger};

/// How many lines behind the first there were, and how many of them can't be read.
#[derive(Clone, Copy)]
pub(crate) struct Check {
    lines: u64,
    bad: u64,
}

/// Writes that the line with this number can't be read, behind what is collected. After want of memory a
/// prefix of it may be there.
fn push_bad_line(out: &mut Vec<u8>, number: u64, bad: BadLine) -> Result<(), NoMemory>
    ensures ok { OnOk result (out.new.items ≡ out.old.items ++ bad_line number bad) }
    ensures err { OnErr result (Extends out.old.items out.new.items) }
{
    push_number(out, number)?;
    push_text(out, b" bad-line ")?;
    push_bad(out, bad)?;
    push_text(out, b"\n")?;
    Ok(())
}

/// Writes how many lines there were, and how many of them can't be read, behind what is collected. After want
/// of memory a prefix of it may be there.
fn push_total(out: &mut Vec<u8>, lines: u64, bad: u64) -> Result<(), NoMemory>
    ensures ok { OnOk result (out.new.items ≡ out.old.items ++ total_text lines bad) }
    ensures err { OnErr result (Extends out.old.items out.new.items) }
{
    out.extend_from_slice(b"checked ")?;
    push_number(out, lines)?;
    out.extend_from_slice(b" lines ")?;
    push_number(out, bad)?;
    out.extend_from_slice(b" bad\n")?;
    Ok(())
}

impl Check {
    /// Counts the next line, and puts what is told of it behind what is collected. After want of memory nothing
    /// is put there.
    fn count(
        &mut self,
        line: &Result<Command, LineError>,
        out: &mut Vec<u8>,
    ) -> Result<(), NoMemory>
        requires lines { self.old.lines < 2 ^ 64 - 1 }
        requires bad { self.old.bad < 2 ^ 64 - 1 }
        ensures lines { OnOk result (self.new.lines ≡ self.old.lines + 1) }
        ensures bad { OnOk result (self.new.bad ≡ self.old.bad + count_bad (line.now ∷ [])) }
        ensures told { OnOk result (out.new.items
            ≡ out.old.items ++ line_told (self.old.lines + 1) line.now) }
        ensures kept { OnErr result (out.new.items ≡ out.old.items) }
    {
        let number = self.lines + 1;
        match line {
            Ok(_) => {
                self.lines = number;
                Ok(())
            }
            Err(LineError::Bad { bad, .. }) => {
                let held = out.len();
                match push_bad_line(out, number, *bad) {
                    Ok(()) => {
                        self.lines = number;
                        self.bad += 1;
                        Ok(())
                    }
                    Err(error) => {
                        out.truncate(held);
                        Err(error)
                    }
                }
            }
        }
    }
}

impl Mode for Check {
    ghost use Rattle.ely_front.specs.Check.{HasChecked};
    ghost use Rattle.ely_front.specs.LawProofs.{check_in_order};

    ghost told = { TellsBad };

    ghost at_end = { TellsTotal };

    ghost stands = { HasChecked };

    ghost tells = { λ given check lines said cost is. is.text_is };

    ghost in_order = { check_in_order };

    fn begin(_alloc: Global, setup: Setup) -> Result<Check, NoMemory> {
        discard(setup);
        Ok(Check { lines: 0, bad: 0 })
    }

    /// Counts the next line, and tells it where it can't be read.
    fn answer<L: Ledger>(
        &mut self,
        _alloc: Global,
        line: &Result<Command, LineError>,
        out: &mut Vec<u8>,
        _steps: &mut Steps<L>,
    ) -> Result<(), NoMemory> {
        self.count(line, out)?;
        Ok(())
    }

    /// Tells the total.
    fn finish(&mut self, _alloc: Global, out: &mut Vec<u8>) -> Result<(), NoMemory> {
        let held = out.len();
        match push_total(out, self.lines, self.bad) {
            Ok(()) => Ok(()),
            Err(error) => {
                out.truncate(held);
                Err(error)
            }
        }
    }
}

/// Checks with a counter of its own, which takes no bytes.
fn check_counted<S: Source, K: Sink, L: Ledger>(
    alloc: Global,
    source: &mut S,
    sink: &mut K,
    blank: Blank,
) -> u8
    requires name { blank.name ≡ L.name }
    requires parts { blank.parts ≡ L.parts }
    requires some { 0 < blank.parts }
    ensures history { (steps : ℕ) → Runs TellsBad TellsTotal
        (at (S.seen source.old) (K.seen sink.old) steps)
        (at (S.seen source.new) (K.seen sink.new) steps) result }
    ensures causes { (steps : ℕ) → HasCauses
        (at (S.seen source.old) (K.seen sink.old) steps)
        (at (S.seen source.new) (K.seen sink.new) steps) result }
    ensures complete { (steps : ℕ) → IsComplete TellsTotal
        (at (S.seen source.old) (K.seen sink.old) steps)
        (at (S.seen source.new) (K.seen sink.new) steps) result }
{
    let mut steps = Steps::<L>::of(blank);
    run_mode::<Check, S, K, L>(alloc, source, sink, &mut steps)
}

/// Reads the lines of the script that the source gives and runs none of them, and tells those that can't be
/// read, each before it reads the next. Gives the exit status: 0 where the input was read to its end, and
/// each line that can't be read and how many there are was written; 1 for want of memory; 3 where the first
/// line is no configuration; 4 where the source failed; 5 where the sink failed; 6 at a limit. It is handed
/// no counter, so whatever was counted before it is counted after it.
pub fn check_call<S: Source, K: Sink>(alloc: Global, source: &mut S, sink: &mut K) -> u8
    ensures history { (steps : ℕ) → Runs TellsBad TellsTotal
        (at (S.seen source.old) (K.seen sink.old) steps)
        (at (S.seen source.new) (K.seen sink.new) steps) result }
    ensures checked { (steps : ℕ) → result ≡ 0 → Checks
        (at (S.seen source.old) (K.seen sink.old) steps)
        (at (S.seen source.new) (K.seen sink.new) steps) }
    ensures causes { (steps : ℕ) → HasCauses
        (at (S.seen source.old) (K.seen sink.old) steps)
        (at (S.seen source.new) (K.seen sink.new) steps) result }
    ensures complete { (steps : ℕ) → IsComplete TellsTotal
        (at (S.seen source.old) (K.seen sink.old) steps)
        (at (S.seen source.new) (K.seen sink.new) steps) result }
{
    check_counted::<S, K, Brand>(alloc, source, sink, Blank::new(1))
}
