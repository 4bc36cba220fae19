//! The mode `replay`: each line of a script is run without pause, and its steps are printed.

ghost use Rattle.std.specs.Prelude.{◌≡◌, ◌≢◌, ◌+◌, ◌-◌, ◌<◌, ◌^◌, ℕ, ◌++◌, length, map, OnOk, OnErr, IfOk, unwrap_or, Some};
ghost use Rattle.std.specs.Ordering.{nat_cmp};
ghost use Rattle.std.specs.BTreeMap.{get};
ghost use Rattle.ely_base.specs.Appended.{Extends};
ghost use Rattle.ely_script.specs.Text.{text_from, numbered};
ghost use Rattle.ely_front.specs.Moments.{at};
ghost use Rattle.ely_front.specs.Replayed.{IsTextOf, IsPaidTextOf, Replays};
ghost use Rattle.ely_front.specs.Call.{Runs, HasCauses, IsComplete};

use crate::call::run_mode;
use crate::first_line::Setup;
use crate::line::run_into;
use crate::mode::Mode;
use ely_base::NoMemory;
use ely_domain::Domain;
use ely_hash::Steps;
use ely_history::actor_of;
use ely_io::{Sink, Source};
use ely_script::{Command, Entry, LineError, push_step};
use std::alloc::Global;
use std::collections::BTreeMap;
use std::sync::ledger::Ledger;

/// A domain, how many lines each actor has had, room for the entries of a line, and the number of the next
/// step.
#[derive(Drop)]
pub(crate) struct Replay {
    domain: Domain,
    counts: BTreeMap<u32, u64>,
    entries: Vec<Entry>,
    number: u64,
}

/// Counts one more line of the actor, and gives its number among them.
fn next_line(counts: &mut BTreeMap<u32, u64>, actor: u32) -> Result<u64, NoMemory>
    requires { unwrap_or (get nat_cmp counts.old actor) 0 < 2 ^ 64 - 1 }
    ensures number { IfOk result (λ n. n ≡ unwrap_or (get nat_cmp counts.old actor) 0 + 1) }
    ensures counted { IfOk result (λ n. get nat_cmp counts.new actor ≡ Some n) }
    ensures others { OnOk result ((a : ℕ) → a ≢ actor
        → get nat_cmp counts.new a ≡ get nat_cmp counts.old a) }
{
    let number = counts.get(&actor).copied().unwrap_or(0) + 1;
    counts.insert(actor, number)?;
    Ok(number)
}

/// Puts the printed lines of these steps, the first of which has this number, behind what is collected, and
/// gives the number after them. After want of memory a prefix of them may be there.
fn push_entries(
    out: &mut Vec<u8>,
    number: u64,
    line: u64,
    entries: &[Entry],
) -> Result<u64, NoMemory>
    requires { number + length entries.now < 2 ^ 64 }
    ensures text { OnOk result (out.new.items
        ≡ out.old.items ++ text_from number (map (numbered line) entries.now)) }
    ensures number { IfOk result (λ after. after ≡ number + length entries.now) }
    ensures err { OnErr result (Extends out.old.items out.new.items) }
{
    let mut next = number;
    for entry in entries {
        push_step(out, next, line, entry)?;
        next += 1;
    }
    Ok(next)
}

impl Mode for Replay {
    ghost use Rattle.ely_front.specs.Replay.{HasReplayed};
    ghost use Rattle.ely_front.specs.LawProofs.{replay_in_order};

    ghost told = { IsTextOf };

    ghost at_end = { IsPaidTextOf };

    ghost stands = { HasReplayed };

    ghost tells = { λ given r lines said cost is. (is.history, is.is_after.is_history, is.text_is) };

    ghost in_order = { replay_in_order };

    fn begin(alloc: Global, setup: Setup) -> Result<Replay, NoMemory> {
        Ok(Replay {
            domain: setup.domain(alloc)?,
            counts: BTreeMap::new(alloc),
            entries: Vec::new(alloc),
            number: 1,
        })
    }

    fn answer<L: Ledger>(
        &mut self,
        alloc: Global,
        line: &Result<Command, LineError>,
        out: &mut Vec<u8>,
        steps: &mut Steps<L>,
    ) -> Result<(), NoMemory> {
        let number = next_line(&mut self.counts, actor_of(line))?;
        self.entries.clear();
        run_into(alloc, &mut self.domain, line, &mut self.entries, steps)?;
        let held = out.len();
        match push_entries(out, self.number, number, &self.entries) {
            Ok(next) => {
                self.number = next;
                Ok(())
            }
            Err(error) => {
                out.truncate(held);
                Err(error)
            }
        }
    }

    fn finish(&mut self, _alloc: Global, _out: &mut Vec<u8>) -> Result<(), NoMemory> {
        Ok(())
    }
}

/// Replays the script that the source gives, in file order, and answers each line before it reads the next.
/// Gives the exit status: 0 where the input was read to its end and the text of its whole history was
/// written; 1 for want of memory; 3 where the first line is no configuration; 4 where the source failed; 5
/// where the sink failed; 6 at a limit. With status 0 the counter rose by the cost of the history at most:
/// one step is one HMAC computation.
pub fn replay_call<S: Source, K: Sink, L: Ledger>(
    alloc: Global,
    source: &mut S,
    sink: &mut K,
    steps: &mut Steps<L>,
) -> u8
    ensures history { Runs IsTextOf IsPaidTextOf
        (at (S.seen source.old) (K.seen sink.old) steps.old)
        (at (S.seen source.new) (K.seen sink.new) steps.new) result }
    ensures replayed { result ≡ 0 → Replays
        (at (S.seen source.old) (K.seen sink.old) steps.old)
        (at (S.seen source.new) (K.seen sink.new) steps.new) }
    ensures causes { HasCauses
        (at (S.seen source.old) (K.seen sink.old) steps.old)
        (at (S.seen source.new) (K.seen sink.new) steps.new) result }
    ensures complete { IsComplete IsPaidTextOf
        (at (S.seen source.old) (K.seen sink.old) steps.old)
        (at (S.seen source.new) (K.seen sink.new) steps.new) result }
{
    run_mode::<Replay, S, K, L>(alloc, source, sink, steps)
}
