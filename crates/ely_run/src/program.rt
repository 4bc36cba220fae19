//! The words of the command line, and the table of the modes that they ask for.

ghost use Rattle.std.specs.Prelude.{◌≡◌, ℕ, map, Some, None};
ghost use Rattle.std.specs.String.{string_bytes};
ghost use Rattle.ely_io.specs.Streams.{Input};
ghost use Rattle.ely_words.specs.Asking.{asked_by};
ghost use Rattle.ely_front.specs.Moments.{at};
ghost use Rattle.ely_front.specs.Call.{HasCauses};
ghost use Rattle.ely_run.specs.Run.{Does, DoesWhole, RefusesWords};

use ely_base::Refused;
use ely_front::{Ending, check_call, replay_call};
use ely_hash::Steps;
use ely_io::{Sink, Source, write_all};
use ely_words::{Asked, read_asked};
use std::alloc::Global;
use std::sync::ledger::Ledger;

/// Writes that the words are no command, and gives the exit status.
fn refuse_words<K: Sink>(sink: &mut K) -> u8
    ensures written { (input : Input) (steps : ℕ) → RefusesWords
        (at input (K.seen sink.old) steps) (at input (K.seen sink.new) steps) result }
    ensures write { (input : Input) (steps : ℕ) → HasCauses
        (at input (K.seen sink.old) steps) (at input (K.seen sink.new) steps) result }
{
    match write_all(sink, b"words\n") {
        Ok(_) => Ending::Words.status(),
        Err(_) => Ending::Write.status(),
    }
}

/// Runs the program on its words, its own name first, and gives the exit status: 2 where the words are no
/// command, and else that of the mode.
pub fn run<S: Source, K: Sink, L: Ledger>(
    alloc: Global,
    words: &[String],
    source: &mut S,
    sink: &mut K,
    steps: &mut Steps<L>,
) -> u8
    ensures history { (asked : Asked) → asked_by (map (λ w. string_bytes w) words.now) ≡ Some asked
        → Does asked
        (at (S.seen source.old) (K.seen sink.old) steps.old)
        (at (S.seen source.new) (K.seen sink.new) steps.new) result }
    ensures no_command { asked_by (map (λ w. string_bytes w) words.now) ≡ None → RefusesWords
        (at (S.seen source.old) (K.seen sink.old) steps.old)
        (at (S.seen source.new) (K.seen sink.new) steps.new) result }
    ensures unread { asked_by (map (λ w. string_bytes w) words.now) ≡ None
        → source.new ≡ source.old }
    ensures uncounted { asked_by (map (λ w. string_bytes w) words.now) ≡ Some Asked.Check
        → steps.new ≡ steps.old }
    ensures causes { HasCauses
        (at (S.seen source.old) (K.seen sink.old) steps.old)
        (at (S.seen source.new) (K.seen sink.new) steps.new) result }
    ensures complete { (asked : Asked) → asked_by (map (λ w. string_bytes w) words.now) ≡ Some asked
        → DoesWhole asked
        (at (S.seen source.old) (K.seen sink.old) steps.old)
        (at (S.seen source.new) (K.seen sink.new) steps.new) result }
{
    match read_asked(alloc, words) {
        Ok(Asked::Replay) => replay_call(alloc, source, sink, steps),
        Ok(Asked::Check) => check_call(alloc, source, sink),
        Err(Refused::Fault(_)) => refuse_words(sink),
        Err(Refused::NoMemory) => Ending::NoMemory.status(),
    }
}
