//! A mode over any source and sink, from the first line on to its exit status.

ghost use Rattle.std.specs.Prelude.{◌≡◌};
ghost use Rattle.ely_io.specs.Causes.{Rose};
ghost use Rattle.ely_front.specs.Moments.{Moment, at};
ghost use Rattle.ely_front.specs.Ending.{EndsAs};
ghost use Rattle.ely_front.specs.Call.{Runs, HasCauses, IsComplete};

use crate::ending::Ending;
use crate::first_line::read_first_line;
use crate::lines::{end_lines, run_lines};
use crate::mode::Mode;
use ely_base::discard;
use ely_hash::Steps;
use ely_io::{Sink, Source};
use std::alloc::Global;
use std::sync::ledger::Ledger;

/// Runs a mode over the script that the source gives, from the start on.
fn run_script<M: Mode, S: Source, K: Sink, L: Ledger>(
    alloc: Global,
    source: &mut S,
    sink: &mut K,
    steps: &mut Steps<L>,
) -> Ending
    ghost start: { Moment }
    requires { start ≡ at (S.seen source.old) (K.seen sink.old) steps.old }
    ensures ends { EndsAs M.told M.at_end start
        (at (S.seen source.new) (K.seen sink.new) steps.new) result }
    ensures read { result ≡ Ending.Read → Rose start.input.faults (S.seen source.new).faults }
    ensures write { result ≡ Ending.Write → Rose start.output.faults (K.seen sink.new).faults }
{
    let mut begun = match read_first_line::<M, S, K>(alloc, source, sink) {
        Ok(begun) => begun,
        Err(ending) => return ending,
    };
    let mut mode = match M::begin(alloc, begun.setup) {
        Ok(mode) => mode,
        Err(_) => return Ending::NoMemory,
    };
    if begun.reader.ended() {
        return end_lines(alloc, &mut mode, sink, Vec::new(alloc));
    }
    let ending = run_lines(alloc, &mut mode, &mut begun.reader, source, sink, steps);
    discard(mode);
    ending
}

/// Runs a mode over the script that the source gives, and answers each line before it reads the next. Gives
/// the exit status: 0 where the input was read to its end and all that the mode prints of it was written; 1
/// for want of memory; 3 where the first line is no configuration; 4 where the source failed; 5 where the
/// sink failed; 6 at a limit. With status 0 the counter rose by what the mode's text costs at most: one step
/// is one HMAC computation.
pub fn run_mode<M: Mode, S: Source, K: Sink, L: Ledger>(
    alloc: Global,
    source: &mut S,
    sink: &mut K,
    steps: &mut Steps<L>,
) -> u8
    ensures history { Runs M.told M.at_end
        (at (S.seen source.old) (K.seen sink.old) steps.old)
        (at (S.seen source.new) (K.seen sink.new) steps.new) result }
    ensures causes { HasCauses
        (at (S.seen source.old) (K.seen sink.old) steps.old)
        (at (S.seen source.new) (K.seen sink.new) steps.new) result }
    ensures complete { IsComplete M.at_end
        (at (S.seen source.old) (K.seen sink.old) steps.old)
        (at (S.seen source.new) (K.seen sink.new) steps.new) result }
{
    run_script::<M, S, K, L>(alloc, source, sink, steps).status()
}
