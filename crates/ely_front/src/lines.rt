//! The lines of a script behind its first line, answered one by one as they are read.

ghost use Rattle.std.specs.Prelude.{◌≡◌, ◌∷◌, ◌++◌, ℕ, List, [], OnOk, OnErr, MatchResult};
ghost use Rattle.ely_script.specs.Lines.{ScriptLine, read_of};
ghost use Rattle.ely_io.specs.Causes.{Rose, HasCause, AppendsPrefix};
ghost use Rattle.ely_domain.specs.Given.{Given};
ghost use Rattle.ely_front.specs.Moments.{Moment, at};
ghost use Rattle.ely_front.specs.Lines.{heard};
ghost use Rattle.ely_front.specs.Modes.{HasRoom, Answers};
ghost use Rattle.ely_front.specs.Loop.{IsUnderWay, WritesOn, EndsWith};
ghost use Rattle.ely_front.specs.Ending.{EndsAs};

use crate::ending::{Ending, close, stop};
use crate::mode::Mode;
use ely_base::{NoMemory, Refused, discard};
use ely_hash::Steps;
use ely_io::{Line, LineReader, Sink, Source, WriteFault, write_all};
use ely_script::{Command, LineError, MAX_LINE_BYTES, read_line, too_long};
use std::alloc::Global;
use std::sync::ledger::Ledger;

/// How many bytes are collected before they are written, though a whole line is held.
const MUCH: usize = 4096;

/// Answers a line that was read, and puts the text behind what is collected.
fn answer_read<M: Mode, L: Ledger>(
    alloc: Global,
    mode: &mut M,
    read: Result<Command, LineError>,
    out: &mut Vec<u8>,
    steps: &mut Steps<L>,
) -> Result<(), NoMemory>
    requires { HasRoom M.stands mode.old }
    ensures answered { OnOk result
        ((given : Given) (lines : List ScriptLine) (said : List ℕ) (cost : ℕ)
        → M.stands given mode.old lines said cost
        → Answers (M.stands given mode.new (lines ++ read ∷ [])) said cost
        out.old.items out.new.items steps.old steps.new) }
    ensures kept { OnErr result (out.new.items ≡ out.old.items) }
{
    let answered = mode.answer(alloc, &read, out, steps);
    discard(read);
    answered
}

/// Reads and answers a line of the script.
fn answer_text<M: Mode, L: Ledger>(
    alloc: Global,
    mode: &mut M,
    text: &[u8],
    out: &mut Vec<u8>,
    steps: &mut Steps<L>,
) -> Result<(), NoMemory>
    requires { HasRoom M.stands mode.old }
    ensures answered { OnOk result
        ((given : Given) (lines : List ScriptLine) (said : List ℕ) (cost : ℕ)
        → M.stands given mode.old lines said cost
        → Answers (M.stands given mode.new (lines ++ read_of text.now ∷ [])) said cost
        out.old.items out.new.items steps.old steps.new) }
    ensures kept { OnErr result (out.new.items ≡ out.old.items) }
{
    match read_line(alloc, text) {
        Ok(command) => answer_read(alloc, mode, Ok(command), out, steps),
        Err(Refused::Fault(error)) => answer_read(alloc, mode, Err(error), out, steps),
        Err(Refused::NoMemory) => Err(NoMemory),
    }
}

/// Answers what the reader of lines gave, and puts the text behind what is collected.
fn answer_line<M: Mode, L: Ledger>(
    alloc: Global,
    mode: &mut M,
    line: &Line,
    out: &mut Vec<u8>,
    steps: &mut Steps<L>,
) -> Result<(), NoMemory>
    requires { HasRoom M.stands mode.old }
    ensures answered { OnOk result
        ((given : Given) (lines : List ScriptLine) (said : List ℕ) (cost : ℕ)
        → M.stands given mode.old lines said cost
        → Answers (M.stands given mode.new (lines ++ heard line.now)) said cost
        out.old.items out.new.items steps.old steps.new) }
    ensures kept { OnErr result (out.new.items ≡ out.old.items) }
{
    match line {
        Line::End => Ok(()),
        Line::Text(text) => answer_text(alloc, mode, text.bytes(), out, steps),
        Line::TooLong => answer_read(alloc, mode, Err(too_long()), out, steps),
    }
}

/// Gives the memory of a line back to its reader.
fn hand_back(reader: &mut LineReader, line: Line)
    ensures { reader.new ≡ reader.old }
{
    if let Line::Text(text) = line {
        reader.reuse(text);
    }
}

/// Writes what is collected, where the source is to be read next or where it is much.
fn write_on<K: Sink>(sink: &mut K, out: &mut Vec<u8>, more: bool) -> Result<(), WriteFault>
    ensures bytes { MatchResult result
        (λ _. WritesOn (K.seen sink.old) (K.seen sink.new) out.old.items out.new.items more)
        (λ _. AppendsPrefix (K.seen sink.old).held (K.seen sink.new).held out.old.items) }
    ensures cause { HasCause (K.seen sink.old).faults (K.seen sink.new).faults result }
{
    if more && out.len() < MUCH {
        return Ok(());
    }
    write_all(sink, out)?;
    out.clear();
    Ok(())
}

/// Writes what is collected with what is printed at the end, or only what is collected where memory ran out.
pub(crate) fn end_lines<M: Mode, K: Sink>(
    alloc: Global,
    mode: &mut M,
    sink: &mut K,
    out: Vec<u8>,
) -> Ending
    ensures ends { (given : Given) (lines : List ScriptLine) (said : List ℕ) (cost : ℕ)
        → M.stands given mode.old lines said cost
        → EndsWith (M.at_end given lines) said cost out.items
        (K.seen sink.old) (K.seen sink.new) result }
    ensures write { result ≡ Ending.Write
        → Rose (K.seen sink.old).faults (K.seen sink.new).faults }
{
    let mut out = out;
    match mode.finish(alloc, &mut out) {
        Ok(()) => close(sink, &out, Ending::Done),
        Err(_) => close(sink, &out, Ending::NoMemory),
    }
}

/// Answers each line that is left, in a mode that began at the start. What is answered is written before the
/// source is read again.
pub(crate) fn run_lines<M: Mode, S: Source, K: Sink, L: Ledger>(
    alloc: Global,
    mode: &mut M,
    reader: &mut LineReader,
    source: &mut S,
    sink: &mut K,
    steps: &mut Steps<L>,
) -> Ending
    ghost start: { Moment }
    requires { IsUnderWay M.stands start
        (at (S.seen source.old) (K.seen sink.old) steps.old) reader.old mode.old [] }
    ensures ends { EndsAs M.told M.at_end start
        (at (S.seen source.new) (K.seen sink.new) steps.new) result }
    ensures read { result ≡ Ending.Read
        → Rose (S.seen source.old).faults (S.seen source.new).faults }
    ensures write { result ≡ Ending.Write
        → Rose (K.seen sink.old).faults (K.seen sink.new).faults }
{
    let mut out = Vec::new(alloc);
    loop {
        let line = match reader.next(alloc, source, MAX_LINE_BYTES) {
            Ok(line) => line,
            Err(refused) => return stop(sink, &out, refused),
        };
        if let Err(_) = answer_line(alloc, mode, &line, &mut out, steps) {
            return stop(sink, &out, Refused::NoMemory);
        }
        if reader.ended() {
            return end_lines(alloc, mode, sink, out);
        }
        if let Err(_) = write_on(sink, &mut out, reader.has_line()) {
            return Ending::Write;
        }
        hand_back(reader, line);
    }
}
