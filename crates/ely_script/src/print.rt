//! The printed line of a step.

ghost use Rattle.std.specs.Prelude.{◌≡◌, ◌++◌, OnOk, OnErr, IfOk};
ghost use Rattle.ely_base.specs.Appended.{Extends};
ghost use Rattle.ely_script.specs.Text.{line_text, numbered};

use crate::entry::Entry;
use crate::print_outcome::push_outcome;
use crate::word::{cache_word, step_word};
use ely_base::{Bytes, NoMemory, push_both, push_counted, push_number, push_text};
use std::alloc::Global;

/// Writes the printed line of the step with this number, as one of this line of its actor, with its LF, behind what is there.
/// It takes no other memory. Where memory runs out, a prefix of the line may be written.
#[tactic(auto, unfolding(crate::specs::Text::line_text))]
pub fn push_step(out: &mut Vec<u8>, number: u64, line: u64, entry: &Entry) -> Result<(), NoMemory>
    ensures ok { OnOk result
        (out.new.items ≡ out.old.items ++ line_text number (numbered line entry.now)) }
    ensures err { OnErr result (Extends out.old.items out.new.items) }
{
    push_number(out, number)?;
    push_counted(out, b" ", u64::from(entry.actor))?;
    push_counted(out, b" ", line)?;
    push_both(out, b" ", step_word(entry.word))?;
    push_text(out, b" ")?;
    push_outcome(out, &entry.outcome)?;
    push_both(out, cache_word(entry.cache), b"\n")?;
    Ok(())
}

/// The printed line of the step with this number, with its LF.
pub fn print_step(alloc: Global, number: u64, entry: &Entry) -> Result<Bytes, NoMemory>
    ensures { IfOk result (λ text. text ≡ line_text number entry.now) }
{
    let mut out = Vec::new(alloc);
    push_step(&mut out, number, entry.line, entry)?;
    Ok(Bytes::of(out))
}
