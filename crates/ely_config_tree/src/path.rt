//! Paths as they are written.

ghost use Rattle.std.specs.Prelude.{◌≡◌, ◌++◌, ◌∷◌, OnOk, OnErr};
ghost use Rattle.ely_base.specs.Appended.{Extends};
ghost use Rattle.ely_config_tree.specs.Paths.{path_text, step_text, steps_text};

use crate::fault::TreeFault;
use crate::step::Step;
use ely_base::{NoMemory, push_number, push_word};

/// Writes a slash and the step behind what is there.
fn push_step(out: &mut Vec<u8>, step: &Step) -> Result<(), NoMemory>
    ensures ok { OnOk result (out.new.items ≡ out.old.items ++ 47 ∷ step_text step.now) }
    ensures err { OnErr result (Extends out.old.items out.new.items) }
{
    out.push(b'/')?;
    match step {
        Step::Member(name) => push_word(out, name.bytes()),
        Step::Index(index) => push_number(out, *index),
    }
}

/// Writes the steps behind what is there, the outermost first.
fn push_steps(out: &mut Vec<u8>, steps: &[Step]) -> Result<(), NoMemory>
    ensures ok { OnOk result (out.new.items ≡ out.old.items ++ steps_text steps.now) }
    ensures err { OnErr result (Extends out.old.items out.new.items) }
{
    let mut at = steps.len();
    while at > 0 {
        at -= 1;
        push_step(out, &steps[at])?;
    }
    Ok(())
}

/// Writes the path of the fault behind what is there: a slash and the member or the index at each level, members as coded words,
/// and for the root a slash. Where memory runs out, a prefix of it may be written.
pub fn push_path(out: &mut Vec<u8>, fault: &TreeFault) -> Result<(), NoMemory>
    ensures ok { OnOk result (out.new.items ≡ out.old.items ++ path_text fault.now.steps) }
    ensures err { OnErr result (Extends out.old.items out.new.items) }
{
    let steps = fault.steps();
    if steps.is_empty() {
        out.push(b'/')?;
        return Ok(());
    }
    push_steps(out, steps)
}
