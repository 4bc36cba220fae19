//! The line that is written for a fault.

ghost use Rattle.std.specs.Prelude.{◌≡◌, ◌++◌, OnOk, OnErr};
ghost use Rattle.ely_base.specs.Appended.{Extends};
ghost use Rattle.ely_config_text.specs.Texts.{fault_text, wrong_text};

use crate::fault::{TextFault, Wrong};
use ely_base::{NoMemory, push_text};
use ely_script::push_prop;

/// Puts the word of what is wrong behind what is there.
fn push_wrong(out: &mut Vec<u8>, wrong: Wrong) -> Result<(), NoMemory>
    ensures ok { OnOk result (out.new.items ≡ out.old.items ++ wrong_text wrong) }
    ensures err { OnErr result (Extends out.old.items out.new.items) }
{
    match wrong {
        Wrong::Missing => push_text(out, b"missing"),
        Wrong::Kind => push_text(out, b"kind"),
        Wrong::Range => push_text(out, b"range"),
        Wrong::Unknown => push_text(out, b"unknown"),
        Wrong::Twice => push_text(out, b"twice"),
        Wrong::Nested => push_text(out, b"nested"),
        Wrong::Text(fault) => push_prop(out, fault),
    }
}

/// Puts the line that tells the fault behind what is there. Where memory runs out, a prefix of it may be there.
pub fn push_fault(out: &mut Vec<u8>, fault: &TextFault) -> Result<(), NoMemory>
    ensures ok { OnOk result (out.new.items ≡ out.old.items ++ fault_text fault.now) }
    ensures err { OnErr result (Extends out.old.items out.new.items) }
{
    match fault {
        TextFault::NotJson => push_text(out, b"config / not-json\n"),
        TextFault::At { path, wrong } => {
            push_text(out, b"config ")?;
            push_text(out, path.bytes())?;
            push_text(out, b" ")?;
            push_wrong(out, *wrong)?;
            push_text(out, b"\n")
        }
    }
}
