//! Why a line is no configuration.

ghost use Rattle.std.specs.Prelude.{◌≡◌};
ghost use Rattle.ely_config_text.specs.Places.{wrong_of};

use ely_base::Bytes;
use ely_config_tree::FaultKind;
use ely_row::PropFault;

/// What is wrong with a member.
#[derive(Clone, Copy, Debug, PartialEq, Eq)]
pub enum Wrong {
    /// It must be there and isn't.
    Missing,
    /// It has another JSON type, or is a number that isn't held as a whole number of 64 bits.
    Kind,
    /// A number, a length or a text is out of its range, or rules nest too deep.
    Range,
    /// The object has no member of this name, or no realm has the name that stands there.
    Unknown,
    /// A realm before it has this name.
    Twice,
    /// The realm that is named there can't stand there.
    Nested,
    /// The text has this fault.
    Text(PropFault),
}

/// Why a line is no configuration.
#[derive(Debug, Drop)]
pub enum TextFault {
    /// It isn't the text of a JSON value.
    NotJson,
    /// The first fault, with the path of the value that has it: a slash and the member, as a coded word, or the index at each
    /// level; a slash for the whole.
    At { path: Bytes, wrong: Wrong },
}

/// What the kind of a tree's fault says.
pub(crate) fn wrong_of(kind: FaultKind) -> Wrong
    ensures { result ≡ wrong_of kind }
{
    match kind {
        FaultKind::Missing => Wrong::Missing,
        FaultKind::Kind => Wrong::Kind,
        FaultKind::Range => Wrong::Range,
        FaultKind::Unknown => Wrong::Unknown,
    }
}
