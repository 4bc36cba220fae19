//! Why a text is no credential.

use ely_base::Refused;

/// Why a text is no credential.
#[derive(Clone, Copy, Debug, PartialEq, Eq)]
pub enum CredFault {
    /// There is no such kind.
    Kind,
    /// The number of turns is none, or out of its range.
    Turns,
    /// A text isn't base64.
    Base64,
    /// A text isn't hexadecimal.
    Hex,
    /// A part is too short or too long.
    Length,
    /// A part has bytes that may not stand in it.
    Text,
}

impl From<CredFault> for Refused<CredFault> {
    ghost use Rattle.std.specs.Prelude.{◌≡◌};
    ghost use Rattle.ely_base.specs.declared.refused.Refused.TheVariants.{Fault};

    ghost from_gives = { λ fault refused. refused ≡ Fault fault };

    fn from(fault: CredFault) -> Refused<CredFault> {
        Refused::Fault(fault)
    }
}
