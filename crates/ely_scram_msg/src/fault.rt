//! What may be wrong with a client's message, and where.

ghost use Rattle.std.specs.Prelude.{◌≡◌};

/// What is wrong with a message. The faults are looked for from left to right, and the first one counts.
#[derive(Clone, Copy, Debug, PartialEq, Eq)]
pub enum MsgKind {
    /// The message is no UTF-8 (RFC 3629). This is tested before all else, and the offset is the length of the longest
    /// prefix that is.
    Text,
    /// A client-first message begins with no gs2-cbind-flag (RFC 5802 section 7).
    Flag,
    /// The client asks for channel binding.
    Bound,
    /// The reserved attribute `m=` stands there (RFC 5802 section 5.1).
    Mandatory,
    /// The attribute or the comma that is due there is missing.
    Attr,
    /// An `=` in a saslname begins neither `=2C` nor `=3D`.
    Escape,
    /// The saslname that begins there stands for no name.
    Name,
    /// The nonce is empty, or has a byte that isn't printable there.
    Nonce,
    /// The value that begins there is no base64 text of at least one byte.
    Base64,
    /// What follows the comma there is neither an extension nor the proof, follows the proof, or is missing.
    Trailing,
}

/// The first fault of a message, and its offset: how many bytes stand before it.
#[derive(Clone, Copy, Debug, PartialEq, Eq)]
pub struct MsgFault {
    /// What is wrong.
    pub kind: MsgKind,
    /// How many bytes of the message stand before the fault.
    pub place: usize,
}

impl MsgFault {
    /// A fault of that kind at that offset.
    pub(crate) fn at(kind: MsgKind, offset: usize) -> MsgFault
        ensures { result ≡ record { kind = kind; place = offset } }
    {
        MsgFault {
            kind,
            place: offset,
        }
    }
}
