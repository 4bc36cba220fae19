//! What is left of a header behind what was read of it.

ghost use Rattle.std.specs.Prelude.{◌≡◌, ◌≤◌, length, drop};

use std::marker::Model;

/// What is left of a header, seen as its bytes.
#[derive(Debug, Drop)]
pub(crate) struct Rest<'a> {
    bytes: &'a [u8],
}

impl<'a> Model for Rest<'a> {
    ghost use Rattle.std.specs.Prelude.{ℕ, List};

    ghost Value = { List ℕ };

    ghost view = { λ r. r.bytes.now };
}

impl<'a> Rest<'a> {
    pub(crate) fn of(bytes: &'a [u8]) -> Rest<'a>
        ensures { result ≡ bytes.now }
    {
        Rest { bytes }
    }

    pub(crate) fn bytes(&self) -> &'a [u8]
        ensures { result.now ≡ self.now }
    {
        self.bytes
    }
}

/// The text from that offset on.
pub(crate) fn from_offset(text: &[u8], offset: usize) -> &[u8]
    requires { offset ≤ length text.now }
    ensures { result.now ≡ drop offset text.now }
{
    text.split_at(offset).1
}
