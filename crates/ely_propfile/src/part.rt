//! Parts of a text.

ghost use Rattle.std.specs.Prelude.{◌≡◌, ◌≤◌, length, take, drop};

use std::marker::Model;

/// A part of a text, seen as its bytes.
#[derive(Debug, Drop)]
pub struct Part<'a> {
    bytes: &'a [u8],
}

impl<'a> Model for Part<'a> {
    ghost use Rattle.std.specs.Prelude.{ℕ, List};

    ghost Value = { List ℕ };

    ghost view = { λ p. p.bytes.now };
}

impl<'a> Part<'a> {
    pub fn of(bytes: &'a [u8]) -> Part<'a>
        ensures { result ≡ bytes.now }
    {
        Part { bytes }
    }

    pub fn bytes(&self) -> &'a [u8]
        ensures { result.now ≡ self.now }
    {
        self.bytes
    }
}

/// The text from that offset on.
pub fn from_offset(text: &[u8], offset: usize) -> &[u8]
    requires { offset ≤ length text.now }
    ensures { result.now ≡ drop offset text.now }
{
    text.split_at(offset).1
}

/// The text up to that offset.
pub fn up_to(text: &[u8], offset: usize) -> &[u8]
    requires { offset ≤ length text.now }
    ensures { result.now ≡ take offset text.now }
{
    text.split_at(offset).0
}
