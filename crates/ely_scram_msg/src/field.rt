//! The fields of a message, cut at its commas (RFC 5802 section 5.1), each with its offset there. It knows no attribute's
//! meaning.

ghost use Rattle.std.specs.Prelude.{◌≡◌, ◌+◌, ◌^◌, ◌<◌, ◌≤◌, ◌∷◌, length, IfOk, IfSome, IsTrue};
ghost use Rattle.std.specs.Str.{IsCharBoundary};
ghost use Rattle.ely_scram_msg.specs.Fields.{begins, due, fields_of, fields_left, rest_of_value, value_of};
ghost use Rattle.ely_base.specs.Refused.{Reads};

use crate::fault::{MsgFault, MsgKind};
use std::marker::Model;

/// A part of a message, and its offset there.
#[derive(Drop)]
pub struct Field<'a> {
    offset: usize,
    text: &'a str,
}

impl<'a> Model for Field<'a> {
    ghost use Rattle.std.specs.Prelude.{◌+◌, ◌^◌, ◌<◌, length};
    ghost use Rattle.ely_scram_msg.specs.Located.{Located};

    ghost Value = { Located };

    ghost view = { λ f. record { offset = f.offset; text = f.text.now } };

    ghost invariant = { λ f. f.offset + length f.text.now < 2 ^ 64 };
}

impl<'a> Field<'a> {
    /// The whole message.
    pub fn whole(text: &'a str) -> Field<'a>
        ensures { result ≡ record { offset = 0; text = text.now } }
    {
        Field { offset: 0, text }
    }

    /// How many bytes of the message stand before this.
    pub fn offset(&self) -> usize
        ensures value { result ≡ self.now.offset }
        ensures fits { self.now.offset + length self.now.text < 2 ^ 64 }
    {
        self.offset
    }

    /// The text of this part.
    pub fn text(&self) -> &'a str
        ensures { result.now ≡ self.now.text }
    {
        self.text
    }

    /// The field at the front, and what stands behind its comma.
    pub fn cut(self) -> (Field<'a>, Option<Field<'a>>)
        ensures fields { fields_of self.entry ≡ result.0 ∷ fields_left result.1 }
        ensures prefix { result.0.offset ≡ self.entry.offset }
        ensures behind { IfSome result.1 (λ rest. 0 < rest.offset) }
        ensures within { IfSome result.1 (λ rest.
            rest.offset + length rest.text ≤ self.entry.offset + length self.entry.text) }
    {
        match self.text.split_once(',') {
            Some((before, after)) => (
                Field {
                    offset: self.offset,
                    text: before,
                },
                Some(Field {
                    offset: self.offset + before.len() + 1,
                    text: after,
                }),
            ),
            None => (self, None),
        }
    }

    /// What follows the letter and `=`.
    pub fn behind_letter(self) -> Field<'a>
        requires { IsCharBoundary self.text 2 }
        ensures { result ≡ rest_of_value self.entry }
    {
        let (_, text) = self.text.split_at(2);
        Field {
            offset: self.offset + 2,
            text,
        }
    }

    /// The value of the attribute of that letter, which is due here.
    pub fn value(self, letter: u8) -> Result<Field<'a>, MsgFault>
        ensures { result ≡ value_of letter self.entry }
    {
        if begins(self.text, letter) {
            return Ok(self.behind_letter());
        }
        if begins(self.text, b'm') {
            return Err(MsgFault::at(MsgKind::Mandatory, self.offset));
        }
        Err(MsgFault::at(MsgKind::Attr, self.offset))
    }
}

/// Whether a field begins with that letter and `=`.
pub fn begins(text: &str, letter: u8) -> bool
    ensures value { result ≡ begins letter text.now }
    ensures boundary { IsTrue result → IsCharBoundary text.now 2 }
{
    let bytes = text.as_bytes();
    bytes.len() >= 2 && bytes[0] == letter && bytes[1] == b'='
}

/// The next field and what stands behind it, where a comma is due and then a field.
pub fn due<'a>(
    end: usize,
    rest: Option<Field<'a>>,
) -> Result<(Field<'a>, Option<Field<'a>>), MsgFault>
    requires { IfSome rest (λ part. part.offset + length part.text ≤ end) }
    ensures read { Reads (λ x. (x.0, fields_left x.1)) result (due end (fields_left rest.entry)) }
    ensures behind { IfOk result (λ x. IfSome x.1 (λ part. 0 < part.offset)) }
    ensures prefix { IfOk result (λ x. x.0.offset ≤ end) }
    ensures within { IfOk result (λ x. IfSome x.1 (λ part. part.offset + length part.text ≤ end)) }
{
    match rest {
        None => Err(MsgFault::at(MsgKind::Attr, end)),
        Some(part) => Ok(part.cut()),
    }
}
