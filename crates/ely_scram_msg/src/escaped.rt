//! Names in messages (RFC 5802 sections 5.1 and 7): a saslname is looked through where it lies, and the name is copied
//! when it is wanted.

ghost use Rattle.std.specs.Prelude.{◌≡◌, ◌+◌, ◌<◌, ◌==◌, ◌&&◌, not, ◌∷◌, None, length, drop, slice_index, is_none, IfOk, IfSome};
ghost use Rattle.ely_base.specs.Names.{name_fault};
ghost use Rattle.ely_scram_msg.specs.Saslnames.{bad_escape, is_escape, saslname_of, unescaped};

use crate::fault::{MsgFault, MsgKind};
use crate::field::Field;
use ely_base::{Name, NoMemory, has_barred};
use std::alloc::Global;
use std::marker::Model;

/// A saslname in a message (RFC 5802 section 7), seen as the name that it stands for.
#[derive(Drop)]
pub struct Escaped<'a> {
    text: &'a str,
}

impl<'a> Model for Escaped<'a> {
    ghost use Rattle.std.specs.Prelude.{ℕ, List};
    ghost use Rattle.ely_scram_msg.specs.Saslnames.{IsSaslname, unescaped};

    ghost Value = { List ℕ };

    ghost view = { λ e. unescaped e.text.now };

    ghost invariant = { λ e. IsSaslname e.text.now };
}

/// Whether the bytes begin with what may follow an `=`.
fn is_escape(after: &[u8]) -> bool
    ensures { result ≡ is_escape after.now }
{
    after.starts_with(b"2C") || after.starts_with(b"3D")
}

/// Whether there is an `=` at i that is no escape.
fn is_bad(bytes: &[u8], i: usize) -> bool
    requires { i < length bytes.now }
    ensures { result ≡ (slice_index bytes.now i == 61 && not (is_escape (drop (i + 1) bytes.now))) }
{
    bytes[i] == b'=' && !is_escape(bytes.split_at(i + 1).1)
}

/// The offset of the first `=` that is no escape.
fn bad_escape(bytes: &[u8]) -> Option<usize>
    ensures value { result ≡ bad_escape bytes.now }
    ensures within { IfSome result (λ i. i < length bytes.now) }
{
    for i in 0..bytes.len() {
        if is_bad(bytes, i) {
            return Some(i);
        }
    }
    None
}

/// The first byte that the text stands for, and what follows it.
fn next_byte(text: &[u8]) -> (u8, &[u8])
    requires some { 0 < length text.now }
    requires escapes { bad_escape text.now ≡ None }
    ensures first { unescaped text.now ≡ result.0 ∷ unescaped result.1.now }
    ensures escapes { bad_escape result.1.now ≡ None }
    ensures shorter { length result.1.now < length text.now }
{
    if text[0] != b'=' {
        return (text[0], text.split_at(1).1);
    }
    let byte = if text[1] == b'2' { b',' } else { b'=' };
    (byte, text.split_at(3).1)
}

/// How many bytes the text stands for.
fn unescaped_len(bytes: &[u8]) -> usize
    requires { bad_escape bytes.now ≡ None }
    ensures { result ≡ length (unescaped bytes.now) }
{
    let mut len: usize = 0;
    let mut rest = bytes;
    while rest.len() > 0 {
        let (_byte, after) = next_byte(rest);
        rest = after;
        len += 1;
    }
    len
}

/// Whether the text stands for a name.
fn is_name(text: &str) -> bool
    requires { bad_escape text.now ≡ None }
    ensures { result ≡ is_none (name_fault (unescaped text.now)) }
{
    let bytes = text.as_bytes();
    let len = unescaped_len(bytes);
    len > 0 && len <= 255 && !has_barred(bytes)
}

impl<'a> Escaped<'a> {
    /// The saslname that a value is.
    pub(crate) fn read(part: &Field<'a>) -> Result<Escaped<'a>, MsgFault>
        ensures { result ≡ saslname_of part.now }
    {
        let text = part.text();
        match bad_escape(text.as_bytes()) {
            Some(i) => Err(MsgFault::at(MsgKind::Escape, part.offset() + i)),
            None => {
                if is_name(text) {
                    Ok(Escaped { text })
                } else {
                    Err(MsgFault::at(MsgKind::Name, part.offset()))
                }
            }
        }
    }

    /// The name that this stands for, with each `=2C` as a comma and each `=3D` as an equals sign.
    pub fn copy(&self, alloc: Global) -> Result<Name, NoMemory>
        ensures { IfOk result (λ name. name ≡ self.now) }
    {
        let mut list = Vec::new(alloc);
        let mut rest = self.text.as_bytes();
        while rest.len() > 0 {
            let (byte, after) = next_byte(rest);
            list.push(byte)?;
            rest = after;
        }
        Ok(Name::of(list))
    }
}
