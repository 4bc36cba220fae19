//! The name of a line: the bytes up to the first `=` that isn't escaped.

ghost use Rattle.std.specs.Prelude.{◌≡◌, ◌<◌, ◌+◌, ◌++◌, [], ◌∷◌, if◌then◌else◌, length, vec_len, IfOk, OnOk, IfSome};
ghost use Rattle.ely_propfile.specs.Keys.{is_bare_blank, key_of, split_of};
ghost use Rattle.ely_propfile.specs.Steps.{key_from, IsShorter};

use crate::part::{Part, from_offset};
use ely_base::{Bytes, NoMemory, is_blank};
use std::alloc::Global;

/// What stands next in a name.
pub enum Next<'a> {
    /// Its `=`, with what follows.
    End(Part<'a>),
    /// A byte, with whether a backslash escapes it and what follows.
    Byte(bool, u8, Part<'a>),
}

/// What stands next in a name, unless no `=` is to come.
fn step(text: &[u8]) -> Option<Next<'_>>
    ensures value { key_of text.now ≡ key_from result }
    ensures shorter { IfSome result (IsShorter text.now) }
{
    if text.is_empty() {
        return None;
    }
    let first = text[0];
    if first == b'=' {
        return Some(Next::End(Part::of(from_offset(text, 1))));
    }
    if text.len() < 2 {
        return None;
    }
    if first == b'\\' {
        return Some(Next::Byte(true, text[1], Part::of(from_offset(text, 2))));
    }
    Some(Next::Byte(false, first, Part::of(from_offset(text, 1))))
}

/// Puts a byte behind a name, and says how long it is then without the bare blanks at its end, where that was `kept`.
fn put(name: &mut Vec<u8>, kept: usize, escaped: bool, b: u8) -> Result<usize, NoMemory>
    ensures name { OnOk result (name.new.items ≡ name.old.items ++ b ∷ []) }
    ensures kept { IfOk result (λ len. len
        ≡ (if is_bare_blank (escaped, b) then kept else length name.old.items + 1)) }
{
    name.push(b)?;
    if !escaped && is_blank(b) {
        Ok(kept)
    } else {
        Ok(name.len())
    }
}

/// The bytes of the name that the line begins with, and what follows its `=`. In the name a backslash takes the next byte as
/// it is, and blanks before the `=` are dropped unless they are escaped.
pub fn split<'a>(alloc: Global, line: &'a [u8]) -> Result<Option<(Bytes, Part<'a>)>, NoMemory>
    ensures { IfOk result (λ parts. parts ≡ split_of line.now) }
{
    let mut name = Vec::new(alloc);
    // how long the name is without the bare blanks at its end
    let mut kept = 0;
    let mut rest = line;
    while let Some(part) = step(rest) {
        match part {
            Next::End(value) => {
                name.truncate(kept);
                return Ok(Some((Bytes::of(name), value)));
            }
            Next::Byte(escaped, b, after) => {
                kept = put(&mut name, kept, escaped, b)?;
                rest = after.bytes();
            }
        }
    }
    Ok(None)
}
