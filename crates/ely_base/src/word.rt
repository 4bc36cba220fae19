//! The coding of words: `%` and two hexadecimal digits stand for one byte, every other byte for itself.

ghost use Rattle.std.specs.Prelude.{◌≡◌, ℕ, ◌<◌, List, [], ◌∷◌, ◌++◌, length, slice_index, Some, IfOk, IfSome, OnOk, OnErr, IfNone};
ghost use Rattle.std.specs.List.{list_any};
ghost use Rattle.std.specs.Option.{option_map};
ghost use Rattle.hex.specs.Hex.{hex_digit_value, upper_digits};
ghost use Rattle.ely_base.specs.Appended.{Extends};
ghost use Rattle.ely_base.specs.Refused.{Gives};
ghost use Rattle.ely_base.specs.Words.{word_of, read_word_of, name_word_of, is_special, word_text};

use crate::bytes::Bytes;
use crate::name::Name;
use crate::parts::first_offset;
use crate::refused::{NoMemory, Refused};
use crate::texts::TextFault;
use std::alloc::Global;

/// The value of a hexadecimal digit of either case.
fn digit(b: u8) -> Option<u8>
    ensures value { result ≡ hex_digit_value b }
    ensures small { IfSome result (λ d. d < 16) }
{
    match b {
        b'A'..=b'F' => Some(b - 55),
        b'a'..=b'f' => Some(b - 87),
        b'0'..=b'9' => Some(b - 48),
        _ => None,
    }
}

/// The first byte of a coded word, and what follows it.
fn next_byte(text: &[u8]) -> Option<(u8, &[u8])>
    requires { 0 < length text.now }
    ensures bad { IfNone result (word_of text.now ≡ None) }
    ensures first { IfSome result (λ next.
        word_of text.now ≡ option_map (λ bytes. next.0 ∷ bytes) (word_of next.1.now)) }
    ensures shorter { IfSome result (λ next. length next.1.now < length text.now) }
{
    let first = text[0];
    if first != b'%' {
        return Some((first, &text[1..]));
    }
    if text.len() < 3 {
        return None;
    }
    let Some(high) = digit(text[1]) else {
        return None;
    };
    let Some(low) = digit(text[2]) else {
        return None;
    };
    Some((high * 16 + low, &text[3..]))
}

/// The bytes of a coded word that has codes.
fn read_codes(alloc: Global, text: &[u8]) -> Result<Bytes, Refused<TextFault>>
    ensures { Gives result (read_word_of text.now) }
{
    let mut list = Vec::with_capacity(alloc, text.len())?;
    let mut rest = text;
    while rest.len() > 0 {
        let Some((byte, after)) = next_byte(rest) else {
            return Err(Refused::Fault(TextFault::Bad));
        };
        list.push(byte)?;
        rest = after;
    }
    Ok(Bytes::of(list))
}

/// The bytes of a coded word, in one piece of memory. `Bad` comes exactly where a `%` has no two digits behind it.
pub fn read_word(alloc: Global, text: &[u8]) -> Result<Bytes, Refused<TextFault>>
    ensures { Gives result (read_word_of text.now) }
{
    match first_offset(text, b'%') {
        None => Ok(Bytes::copy_of(alloc, text)?),
        Some(_) => read_codes(alloc, text),
    }
}

impl Name {
    /// The name that a coded word stands for, in one piece of memory. `Bad` comes exactly where a `%` has no two digits
    /// behind it, or where the bytes are no name.
    pub fn read_word(alloc: Global, text: &[u8]) -> Result<Name, Refused<TextFault>>
        ensures { Gives result (name_word_of text.now) }
    {
        let bytes = read_word(alloc, text)?;
        match Name::read_list(bytes.into_list()) {
            Ok(name) => Ok(name),
            Err(_) => Err(Refused::Fault(TextFault::Bad)),
        }
    }
}

/// Whether the byte is written as a code.
fn is_special(b: u8) -> bool
    ensures { result ≡ is_special b }
{
    b <= 0x20 || b == b'%' || b == b',' || b == 0x7F
}

const DIGITS: [u8; 16] = *b"0123456789ABCDEF";

/// A digit, in upper case.
fn upper_digit(value: u8) -> u8
    requires { value < 16 }
    ensures { result ≡ slice_index upper_digits value }
{
    DIGITS[value as usize]
}

/// Whether one of the bytes is written as a code.
fn has_special(bytes: &[u8]) -> bool
    ensures { result ≡ list_any is_special bytes.now }
{
    bytes.iter().any(|b| is_special(*b))
}

/// Writes the coded word of the bytes, byte by byte, behind what is there.
fn push_codes(out: &mut Vec<u8>, bytes: &[u8]) -> Result<(), NoMemory>
    ensures ok { OnOk result (out.new.items ≡ out.old.items ++ word_text bytes.now) }
    ensures err { OnErr result (Extends out.old.items out.new.items) }
{
    for b in bytes {
        if is_special(*b) {
            out.extend_from_slice(&[b'%', upper_digit(*b / 16), upper_digit(*b % 16)])?;
        } else {
            out.push(*b)?;
        }
    }
    Ok(())
}

/// Writes the coded word of the bytes behind what is there: each byte up to 0x20, `%`, `,` and 0x7F is written as `%` and two
/// upper-case digits. Where memory runs out, a prefix of it may be written.
pub fn push_word(out: &mut Vec<u8>, bytes: &[u8]) -> Result<(), NoMemory>
    ensures ok { OnOk result (out.new.items ≡ out.old.items ++ word_text bytes.now) }
    ensures err { OnErr result (Extends out.old.items out.new.items) }
{
    if has_special(bytes) {
        return push_codes(out, bytes);
    }
    out.extend_from_slice(bytes)?;
    Ok(())
}

/// The coded word of the bytes: each byte up to 0x20, `%`, `,` and 0x7F is written as `%` and two upper-case digits.
pub fn write_word(alloc: Global, bytes: &[u8]) -> Result<Bytes, NoMemory>
    ensures text { IfOk result (λ text. text ≡ word_text bytes.now) }
    ensures read_back { IfOk result (λ text. word_of text ≡ Some bytes.now) }
{
    let mut text = Vec::new(alloc);
    push_word(&mut text, bytes)?;
    Ok(Bytes::of(text))
}
