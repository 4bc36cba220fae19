//! What the values of a header have to be, tested without memory: words, names and counts. No text above 255 bytes is
//! one of them, so each is tested on a copy of at most so many.

ghost use Rattle.std.specs.Prelude.{◌≡◌, ◌≤◌, IsTrue, length};
ghost use Rattle.std.specs.List.{list_all};
ghost use Rattle.std.specs.Str.{bytes_eq};
ghost use Rattle.std.specs.Char.{digit_value};
ghost use Rattle.std.specs.Str.Parse.{digits_value};
ghost use Rattle.ely_digest_msg.specs.Parts.{same_word};
ghost use Rattle.ely_digest_msg.specs.Headers.{is_name, is_lower_hex, is_count, count_of};

use crate::fault::DigestFault;
use crate::parts::same_word;
use crate::quoted::Quoted;
use ely_base::name_fault;

/// Whether the text is the word.
pub(crate) fn is_word(text: &Quoted<'_>, word: &[u8]) -> bool
    requires { length word.now ≤ 255 }
    ensures { result ≡ bytes_eq text.now word.now }
{
    match text.short() {
        None => false,
        Some(bytes) => bytes.as_slice() == word,
    }
}

/// Whether the text is the word, without case.
pub(crate) fn is_word_in_any_case(text: &Quoted<'_>, word: &[u8]) -> bool
    requires { length word.now ≤ 255 }
    ensures { result ≡ same_word text.now word.now }
{
    match text.short() {
        None => false,
        Some(bytes) => same_word(bytes.as_slice(), word),
    }
}

/// Whether the text is a name.
pub(crate) fn is_name(text: &Quoted<'_>) -> bool
    ensures { result ≡ is_name text.now }
{
    match text.short() {
        None => false,
        Some(bytes) => name_fault(bytes.as_slice()).is_none(),
    }
}

/// Whether the byte is a lower-case hexadecimal digit.
fn is_lower_hex(b: u8) -> bool
    ensures { result ≡ is_lower_hex b }
{
    b.is_ascii_digit() || b >= b'a' && b <= b'f'
}

/// Whether the bytes are lower-case hexadecimal digits.
fn are_lower_hex(bytes: &[u8]) -> bool
    ensures { result ≡ list_all is_lower_hex bytes.now }
{
    bytes.iter().all(|b| is_lower_hex(*b))
}

/// Whether the bytes are a count.
fn is_count(bytes: &[u8]) -> bool
    ensures { result ≡ is_count bytes.now }
{
    bytes.len() == 8 && are_lower_hex(bytes)
}

/// The value of a lower-case hexadecimal digit.
fn hex_digit(b: u8) -> u8
    requires { IsTrue (is_lower_hex b) }
    ensures { result ≡ digit_value b }
{
    if b < 58 { b - 48 } else { b - 87 }
}

/// The number of eight digits.
fn number_of(bytes: &[u8]) -> u32
    requires { IsTrue (is_count bytes.now) }
    ensures { result ≡ digits_value 16 bytes.now }
{
    let mut number: u32 = 0;
    for b in bytes {
        number = number * 16 + hex_digit(*b) as u32;
    }
    number
}

/// The nonce count (RFC 7616 section 3.4): eight lower-case hexadecimal digits.
pub(crate) fn read_count(text: &Quoted<'_>) -> Result<u32, DigestFault>
    ensures { result ≡ count_of text.now }
{
    match text.short() {
        None => Err(DigestFault::Nc),
        Some(bytes) => {
            if is_count(bytes.as_slice()) {
                Ok(number_of(bytes.as_slice()))
            } else {
                Err(DigestFault::Nc)
            }
        }
    }
}
