//! The parts of a header's members, read from left to right: tokens, `=`, values and what follows a member
//! (RFC 7235 section 2.1, RFC 7230 section 3.2.6). Each reader takes the size of the whole header, from which it
//! counts the offset of a fault.

ghost use Rattle.std.specs.Prelude.{◌≡◌, ◌≤◌, ◌<◌, ◌+◌, None, Some, IsTrue, length, take, drop, IfOk, IfSome, MatchOption};
ghost use Rattle.std.specs.List.{prefix_len};
ghost use Rattle.std.specs.Option.{ok_or};
ghost use Rattle.ely_digest_msg.specs.declared.fault.DigestFault.TheVariants.{Quote};
ghost use Rattle.ely_base.specs.Blanks.{is_blank};
ghost use Rattle.ely_digest_msg.specs.Parts.{is_gap, is_token, after, starts, same_word, unescaped, quoted_of, offset, token_of, value_of, equals_of, end_of};

use crate::fault::DigestFault;
use crate::quoted::Quoted;
use crate::rest::{Rest, from_offset};
use ely_base::is_blank;

/// Whether a token may hold the byte.
fn is_token(b: u8) -> bool
    ensures { result ≡ is_token b }
{
    b.is_ascii_alphanumeric() || b"!#$%&'*+-.^_`|~".contains(&b)
}

/// How many blanks the text begins with.
fn blank_len(text: &[u8]) -> usize
    ensures { result ≡ prefix_len is_blank text.now }
{
    text.iter().take_while(|b| is_blank(**b)).count()
}

/// How many blanks and commas the text begins with.
fn gap_len(text: &[u8]) -> usize
    ensures { result ≡ prefix_len is_gap text.now }
{
    text.iter()
        .take_while(|b| is_blank(**b) || **b == b',')
        .count()
}

/// How long the token is that the text begins with.
fn token_len(text: &[u8]) -> usize
    ensures { result ≡ prefix_len is_token text.now }
{
    text.iter().take_while(|b| is_token(**b)).count()
}

/// Whether the text begins with the byte.
pub(crate) fn starts(b: u8, text: &[u8]) -> bool
    ensures { result ≡ starts b text.now }
{
    match text.split_first() {
        None => false,
        Some((first, _)) => *first == b,
    }
}

/// The text after the blanks that it begins with.
fn after_blanks(text: &[u8]) -> &[u8]
    ensures value { result.now ≡ after is_blank text.now }
    ensures shorter { length result.now ≤ length text.now }
{
    from_offset(text, blank_len(text))
}

/// The text after the blanks and commas that it begins with.
pub(crate) fn after_gap(text: &[u8]) -> &[u8]
    ensures value { result.now ≡ after is_gap text.now }
    ensures shorter { length result.now ≤ length text.now }
{
    from_offset(text, gap_len(text))
}

/// Whether the text is the word, without case.
pub(crate) fn same_word(text: &[u8], word: &[u8]) -> bool
    ensures { result ≡ same_word text.now word.now }
{
    text.eq_ignore_ascii_case(word)
}

/// How many bytes stand before the closing quote, if there is one.
fn quoted_len(text: &[u8]) -> Option<usize>
    ensures value { MatchOption result (quoted_of text.now ≡ None)
        (λ n. quoted_of text.now ≡ Some (unescaped (take n text.now), drop (n + 1) text.now)) }
    ensures within { IfSome result (λ n. n < length text.now) }
{
    let mut i = 0;
    while i < text.len() {
        if text[i] == b'"' {
            return Some(i);
        }
        if text[i] == b'\\' {
            i += 2;
        } else {
            i += 1;
        }
    }
    None
}

/// The token that the text begins with, and what follows it.
pub(crate) fn read_token<'a>(
    size: usize,
    text: &'a [u8],
) -> Result<(Rest<'a>, Rest<'a>), DigestFault>
    requires { length text.now ≤ size }
    ensures value { result ≡ token_of size text.now }
    ensures shorter { IfOk result (λ r. length r.1 < length text.now) }
{
    let len = token_len(text);
    if len == 0 {
        return Err(DigestFault::Token(size - text.len()));
    }
    let (token, rest) = text.split_at(len);
    Ok((Rest::of(token), Rest::of(rest)))
}

/// What follows `=` and the blanks round it.
pub(crate) fn read_equals(size: usize, text: &[u8]) -> Result<Rest<'_>, DigestFault>
    requires { length text.now ≤ size }
    ensures value { result ≡ equals_of size text.now }
    ensures shorter { IfOk result (λ r. length r ≤ length text.now) }
{
    let text = after_blanks(text);
    if !starts(b'=', text) {
        return Err(DigestFault::Token(size - text.len()));
    }
    Ok(Rest::of(after_blanks(from_offset(text, 1))))
}

/// What follows a member: a comma or the end, behind blanks.
pub(crate) fn read_end(size: usize, text: &[u8]) -> Result<Rest<'_>, DigestFault>
    requires { length text.now ≤ size }
    ensures value { result ≡ end_of size text.now }
    ensures shorter { IfOk result (λ r. length r ≤ length text.now) }
{
    let text = after_blanks(text);
    if text.len() == 0 || starts(b',', text) {
        return Ok(Rest::of(text));
    }
    Err(DigestFault::Token(size - text.len()))
}

/// The value that the text begins with, and what follows it.
pub(crate) fn read_value<'a>(
    size: usize,
    text: &'a [u8],
) -> Result<(Quoted<'a>, Rest<'a>), DigestFault>
    requires { length text.now ≤ size }
    ensures value { result ≡ value_of size text.now }
    ensures shorter { IfOk result (λ r. length r.1 ≤ length text.now) }
{
    if starts(b'"', text) {
        return read_quoted(size, text);
    }
    let (token, rest) = read_token(size, text)?;
    Ok((Quoted::of(token.bytes()), rest))
}

/// A quoted text, its opening quote first.
fn read_quoted<'a>(size: usize, text: &'a [u8]) -> Result<(Quoted<'a>, Rest<'a>), DigestFault>
    requires size { length text.now ≤ size }
    requires quote { IsTrue (starts 34 text.now) }
    ensures value { result ≡ ok_or (quoted_of (drop 1 text.now)) (Quote (offset size text.now)) }
    ensures shorter { IfOk result (λ r. length r.1 ≤ length text.now) }
{
    let inner = from_offset(text, 1);
    match quoted_len(inner) {
        None => Err(DigestFault::Quote(size - text.len())),
        Some(len) => {
            let (raw, rest) = inner.split_at(len);
            Ok((Quoted::of(raw), Rest::of(from_offset(rest, 1))))
        }
    }
}
