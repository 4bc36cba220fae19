//! The digest realm that a comment names.

ghost use Rattle.std.specs.Prelude.{◌≡◌, IsTrue, IfSome};
ghost use Rattle.std.specs.List.{prefix_len};
ghost use Rattle.std.specs.Option.{option_copied};
ghost use Rattle.ely_row.specs.Salts.{is_realm};
ghost use Rattle.ely_propfile.specs.Realms.{is_named_byte, closed_realm, realm_at, realm_in, line_realm, realm_of};

use crate::blank::trimmed_start;
use crate::lines::Lines;
use crate::pair::is_comment;
use crate::part::{from_offset, up_to};

/// Whether a named realm may hold the byte: printable ASCII without `$`, the double quote and the backslash.
fn is_named_byte(b: u8) -> bool
    ensures { result ≡ is_named_byte b }
{
    0x20 <= b && b <= 0x7E && !(b == b'"' || b == b'\\') && b != b'$'
}

/// How many such bytes the text begins with.
fn named_len(text: &[u8]) -> usize
    ensures { result ≡ prefix_len is_named_byte text.now }
{
    text.iter().take_while(|b| is_named_byte(**b)).count()
}

/// The realm that stands before a `$`.
fn closed_realm(text: &[u8]) -> Option<&[u8]>
    ensures value { option_copied result ≡ closed_realm text.now }
    ensures bounds { IfSome result (λ realm. IsTrue (is_realm realm.now)) }
{
    let len = named_len(text);
    if len < 1 || len > 255 || len >= text.len() || text[len] != b'$' {
        return None;
    }
    Some(up_to(text, len))
}

/// The realm that a prefix of the text names.
fn realm_at(text: &[u8]) -> Option<&[u8]>
    ensures value { option_copied result ≡ realm_at text.now }
    ensures bounds { IfSome result (λ realm. IsTrue (is_realm realm.now)) }
{
    if text.len() < 12 || up_to(text, 12) != b"$REALM_NAME=".as_slice() {
        return None;
    }
    closed_realm(from_offset(text, 12))
}

/// The realm that is named first in the text.
fn realm_in(text: &[u8]) -> Option<&[u8]>
    ensures value { option_copied result ≡ realm_in text.now }
    ensures bounds { IfSome result (λ realm. IsTrue (is_realm realm.now)) }
{
    let mut rest = text;
    while rest.len() > 0 {
        let named = realm_at(rest);
        if named.is_some() {
            return named;
        }
        rest = from_offset(rest, 1);
    }
    None
}

/// The realm that a line names, where it is a comment.
fn line_realm(line: &[u8]) -> Option<&[u8]>
    ensures value { option_copied result ≡ line_realm line.now }
    ensures bounds { IfSome result (λ realm. IsTrue (is_realm realm.now)) }
{
    let body = trimmed_start(line);
    if is_comment(body) {
        realm_in(body)
    } else {
        None
    }
}

/// The digest realm of a text: the first that a comment names, wherever it stands, else the fallback.
pub fn realm_of<'a>(text: &'a [u8], fallback: &'a [u8]) -> &'a [u8]
    requires { IsTrue (is_realm fallback.now) }
    ensures value { result.now ≡ realm_of fallback.now text.now }
    ensures bounds { IsTrue (is_realm result.now) }
{
    let mut lines = Lines::of(text);
    while let Some(line) = lines.next() {
        if let Some(realm) = line_realm(line.bytes()) {
            return realm;
        }
    }
    fallback
}
