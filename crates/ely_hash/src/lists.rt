//! The exclusive or of two tags, and equality of bytes. It stands on tags alone.
ghost use Rattle.std.specs.Prelude.{◌≡◌, ◌↔◌, length, IsTrue};
ghost use Rattle.ely_hash.specs.Formulas.{xor_lists};

use crate::tag::Tag;

/// The exclusive or of two tags of one length, byte by byte (RFC 5802 section 2.2).
pub fn xor(a: &Tag, b: &Tag) -> Tag
    requires { length a.now ≡ length b.now }
    ensures value { result ≡ xor_lists a.now b.now }
    ensures len { length result ≡ length a.now }
{
    let mut out = [0; 32];
    let left = a.bytes();
    let right = b.bytes();
    let len = left.len();
    for i in 0..len {
        out[i] = left[i] ^ right[i];
    }
    Tag::of(&out[..len]).unwrap()
}

/// Whether these are the same bytes. It may end at the first that differs.
pub fn same(a: &[u8], b: &[u8]) -> bool
    ensures { IsTrue result ↔ (a.now ≡ b.now) }
{
    a == b
}
