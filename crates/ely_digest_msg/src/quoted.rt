//! Texts that a header lends, seen as their bytes without escapes, and copies of them.

ghost use Rattle.std.specs.Prelude.{◌≡◌, ◌<◌, ◌∷◌, [], length, IfOk, IfSome, IfNone, MatchOption};
ghost use Rattle.ely_digest_msg.specs.Parts.{unescaped};

use crate::rest::{Rest, from_offset};
use arrayvec::ArrayVec;
use ely_base::{Bytes, NoMemory};
use std::alloc::Global;
use std::marker::Model;

/// A text of a header, lent with its escapes and seen as its bytes without them: `\` takes the next byte as it is
/// (RFC 7230 section 3.2.6).
#[derive(Debug, Drop)]
pub struct Quoted<'a> {
    raw: &'a [u8],
}

impl<'a> Model for Quoted<'a> {
    ghost use Rattle.std.specs.Prelude.{ℕ, List};

    ghost Value = { List ℕ };

    ghost use Rattle.ely_digest_msg.specs.Parts.{unescaped};

    ghost view = { λ q. unescaped q.raw.now };
}

/// The first byte that quoted bytes stand for, and what follows it.
fn next_byte(raw: &[u8]) -> Option<(u8, Rest<'_>)>
    ensures none { IfNone result (unescaped raw.now ≡ []) }
    ensures first { IfSome result (λ n. unescaped raw.now ≡ n.0 ∷ unescaped n.1) }
    ensures shorter { IfSome result (λ n. length n.1 < length raw.now) }
{
    if raw.len() == 0 {
        return None;
    }
    if raw.len() > 1 && raw[0] == b'\\' {
        return Some((raw[1], Rest::of(from_offset(raw, 2))));
    }
    Some((raw[0], Rest::of(from_offset(raw, 1))))
}

impl<'a> Quoted<'a> {
    /// The text that these bytes stand for.
    pub(crate) fn of(raw: &'a [u8]) -> Quoted<'a>
        ensures { result ≡ unescaped raw.now }
    {
        Quoted { raw }
    }

    /// The bytes with their escapes.
    pub(crate) fn raw(&self) -> &'a [u8]
        ensures { unescaped result.now ≡ self.now }
    {
        self.raw
    }

    /// The bytes without their escapes, where they are at most 255. It takes no memory.
    pub(crate) fn short(&self) -> Option<ArrayVec<u8, 255>>
        ensures { MatchOption result (255 < length self.now) (λ bytes. bytes.items ≡ self.now) }
    {
        let mut bytes = ArrayVec::new();
        let mut rest = self.raw();
        while let Some((byte, left)) = next_byte(rest) {
            if bytes.is_full() {
                return None;
            }
            bytes.push(byte);
            rest = left.bytes();
        }
        Some(bytes)
    }

    /// The bytes without their escapes, in a list.
    pub(crate) fn list(&self, alloc: Global) -> Result<Vec<u8>, NoMemory>
        ensures { IfOk result (λ list. list.items ≡ self.now) }
    {
        let mut bytes = Vec::new(alloc);
        let mut rest = self.raw();
        while let Some((byte, left)) = next_byte(rest) {
            bytes.push(byte)?;
            rest = left.bytes();
        }
        Ok(bytes)
    }

    /// The bytes without their escapes.
    pub fn copy(&self, alloc: Global) -> Result<Bytes, NoMemory>
        ensures { IfOk result (λ copy. copy ≡ self.now) }
    {
        Ok(Bytes::of(self.list(alloc)?))
    }
}
