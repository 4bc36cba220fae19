//! Digests and keys of at most 32 bytes, kept inside the value, so that one is copied without taking memory.
ghost use Rattle.std.specs.Prelude.{◌≡◌, ◌↔◌, ◌≤◌, length, IfSome, IsSome};

use std::marker::Model;

/// The greatest length of a tag: that of SHA-256 (FIPS 180-4 section 1).
const MOST: usize = 32;

/// From 1 to 32 bytes, seen as their list.
#[derive(Clone, Copy, Debug)]
pub struct Tag {
    buffer: [u8; 32],
    len: usize,
}

impl Model for Tag {
    ghost use Rattle.std.specs.Prelude.{ℕ, List, take};

    ghost Value = { List ℕ };

    ghost use Rattle.ely_hash.specs.Tags.{IsTag, inside_of};
    ghost use Rattle.ely_hash.specs.TagProofs.{inside_of-bytes};

    ghost view = { λ t. take t.len t.buffer };

    ghost invariant = { IsTag };

    ghost inverse = { inside_of };

    ghost inverse_ok = { inside_of-bytes };
}

impl Tag {
    /// The bytes.
    pub fn bytes(&self) -> &[u8]
        ensures value { result.now ≡ self.now }
        ensures some { 1 ≤ length self.now }
        ensures most { length self.now ≤ 32 }
    {
        &self.buffer[..self.len]
    }

    /// The tag of these bytes, or `None` where there is none of them or more than 32.
    pub fn of(bytes: &[u8]) -> Option<Tag>
        ensures some { IsSome result ↔ ((1 ≤ length bytes.now) × (length bytes.now ≤ 32)) }
        ensures value { IfSome result (λ tag. tag ≡ bytes.now) }
    {
        if bytes.is_empty() || bytes.len() > MOST {
            return None;
        }
        let mut buffer = [0; 32];
        let len = bytes.len();
        buffer[..len].copy_from_slice(bytes);
        Some(Tag { buffer, len })
    }
}

// By hand, since a derived one would compare the zeros behind the bytes too, and its clause would speak of them.
impl PartialEq for Tag {
    ghost use Rattle.std.specs.Prelude.{◌==◌};
    ghost use Rattle.std.proofs.Common.{rules};
    ghost use Rattle.std.specs.Cmp.Rules.{comparing};
    ghost use Rattle.std.specs.Cmp.Lexicographic.{pointwise};

    ghost eq = { pointwise ◌==◌ };

    ghost laws = { Prim.search (comparing, rules) };

    fn eq(&self, other: &Tag) -> bool {
        self.bytes() == other.bytes()
    }
}

impl Eq for Tag {
    ghost use Rattle.std.proofs.Common.{rules};
    ghost use Rattle.std.specs.Cmp.Rules.{comparing};

    ghost laws = { Prim.search (comparing, rules) };
}
