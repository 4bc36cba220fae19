//! HMAC over any of the hash functions (RFC 2104), with its text taken piece by piece.
ghost use Rattle.std.specs.Prelude.{◌≡◌, ℕ, List, [], ◌++◌, length};
ghost use Rattle.ely_hash.specs.Formulas.{hmac_of};
ghost use Rattle.ely_hash.specs.Macs.{IsHmac};

use crate::alg::{HashAlg, block_len};
use crate::block::{block_of, xor_block};
use crate::tag::Tag;

// ipad and opad of RFC 2104 section 2.
const INNER_PAD: u8 = 0x36;

const OUTER_PAD: u8 = 0x5c;

/// An HMAC in progress: it stands for its key and for the text that was added (RFC 2104 section 2).
#[derive(Drop)]
pub struct Hmac<H: HashAlg> {
    inner: H,
    outer: H,
}

// A value that stands for one piece.
fn start_with<H: HashAlg>(piece: &[u8]) -> H
    ensures { H.stands result piece.now }
{
    let mut hash = H::start();
    hash.add(piece);
    hash
}

impl<H: HashAlg> Hmac<H> {
    /// An HMAC under this key, with no text yet.
    pub fn start(key: &[u8]) -> Hmac<H>
        ensures { IsHmac H.stands H.hash result key.now [] }
    {
        let block = block_of::<H>(key);
        let inner = xor_block(&block, INNER_PAD);
        let outer = xor_block(&block, OUTER_PAD);
        let len = block_len::<H>();
        Hmac {
            inner: start_with(&inner[..len]),
            outer: start_with(&outer[..len]),
        }
    }

    /// Adds a piece at the end of the text.
    pub fn add(&mut self, piece: &[u8])
        ensures { (key text : List ℕ) → IsHmac H.stands H.hash self.old key text
            → IsHmac H.stands H.hash self.new key (text ++ piece.now) }
    {
        self.inner.add(piece);
    }

    /// The MAC of the text under the key.
    pub fn end(self) -> Tag
        ensures value { (key text : List ℕ) → IsHmac H.stands H.hash self key text
            → result ≡ hmac_of H.hash key text }
        ensures len { length result ≡ H.hash.len }
    {
        let Hmac { inner, mut outer } = self;
        outer.add(inner.end().bytes());
        outer.end()
    }

    /// An equal HMAC. The key's two blocks, which its states have taken, aren't hashed anew.
    pub(crate) fn copy(&self) -> Hmac<H>
        ensures { result ≡ self.now }
    {
        Hmac {
            inner: self.inner.clone().unwrap(),
            outer: self.outer.clone().unwrap(),
        }
    }
}
