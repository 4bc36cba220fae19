//! The key of an HMAC as a block, and its exclusive or with a pad (RFC 2104 section 2). It stands on the trait of the
//! hash functions, whose laws say that no block is longer than 64 bytes.
ghost use Rattle.std.specs.Prelude.{◌≡◌, ◌-◌, ◌≤◌, ◌++◌, length, replicate, take};
ghost use Rattle.ely_hash.specs.Formulas.{block_key, xor_each};

use crate::alg::{HashAlg, block_len, digest};

/// The key as a block, at the start of the buffer: a longer key is hashed first, and zeros fill the rest.
pub(crate) fn block_of<H: HashAlg>(key: &[u8]) -> [u8; 64]
    ensures { take H.hash.block result ≡ block_key H.hash key.now }
{
    if key.len() <= block_len::<H>() {
        fill_block(key)
    } else {
        fill_block(digest::<H>(key).bytes())
    }
}

// The buffer that begins with these bytes, with zeros after them.
fn fill_block(bytes: &[u8]) -> [u8; 64]
    requires { length bytes.now ≤ 64 }
    ensures { result ≡ bytes.now ++ replicate (64 - length bytes.now) 0 }
{
    let mut block = [0; 64];
    block[..bytes.len()].copy_from_slice(bytes);
    block
}

/// The exclusive or of each byte and the pad.
pub(crate) fn xor_block(block: &[u8; 64], pad: u8) -> [u8; 64]
    ensures { result ≡ xor_each pad block.now }
{
    let mut out = *block;
    for byte in out.iter_mut() {
        *byte ^= pad;
    }
    out
}
