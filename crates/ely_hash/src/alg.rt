//! The hash functions MD5 (RFC 1321), SHA-1 and SHA-256 (FIPS 180-4) behind one trait. No other crate of the
//! repository names the crates that compute them.
ghost use Rattle.std.specs.Prelude.{◌≡◌, refl, ⊤, ℕ, List, [], ◌++◌, length};
ghost use Rattle.ely_hash.specs.Hashes.{Hash, md5_hash, sha1_hash, sha256_hash};
ghost use Rattle.ely_hash.specs.Laws.{HashLaws};
ghost use Rattle.ely_hash.specs.LawProofs.{md5_laws, sha1_laws, sha256_laws};

use crate::tag::Tag;
use md5::Md5;
use sha1::Sha1;
use sha2::Sha256;
use std::alloc::AllocError;

/// A hash function: a value takes a message piece by piece, and then gives its digest.
pub trait HashAlg: Clone + Drop {
    /// The length of a digest in bytes.
    const LEN: usize;

    /// The length of a block in bytes.
    const BLOCK: usize;

    /// The same two numbers, for clauses.
    ghost LEN: { ℕ };

    ghost BLOCK: { ℕ };

    /// The hash function, as its standard defines it.
    ghost hash: { Hash };

    /// The two constants are its lengths.
    ghost len_is: { LEN ≡ hash.len };

    ghost block_is: { BLOCK ≡ hash.block };

    /// A value stands for a message: these are the bytes that it has taken.
    ghost stands: { Self → List ℕ → Type 0 };

    /// A digest has `LEN` bytes, a tag and a block have room for one, and a block has at most 64 bytes.
    ghost laws: { HashLaws hash };

    /// A value that stands for the empty message.
    fn start() -> Self
        ensures { stands result [] };

    /// Adds a piece at the end of the message.
    fn add(&mut self, piece: &[u8])
        ensures { (m : List ℕ) → stands self.old m → stands self.new (m ++ piece.now) };

    /// The digest of the message.
    fn end(self) -> Tag
        ensures value { (m : List ℕ) → stands self m → result ≡ hash.digest m }
        ensures len { length result ≡ hash.len };

    /// A clone is always made: it takes no memory.
    ghost clones: { (x : Self) → Self.is_infallible x };

    /// A clone is an equal value.
    ghost equal_clones: { (x y : Self) → Self.is_clone x y → y ≡ x };
}

/// The length of a digest.
pub fn digest_len<H: HashAlg>() -> usize
    ensures { result ≡ H.hash.len }
{
    H::LEN
}

/// The length of a block.
pub(crate) fn block_len<H: HashAlg>() -> usize
    ensures { result ≡ H.hash.block }
{
    H::BLOCK
}

/// The digest of one piece.
pub fn digest<H: HashAlg>(piece: &[u8]) -> Tag
    ensures value { result ≡ H.hash.digest piece.now }
    ensures len { length result ≡ H.hash.len }
{
    let mut hash = H::start();
    hash.add(piece);
    hash.end()
}

/// MD5 (RFC 1321).
#[derive(Drop)]
pub struct Md5Alg {
    state: Md5,
}

/// SHA-1 (FIPS 180-4 section 6.1).
#[derive(Drop)]
pub struct Sha1Alg {
    state: Sha1,
}

/// SHA-256 (FIPS 180-4 section 6.2).
#[derive(Drop)]
pub struct Sha256Alg {
    state: Sha256,
}

impl Clone for Md5Alg {
    ghost is_clone = { λ x y. y ≡ x };

    ghost is_infallible = { λ _. ⊤ };

    fn clone(&self) -> Result<Md5Alg, AllocError> {
        Ok(Md5Alg {
            state: self.state.clone()?,
        })
    }
}

impl HashAlg for Md5Alg {
    ghost use Rattle.ely_hash.specs.Algs.{StandsMd5};

    const LEN: usize = 16;

    const BLOCK: usize = 64;

    ghost stands = { StandsMd5 };

    ghost LEN = { 16 };

    ghost BLOCK = { 64 };

    ghost hash = { md5_hash };

    ghost len_is = { refl };

    ghost block_is = { refl };

    ghost laws = { md5_laws };

    ghost clones = { λ x. tt };

    ghost equal_clones = { λ x y h. h };

    fn start() -> Md5Alg {
        Md5Alg {
            state: md5::Digest::new(),
        }
    }

    fn add(&mut self, piece: &[u8]) {
        md5::Digest::update(&mut self.state, piece);
    }

    fn end(self) -> Tag {
        let digest = md5::Digest::finalize(self.state);
        Tag::of(&digest).unwrap()
    }
}

impl Clone for Sha1Alg {
    ghost is_clone = { λ x y. y ≡ x };

    ghost is_infallible = { λ _. ⊤ };

    fn clone(&self) -> Result<Sha1Alg, AllocError> {
        Ok(Sha1Alg {
            state: self.state.clone()?,
        })
    }
}

impl HashAlg for Sha1Alg {
    ghost use Rattle.ely_hash.specs.Algs.{StandsSha1};

    const LEN: usize = 20;

    const BLOCK: usize = 64;

    ghost stands = { StandsSha1 };

    ghost LEN = { 20 };

    ghost BLOCK = { 64 };

    ghost hash = { sha1_hash };

    ghost len_is = { refl };

    ghost block_is = { refl };

    ghost laws = { sha1_laws };

    ghost clones = { λ x. tt };

    ghost equal_clones = { λ x y h. h };

    fn start() -> Sha1Alg {
        Sha1Alg { state: Sha1::new() }
    }

    fn add(&mut self, piece: &[u8]) {
        self.state.update(piece);
    }

    fn end(self) -> Tag {
        let digest = self.state.finalize();
        Tag::of(&digest).unwrap()
    }
}

impl Clone for Sha256Alg {
    ghost is_clone = { λ x y. y ≡ x };

    ghost is_infallible = { λ _. ⊤ };

    fn clone(&self) -> Result<Sha256Alg, AllocError> {
        Ok(Sha256Alg {
            state: self.state.clone()?,
        })
    }
}

impl HashAlg for Sha256Alg {
    ghost use Rattle.ely_hash.specs.Algs.{StandsSha256};

    const LEN: usize = 32;

    const BLOCK: usize = 64;

    ghost stands = { StandsSha256 };

    ghost LEN = { 32 };

    ghost BLOCK = { 64 };

    ghost hash = { sha256_hash };

    ghost len_is = { refl };

    ghost block_is = { refl };

    ghost laws = { sha256_laws };

    ghost clones = { λ x. tt };

    ghost equal_clones = { λ x y h. h };

    fn start() -> Sha256Alg {
        Sha256Alg {
            state: sha2::Digest::new(),
        }
    }

    fn add(&mut self, piece: &[u8]) {
        sha2::Digest::update(&mut self.state, piece);
    }

    fn end(self) -> Tag {
        let digest = sha2::Digest::finalize(self.state);
        Tag::of(&digest).unwrap()
    }
}
