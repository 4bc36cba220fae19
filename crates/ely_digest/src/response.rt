//! The response that a user's client computes (RFC 7616 sections 3.4.1 and 3.4.3).

ghost use Rattle.std.specs.Prelude.{◌≡◌, ℕ, List, ◌++◌, codes, length};
ghost use Rattle.ely_digest.specs.Responses.{ha2_of, nc_text, response_of};

use crate::count::add_nc;
use crate::digits::add_hex;
use ely_digest_msg::DigestReply;
use ely_hash::{HashAlg, Tag};

/// `H(A2)` (RFC 7616 section 3.4.3).
fn ha2<H: HashAlg>(method: &[u8], uri: &[u8]) -> Tag
    ensures { result ≡ ha2_of H.hash method.now uri.now }
{
    let mut hash = H::start();
    hash.add(method);
    hash.add(b":");
    hash.add(uri);
    hash.end()
}

/// Adds what the header says of this use of its nonce.
fn add_use<H: HashAlg>(hash: &mut H, reply: &DigestReply)
    ensures { (m : List ℕ) → H.stands hash.old m
        → H.stands hash.new (m ++ reply.now.nonce ++ codes ":" ++ nc_text reply.now.nc ++ codes ":"
        ++ reply.now.cnonce ++ codes ":" ++ codes "auth") }
{
    hash.add(reply.nonce.bytes());
    hash.add(b":");
    add_nc(hash, reply.nc);
    hash.add(b":");
    hash.add(reply.cnonce.bytes());
    hash.add(b":");
    hash.add(b"auth");
}

/// The digest that the header's `response` has to show, for a request with this method by a user with this `H(A1)`
/// (RFC 7616 section 3.4.1, with `qop` auth). It takes no memory.
pub fn response_of<H: HashAlg>(ha1: &Tag, reply: &DigestReply, method: &[u8]) -> Tag
    ensures value { result ≡ response_of H.hash ha1.now reply.now method.now }
    ensures len { length result ≡ H.hash.len }
{
    let ha2 = ha2::<H>(method, reply.uri.bytes());
    let mut hash = H::start();
    add_hex(&mut hash, ha1.bytes());
    hash.add(b":");
    add_use(&mut hash, reply);
    hash.add(b":");
    add_hex(&mut hash, ha2.bytes());
    hash.end()
}
