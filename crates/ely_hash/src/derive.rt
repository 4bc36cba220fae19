//! Values derived of passwords: the MAC of a whole text, Hi, and the keys that a SCRAM server keeps (RFC 5802); and the
//! digest that a Digest server keeps (RFC 7616). Where a counter is handed in, each HMAC computation is one step.
ghost use Rattle.std.specs.Prelude.{◌≡◌, ◌+◌, ◌≤◌, length};
ghost use Rattle.ely_hash.specs.Formulas.{hmac_of, hi_of, stored_key_of, server_key_of, ha1_of};

use crate::alg::{HashAlg, digest};
use crate::lists::xor;
use crate::mac::Hmac;
use crate::steps::Steps;
use crate::tag::Tag;
use std::sync::ledger::Ledger;

/// StoredKey and ServerKey, which a server keeps of a user (RFC 5802 section 3).
#[derive(Clone, Copy, PartialEq, Eq, Debug)]
pub struct ScramKeys {
    pub stored: Tag,
    pub server: Tag,
}

/// The MAC of a text under a key (RFC 2104 section 2).
pub fn hmac<H: HashAlg>(key: &[u8], text: &[u8]) -> Tag
    ensures value { result ≡ hmac_of H.hash key.now text.now }
    ensures len { length result ≡ H.hash.len }
{
    let mut mac = Hmac::<H>::start(key);
    mac.add(text);
    mac.end()
}

/// `Hi(password, salt, turns)`, the SaltedPassword of SCRAM: the exclusive or of U1 to the U of the last turn
/// (RFC 5802 section 2.2). A turn is one step.
pub fn hi<H: HashAlg, L: Ledger>(
    password: &[u8],
    salt: &[u8],
    turns: u32,
    steps: &mut Steps<L>,
) -> Tag
    requires { 1 ≤ turns }
    ensures value { result ≡ hi_of H.hash password.now salt.now turns }
    ensures len { length result ≡ H.hash.len }
    ensures cost { steps.new ≡ steps.old + turns }
{
    // The states that have taken the key are copied in each turn: this leaves two compressions of the four.
    let keyed = Hmac::<H>::start(password);
    steps.tick();
    let mut mac = keyed.copy();
    mac.add(salt);
    mac.add(&[0, 0, 0, 1]);
    let mut last = mac.end();
    let mut total = last;
    for k in 1..turns {
        steps.tick();
        let mut mac = keyed.copy();
        mac.add(last.bytes());
        last = mac.end();
        total = xor(&total, &last);
    }
    total
}

/// The keys of a SaltedPassword (RFC 5802 section 3), in two steps.
pub fn keys_of<H: HashAlg, L: Ledger>(salted: &Tag, steps: &mut Steps<L>) -> ScramKeys
    ensures stored { result.stored ≡ stored_key_of H.hash salted.now }
    ensures server { result.server ≡ server_key_of H.hash salted.now }
    ensures stored_len { length result.stored ≡ H.hash.len }
    ensures server_len { length result.server ≡ H.hash.len }
    ensures cost { steps.new ≡ steps.old + 2 }
{
    steps.tick();
    let client = hmac::<H>(salted.bytes(), b"Client Key");
    steps.tick();
    let server = hmac::<H>(salted.bytes(), b"Server Key");
    ScramKeys {
        stored: digest::<H>(client.bytes()),
        server,
    }
}

/// `H(A1)`: the digest of the name, the realm and the password with a colon between them, which a Digest server may keep in
/// place of the password (RFC 7616 section 3.4.2).
pub fn ha1<H: HashAlg>(name: &[u8], realm: &[u8], password: &[u8]) -> Tag
    ensures value { result ≡ ha1_of H.hash name.now realm.now password.now }
    ensures len { length result ≡ H.hash.len }
{
    let mut hash = H::start();
    hash.add(name);
    hash.add(b":");
    hash.add(realm);
    hash.add(b":");
    hash.add(password);
    hash.end()
}
