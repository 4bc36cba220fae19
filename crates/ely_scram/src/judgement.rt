//! Whether a client's last message proves its key, and the signature with which the server answers (RFC 5802 section 3).
//! It stands on messages that were read already, and on the counter of HMAC computations.
ghost use Rattle.std.specs.Prelude.{◌≡◌, ◌↔◌, ℕ, ◌+◌, ◌≤◌, List, ◌++◌, length, IsTrue, IsSome, IfSome};
ghost use Rattle.ely_hash.specs.Formulas.{xor_lists};
ghost use Rattle.ely_scram.specs.Judgement.{signature_of, judgement_of, IsProved, ClientKeyShown};
ghost use Rattle.ely_scram.specs.JudgementCosts.{judge_cost};

use ely_hash::{HashAlg, Hmac, ScramKeys, Steps, Tag, digest, digest_len, same, xor};
use ely_scram_msg::{ClientFirst, ClientLast};
use std::sync::ledger::Ledger;

/// What a client's last message is worth.
#[derive(Clone, Copy, PartialEq, Eq, Debug)]
pub enum Judged {
    /// It proves the client's key: ServerSignature, which is the verifier.
    Proved(Tag),
    /// The channel binding isn't the gs2-header of the first message.
    BadBinding,
    /// The nonce isn't the client's with the server's behind it.
    BadNonce,
    /// The proof isn't one of the key.
    BadProof,
}

/// The signature of the login's messages under a key, in one step. Its text is added part by part, so that it takes no
/// memory.
fn signature<H: HashAlg, L: Ledger>(
    key: &Tag,
    first: &ClientFirst,
    server_first: &[u8],
    last: &ClientLast,
    steps: &mut Steps<L>,
) -> Tag
    ensures value { result ≡ signature_of H.hash key.now first.now server_first.now last.now }
    ensures len { length result ≡ H.hash.len }
    ensures cost { steps.new ≡ steps.old + 1 }
{
    steps.tick();
    let mut mac = Hmac::<H>::start(key.bytes());
    mac.add(first.bare.bytes());
    mac.add(b",");
    mac.add(server_first);
    mac.add(b",");
    mac.add(last.without_proof.bytes());
    mac.end()
}

/// Whether the binding is the gs2-header of the first message.
fn has_binding(first: &ClientFirst, last: &ClientLast) -> bool
    ensures { IsTrue result ↔ (last.now.binding ≡ first.now.gs2) }
{
    same(last.binding.bytes(), first.gs2.bytes())
}

/// Whether the nonce is the client's with the server's behind it.
fn has_nonce(first: &ClientFirst, nonce: &[u8], last: &ClientLast) -> bool
    ensures { IsTrue result ↔ (last.now.nonce ≡ first.now.nonce ++ nonce.now) }
{
    let whole = last.nonce.bytes();
    let client = first.nonce.bytes();
    if whole.len() < client.len() {
        return false;
    }
    let (prefix, rest) = whole.split_at(client.len());
    same(prefix, client) && same(rest, nonce)
}

/// The proof, where it has the length of a digest.
fn sized_proof<H: HashAlg>(last: &ClientLast) -> Option<Tag>
    ensures some { IsSome result ↔ (length last.now.proof ≡ H.hash.len) }
    ensures value { IfSome result (λ proof. proof ≡ last.now.proof) }
{
    let proof = last.proof.bytes();
    if proof.len() != digest_len::<H>() {
        return None;
    }
    Tag::of(proof)
}

/// Whether the exclusive or of the proof and ClientSignature is the key whose digest is StoredKey.
fn shows_key<H: HashAlg>(stored: &Tag, signature: &Tag, proof: &Tag) -> bool
    requires { length proof.now ≡ length signature.now }
    ensures { IsTrue result ↔ (H.hash.digest (xor_lists proof.now signature.now) ≡ stored.now) }
{
    let client_key = xor(proof, signature);
    same(digest::<H>(client_key.bytes()).bytes(), stored.bytes())
}

/// Judges the client's last message of a login: the binding first, then the nonce, then the proof. `nonce` is the
/// server's own part of the whole nonce, and `server_first` the message that it sent.
pub fn judge<H: HashAlg, L: Ledger>(
    keys: &ScramKeys,
    first: &ClientFirst,
    nonce: &[u8],
    server_first: &[u8],
    last: &ClientLast,
    steps: &mut Steps<L>,
) -> Judged
    ensures value { result ≡ judgement_of H.hash keys.now first.now nonce.now
        server_first.now last.now }
    // Who gets in.
    ensures exactly { IsProved result ↔ ((last.now.binding ≡ first.now.gs2)
        × (last.now.nonce ≡ first.now.nonce ++ nonce.now)
        × ClientKeyShown H.hash keys.now first.now server_first.now last.now) }
    ensures verifier { (tag : List ℕ) → result ≡ Judged.Proved tag
        → tag ≡ signature_of H.hash keys.now.server first.now server_first.now last.now }
    ensures cost { steps.new ≡ steps.old + judge_cost H.hash keys.now first.now nonce.now
        server_first.now last.now }
    ensures most { steps.new ≤ steps.old + 2 }
{
    if !has_binding(first, last) {
        return Judged::BadBinding;
    }
    if !has_nonce(first, nonce, last) {
        return Judged::BadNonce;
    }
    let Some(proof) = sized_proof::<H>(last) else {
        return Judged::BadProof;
    };
    let client = signature::<H, L>(&keys.stored, first, server_first, last, steps);
    if !shows_key::<H>(&keys.stored, &client, &proof) {
        return Judged::BadProof;
    }
    Judged::Proved(signature::<H, L>(&keys.server, first, server_first, last, steps))
}
