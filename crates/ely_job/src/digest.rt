//! Judging a header of Digest by a key (RFC 7616 section 3.4).

ghost use Rattle.std.specs.Prelude.{◌≡◌, ◌↔◌, None, Some, IsTrue};
ghost use Rattle.std.specs.Option.{option_map};
ghost use Rattle.ely_job.specs.Digests.{is_digest, digest_hash, realm_due, ha1_due, has_response, digest_verdict, proves_digest};

use crate::verdict::Verdict;
use ely_cred::{Ready, ReadyKey};
use ely_digest::{ha1, is_hex_of, response_of};
use ely_digest_msg::DigestReply;
use ely_hash::{HashAlg, Md5Alg, Sha256Alg, Tag, same};
use ely_row::Mech;

/// The realm that a header has to name.
fn realm_due<'a>(key: &'a ReadyKey, configured: &'a [u8]) -> &'a [u8]
    ensures { result.now ≡ realm_due key.now configured.now }
{
    match key {
        ReadyKey::Ha1(kept) => kept.realm().bytes(),
        _ => configured,
    }
}

/// `H(A1)` of a key.
fn ha1_due<H: HashAlg>(key: &ReadyKey, reply: &DigestReply) -> Option<Tag>
    ensures { result ≡ ha1_due H.hash key.now reply.now }
{
    match key {
        ReadyKey::Ha1(kept) => Some(*kept.hash()),
        ReadyKey::Password(password) => {
            let (name, realm) = (reply.name.bytes(), reply.realm.bytes());
            Some(ha1::<H>(name, realm, password.bytes()))
        }
        _ => None,
    }
}

/// Whether the header shows the response of the formula.
#[tactic(auto, unfolding(crate::specs::Digests::has_response))]
fn has_response<H: HashAlg>(key: &ReadyKey, reply: &DigestReply, method: &[u8]) -> bool
    ensures { result ≡ has_response H.hash key.now reply.now method.now }
{
    match ha1_due::<H>(key, reply) {
        None => false,
        Some(kept) => is_hex_of(
            reply.response.bytes(),
            &response_of::<H>(&kept, reply, method),
        ),
    }
}

/// The verdict on a header by a key, for a request with this method and this target: the first of realm, uri and response
/// that is wrong. The realm is that of the kept hash, or `configured` for a clear password. It takes no memory.
#[tactic(auto, unfolding(crate::specs::Digests::digest_verdict))]
pub fn digest_verdict<H: HashAlg>(
    key: &ReadyKey,
    reply: &DigestReply,
    method: &[u8],
    target: &[u8],
    configured: &[u8],
) -> Verdict
    ensures value { result
        ≡ digest_verdict H.hash key.now reply.now method.now target.now configured.now }
    // Who gets in.
    ensures exactly { (result ≡ Verdict.Proved None) ↔ IsTrue
        (proves_digest H.hash key.now reply.now method.now target.now configured.now) }
{
    if !same(reply.realm.bytes(), realm_due(key, configured)) {
        return Verdict::Realm;
    }
    if !same(reply.uri.bytes(), target) {
        return Verdict::Uri;
    }
    if !has_response::<H>(key, reply, method) {
        return Verdict::Response;
    }
    Verdict::Proved(None)
}

/// The same with the hash function of the key's mechanism.
pub fn digest_judgement(
    ready: &Ready,
    reply: &DigestReply,
    method: &[u8],
    target: &[u8],
    configured: &[u8],
) -> Verdict
    requires { IsTrue (is_digest ready.now.mech) }
    ensures { Some result ≡ option_map (λ hash. digest_verdict hash ready.now.key
        reply.now method.now target.now configured.now) (digest_hash ready.now.mech) }
{
    let key = ready.key();
    match ready.mech() {
        Mech::Digest => digest_verdict::<Md5Alg>(key, reply, method, target, configured),
        Mech::DigestSha256 => digest_verdict::<Sha256Alg>(key, reply, method, target, configured),
        _ => unreachable!(),
    }
}
