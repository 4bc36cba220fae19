//! Judging a message of SCRAM by a key (RFC 5802 section 3).

ghost use Rattle.std.specs.Prelude.{◌≡◌, ◌+◌, Some, IsTrue};
ghost use Rattle.std.specs.Option.{option_map};
ghost use Rattle.ely_scram.specs.Judgement.{judgement_of};
ghost use Rattle.ely_job.specs.Jobs.{is_scram, scram_keys, judged_by, scram_verdict, scram_cost};

use crate::verdict::Verdict;
use ely_cred::{Ready, ReadyKey};
use ely_hash::{ScramKeys, Sha1Alg, Sha256Alg, Steps};
use ely_row::Mech;
use ely_scram::{Judged, judge};
use ely_scram_msg::{ClientFirst, ClientLast};
use std::sync::ledger::Ledger;

/// The keys of a key for SCRAM.
fn scram_keys(ready: &Ready) -> &ScramKeys
    requires { IsTrue (is_scram ready.now.mech) }
    ensures { scram_keys ready.now.key ≡ Some result.now }
{
    let _mech = ready.mech();
    match ready.key() {
        ReadyKey::Scram { keys, .. } => keys,
        _ => unreachable!(),
    }
}

/// The verdict that a judgement comes to.
fn verdict_of(judged: Judged) -> Verdict
    ensures { result ≡ scram_verdict judged }
{
    match judged {
        Judged::Proved(verifier) => Verdict::Proved(Some(verifier)),
        Judged::BadBinding => Verdict::Binding,
        Judged::BadNonce => Verdict::Nonce,
        Judged::BadProof => Verdict::Proof,
    }
}

/// The verdict on a client's last message by a key, with the hash function of the key's mechanism. It takes two HMAC
/// computations at most.
pub fn scram_verdict<L: Ledger>(
    ready: &Ready,
    first: &ClientFirst,
    nonce: &[u8],
    server_first: &[u8],
    last: &ClientLast,
    steps: &mut Steps<L>,
) -> Verdict
    requires { IsTrue (is_scram ready.now.mech) }
    ensures value { Some result ≡ option_map
        (λ by. scram_verdict (judgement_of by.0 by.1 first.now nonce.now server_first.now last.now))
        (judged_by ready.now.mech ready.now.key) }
    ensures cost { steps.new ≡ steps.old + scram_cost (judged_by ready.now.mech ready.now.key)
        first.now nonce.now server_first.now last.now }
{
    let keys = scram_keys(ready);
    let judged = match ready.mech() {
        Mech::ScramSha1 => judge::<Sha1Alg, L>(keys, first, nonce, server_first, last, steps),
        Mech::ScramSha256 => judge::<Sha256Alg, L>(keys, first, nonce, server_first, last, steps),
        _ => unreachable!(),
    };
    verdict_of(judged)
}
