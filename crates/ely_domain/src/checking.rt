//! Checking a login in two steps: what it shows, and whether that proves its key.

ghost use Rattle.std.specs.Prelude.{◌≡◌, ℕ, true, Option, Some, None, Err, IsSome, IsTrue, IfSome};
ghost use Rattle.ely_domain.specs.Caches.{found_in};
ghost use Rattle.ely_domain.specs.Contexts.{HoldsIts, IsReply, StaysSound, read_of, seen_login};
ghost use Rattle.ely_domain.specs.Costs.{RoseBy, proof_cost, check_cost};
ghost use Rattle.ely_domain.specs.Identities.{Known};
ghost use Rattle.ely_domain.specs.Jobs.{IsBrought, message_job, check_job, job_at};
ghost use Rattle.ely_domain.specs.declared.event.Event.{Event};
ghost use Rattle.ely_job.specs.Digests.{is_digest, digest_hash};
ghost use Rattle.ely_job.specs.Jobs.{is_scram, judged_by};
ghost use Rattle.ely_domain.specs.Steps.{is_evidence_of, use_refusal, shown_refusal, used, used_by, check1, check2};
ghost use Rattle.ely_domain.specs.Verdicts.{said_by, server_first, message_told, header_told, verdict_told, verdict};

use crate::naming::is_alg_of;
use ely_base::{Bytes, discard};
use ely_config::Config;
use ely_context::{Context, Naming};
use ely_cred::Ready;
use ely_digest::{NonceTable, SpendFault};
use ely_digest_msg::DigestReply;
use ely_hash::Steps;
use ely_job::{Done, Verdict, digest_judgement, password_verdict, scram_verdict};
use ely_login::{Claim, Evidence, Outcome, StateWord};
use ely_row::Mech;
use ely_scram_msg::ClientLast;
use ely_table::Tables;
use std::sync::ledger::Ledger;

/// Whether evidence is of that mechanism.
pub(crate) fn is_evidence_of(mech: Mech, evidence: &Evidence) -> bool
    ensures { result ≡ is_evidence_of mech evidence.now }
{
    match (mech, evidence) {
        (Mech::Plain, Evidence::Plain { .. }) => true,
        (Mech::ScramSha1 | Mech::ScramSha256, Evidence::Scram(_)) => true,
        (_, Evidence::Digest { reply, .. }) => is_alg_of(mech, reply.alg),
        _ => false,
    }
}

/// Why a use of a nonce isn't accepted.
fn use_refusal(fault: SpendFault) -> Outcome
    ensures { Some result ≡ use_refusal (Err fault) }
{
    match fault {
        SpendFault::Stale => Outcome::Stale,
        SpendFault::Replayed(last) => Outcome::Replayed(last),
    }
}

/// Uses the nonce that a header of Digest names with the header's count, or says why that isn't accepted. What another
/// mechanism shows uses none. It takes no memory.
fn use_nonce(nonces: &mut NonceTable, evidence: &Evidence) -> Option<Outcome>
    ensures refusal { result ≡ shown_refusal nonces.old evidence.now }
    ensures used { result ≡ None → nonces.new ≡ used nonces.old evidence.now }
    ensures err { IsSome result → nonces.new ≡ nonces.old }
{
    let Evidence::Digest { reply, .. } = evidence else {
        return None;
    };
    match nonces.spend(reply.nonce.bytes(), reply.nc) {
        Ok(()) => None,
        Err(fault) => Some(use_refusal(fault)),
    }
}

/// The state that a refusal tells beside what it hands back.
pub(crate) fn told_state<E: Drop>(refusal: (StateWord, E)) -> StateWord
    ensures { result ≡ refusal.0 }
{
    let (state, _) = refusal;
    state
}

/// Keeps what a named login shows, and uses the nonce that it names.
pub(crate) fn check1(nonces: &mut NonceTable, context: &mut Context, evidence: Evidence) -> Outcome
    ensures reply { IsReply
        (check1 nonces.old (seen_login context.old) evidence (seen_login context.old).stage)
        Outcome.State context.old result context.new }
    ensures used { (c : ℕ) (serial : Option ℕ)
        → nonces.new ≡ used_by nonces.old (Event.Check1 c serial evidence) result }
    ensures sound { (known : Known) → StaysSound known context.old context.new }
{
    let StateWord::Named = context.state() else {
        discard(evidence);
        return Outcome::State(context.state());
    };
    if !is_evidence_of(context.mech(), &evidence) {
        discard(evidence);
        return Outcome::Mechanism(context.mech());
    }
    if let Some(refusal) = use_nonce(nonces, &evidence) {
        discard(evidence);
        return refusal;
    }
    match context.check1(evidence) {
        Ok(()) => Outcome::Fine,
        Err(refusal) => Outcome::State(told_state(refusal)),
    }
}

/// The answer that a verdict is.
fn told(verdict: Verdict) -> Outcome
    ensures { result ≡ verdict_told verdict }
{
    match verdict {
        Verdict::Proved(verifier) => Outcome::Proved(verifier),
        Verdict::Binding => Outcome::Binding,
        Verdict::Nonce => Outcome::Nonce,
        Verdict::Proof => Outcome::Proof,
        Verdict::Password => Outcome::Password,
        Verdict::Realm => Outcome::Realm,
        Verdict::Uri => Outcome::Uri,
        Verdict::Response => Outcome::Response,
    }
}

/// The answer to SCRAM's last message.
fn judge_message<L: Ledger>(
    ready: &Ready,
    nonce: &Bytes,
    claim: &Claim,
    server_first: &Option<Bytes>,
    last: &ClientLast,
    steps: &mut Steps<L>,
) -> Outcome
    requires { IsTrue (is_scram ready.now.mech) }
    ensures value { result ≡ message_told (judged_by ready.now.mech ready.now.key)
        claim.now nonce.now server_first.now last.now }
    ensures cost { RoseBy steps.old steps.new 2 }
{
    match (claim, server_first) {
        (Claim::Scram(first), Some(text)) => told(scram_verdict::<L>(
            ready,
            first,
            nonce.bytes(),
            text.bytes(),
            last,
            steps,
        )),
        _ => Outcome::Proof,
    }
}

/// The answer to a header of Digest.
fn judge_header(
    ready: &Ready,
    digest_realm: &Bytes,
    reply: &DigestReply,
    method: &Bytes,
    target: &Bytes,
) -> Outcome
    requires { IsTrue (is_digest ready.now.mech) }
    ensures { result ≡ header_told (digest_hash ready.now.mech) ready.now.key
        reply.now method.now target.now digest_realm.now }
{
    let (method, target) = (method.bytes(), target.bytes());
    told(digest_judgement(ready, reply, method, target, digest_realm.bytes()))
}

/// The answer to what was shown, by the key and what was said before.
fn judge<L: Ledger>(
    naming: &Naming,
    digest_realm: &Bytes,
    nonce: &Bytes,
    claim: &Claim,
    evidence: &Evidence,
    steps: &mut Steps<L>,
) -> Outcome
    requires { is_evidence_of naming.now.ready.mech evidence.now ≡ true }
    ensures value { naming.now.server_first
        ≡ server_first (said_by digest_realm.now nonce.now claim.now) naming.now.ready
        → result ≡ verdict (said_by digest_realm.now nonce.now claim.now)
        (Some naming.now.ready) evidence.now }
    ensures cost { RoseBy steps.old steps.new (proof_cost (Some naming.now.ready) evidence.now) }
{
    let ready = &naming.ready;
    match evidence {
        Evidence::Plain { password } => {
            told(password_verdict::<L>(ready, password.bytes(), steps))
        }
        Evidence::Scram(last) => {
            judge_message(ready, nonce, claim, &naming.server_first, last, steps)
        }
        Evidence::Digest {
            reply,
            method,
            target,
        } => judge_header(ready, digest_realm, reply, method, target),
    }
}

/// The verdict that is brought, where it came of the judgement of this message.
fn brought_judgement(
    ready: &Ready,
    nonce: &Bytes,
    claim: &Claim,
    server_first: &Option<Bytes>,
    last: &ClientLast,
    done: Done,
) -> Option<Verdict>
    ensures brought { Some done.job
        ≡ message_job claim.now nonce.now ready.now server_first.now last.now → IsSome result }
    ensures value { IfSome result (λ found. verdict_told found
        ≡ message_told (judged_by ready.now.mech ready.now.key)
        claim.now nonce.now server_first.now last.now) }
{
    match (claim, server_first) {
        (Claim::Scram(first), Some(text)) => done.into_judgement(ready, first, nonce, text, last),
        _ => {
            discard(done);
            None
        }
    }
}

/// The verdict that is brought, where it came of the judgement that is due.
fn brought_verdict(
    naming: &Naming,
    digest_realm: &Bytes,
    nonce: &Bytes,
    claim: &Claim,
    evidence: &Evidence,
    done: Option<Done>,
) -> Option<Verdict>
    ensures brought { naming.now.server_first
        ≡ server_first (said_by digest_realm.now nonce.now claim.now) naming.now.ready
        → IsBrought done (check_job (said_by digest_realm.now nonce.now claim.now)
        naming.now.ready evidence.now) → IsSome result }
    ensures value { naming.now.server_first
        ≡ server_first (said_by digest_realm.now nonce.now claim.now) naming.now.ready
        → IfSome result (λ found. verdict_told found
        ≡ verdict (said_by digest_realm.now nonce.now claim.now)
        (Some naming.now.ready) evidence.now) }
{
    let done = done?;
    let ready = &naming.ready;
    match evidence {
        Evidence::Plain { password } => done.into_guess(ready, password),
        Evidence::Scram(last) => {
            brought_judgement(ready, nonce, claim, &naming.server_first, last, done)
        }
        Evidence::Digest {
            reply,
            method,
            target,
        } => done.into_digest(ready, reply, method, target, digest_realm),
    }
}

/// The answer to what was shown: that of the verdict that is brought, or else it is judged here.
fn judge_by<L: Ledger>(
    naming: &Naming,
    digest_realm: &Bytes,
    nonce: &Bytes,
    claim: &Claim,
    evidence: &Evidence,
    done: Option<Done>,
    steps: &mut Steps<L>,
) -> Outcome
    requires { is_evidence_of naming.now.ready.mech evidence.now ≡ true }
    ensures value { naming.now.server_first
        ≡ server_first (said_by digest_realm.now nonce.now claim.now) naming.now.ready
        → result ≡ verdict (said_by digest_realm.now nonce.now claim.now)
        (Some naming.now.ready) evidence.now }
    ensures cost { RoseBy steps.old steps.new (proof_cost (Some naming.now.ready) evidence.now) }
    ensures brought { naming.now.server_first
        ≡ server_first (said_by digest_realm.now nonce.now claim.now) naming.now.ready
        → IsBrought done (check_job (said_by digest_realm.now nonce.now claim.now)
        naming.now.ready evidence.now) → steps.new ≡ steps.old }
{
    match brought_verdict(naming, digest_realm, nonce, claim, evidence, done) {
        Some(verdict) => told(verdict),
        None => judge(naming, digest_realm, nonce, claim, evidence, steps),
    }
}

/// Judges what a login showed.
pub(crate) fn check2<L: Ledger>(
    config: &Config,
    tables: &Tables,
    context: &mut Context,
    done: Option<Done>,
    steps: &mut Steps<L>,
) -> Outcome
    requires { HoldsIts (read_of config.now tables.now)
        context.old.mech context.old.nonce context.old.stage }
    ensures reply { IsReply
        (check2 (read_of config.now tables.now) (seen_login context.old)
        (seen_login context.old).stage)
        (λ state. Outcome.Gone) context.old result context.new }
    ensures sound { StaysSound (read_of config.now tables.now) context.old context.new }
    ensures cost { RoseBy steps.old steps.new
        (check_cost (read_of config.now tables.now) (seen_login context.old)
        (seen_login context.old).stage) }
    ensures brought { IsBrought done (job_at (read_of config.now tables.now) (found_in context.old)
        (seen_login context.old) (seen_login context.old).stage) → steps.new ≡ steps.old }
{
    let Some((pin, naming, evidence)) = context.checking() else {
        discard(done);
        return Outcome::Gone;
    };
    let (realm, nonce) = (config.digest_realm(), context.nonce());
    let outcome = judge_by(naming, realm, nonce, &pin.claim, evidence, done, steps);
    match context.check2(outcome.is_accepted()) {
        Ok(()) => outcome,
        Err(_) => Outcome::Gone,
    }
}
