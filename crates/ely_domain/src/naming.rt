//! Naming a login in two steps: who it is, and with which key.

ghost use Rattle.std.specs.Prelude.{◌≡◌, ℕ, IfOk, IfSome, OnOk, OnErr, Ok, Option, Some, IsSome, length};
ghost use Rattle.ely_context.specs.declared.stage.Stage.TheVariants as stages;
ghost use Rattle.ely_cred.specs.Keys.{chosen, ready_of, ready_cost};
ghost use Rattle.ely_domain.specs.Caches.{AreCurrent, Keeps, found_in};
ghost use Rattle.ely_domain.specs.Contexts.{AreOf, Finds, HoldsIts, IsPin, IsReply, IsSoundAt, StaysSound, read_of, seen_login};
ghost use Rattle.ely_domain.specs.Costs.{RoseBy, naming_cost};
ghost use Rattle.ely_domain.specs.Given.{Given};
ghost use Rattle.ely_domain.specs.Identities.{ident};
ghost use Rattle.ely_domain.specs.KeptKeys.{is_hit};
ghost use Rattle.ely_domain.specs.declared.event.Event.{Event};
ghost use Rattle.ely_domain.specs.Jobs.{IsBrought, job_at};
ghost use Rattle.ely_job.specs.declared.job.Work.TheVariants as works;
ghost use Rattle.ely_domain.specs.Steps.{claimed_name, differs, is_other, is_alg_of, is_claim_of, serving, announced, name1, name2};
ghost use Rattle.ely_domain.specs.Verdicts.{exchange, server_first};
ghost use Rattle.ely_domain.specs.declared.prepared.Prepared.{Prepared};

use crate::caching::{look_up, settle};
use crate::checking::told_state;
use crate::planned::Planned;
use ely_aggregate::assemble;
use ely_base::{Bytes, Name, NoMemory, Refused, discard};
use ely_cache::Caches;
use ely_config::Config;
use ely_context::{Context, Pin};
use ely_cred::{Ready, ReadyKey, choose, derive};
use ely_digest_msg::DigestAlg;
use ely_hash::Steps;
use ely_job::Done;
use ely_login::{CacheWord, Claim, Outcome, StateWord};
use ely_pipeline::{Place, resolve};
use ely_row::{Mech, SharedRow};
use ely_scram_msg::write_server_first;
use ely_table::Tables;
use std::alloc::Global;
use std::sync::ledger::Ledger;

/// A place that can be named now, with its row.
#[derive(Drop)]
pub(crate) struct Found {
    pub(crate) place: Place,
    pub(crate) row: SharedRow,
}

/// The name that a claim is about.
fn claimed_name(claim: &Claim) -> &Name
    ensures { result.now ≡ claimed_name claim.now }
{
    match claim {
        Claim::Plain { name, .. } => name,
        Claim::Scram(first) => &first.name,
        Claim::Digest { name, .. } => name,
    }
}

/// Whether an authorization name, where there is one, is another than the name.
fn differs(authzid: &Option<Name>, name: &Name) -> bool
    ensures { result ≡ differs authzid.now name.now }
{
    match authzid {
        None => false,
        Some(other) => !other.is(name),
    }
}

/// Whether a claim asks to act as another than it names.
fn is_other(claim: &Claim) -> bool
    ensures { result ≡ is_other claim.now }
{
    match claim {
        Claim::Plain { authzid, name } => differs(authzid, name),
        Claim::Scram(first) => differs(&first.authzid, &first.name),
        Claim::Digest { .. } => false,
    }
}

/// Whether a hash function that a header names is that of the mechanism.
pub(crate) fn is_alg_of(mech: Mech, alg: DigestAlg) -> bool
    ensures { result ≡ is_alg_of mech alg }
{
    match (mech, alg) {
        (Mech::Digest, DigestAlg::Md5) => true,
        (Mech::DigestSha256, DigestAlg::Sha256) => true,
        _ => false,
    }
}

/// Whether a claim is of that mechanism.
fn is_claim_of(mech: Mech, claim: &Claim) -> bool
    ensures { result ≡ is_claim_of mech claim.now }
{
    match (mech, claim) {
        (Mech::Plain, Claim::Plain { .. }) => true,
        (Mech::ScramSha1 | Mech::ScramSha256, Claim::Scram(_)) => true,
        (_, Claim::Digest { alg, .. }) => is_alg_of(mech, *alg),
        _ => false,
    }
}

/// The identity of a place now.
#[tactic(auto, unfolding(crate::specs::Identities::identity_after))]
fn identity_now(
    alloc: Global,
    planned: &Planned,
    tables: &Tables,
    place: &Place,
) -> Result<Option<SharedRow>, NoMemory>
    requires { AreOf planned.now tables.now }
    ensures { IfOk result (λ row. row
        ≡ ident (read_of planned.now tables.now) (length tables.now.journal) place.now) }
{
    match planned.plan_of(&place.realm) {
        None => Ok(None),
        Some(plan) => assemble::<Tables>(alloc, plan, &place.name, tables),
    }
}

/// The identity of a place now, one of whose credentials serves the mechanism; or why there is none.
#[tactic(auto, unfolding(crate::specs::Steps::serving))]
fn serving_row(
    alloc: Global,
    planned: &Planned,
    tables: &Tables,
    mech: Mech,
    place: &Place,
) -> Result<Result<SharedRow, Outcome>, NoMemory>
    requires { AreOf planned.now tables.now }
    ensures { IfOk result (λ found. found
        ≡ serving (read_of planned.now tables.now) mech place.now) }
{
    let Some(row) = identity_now(alloc, planned, tables, place)? else {
        return Ok(Err(Outcome::Unknown));
    };
    if choose(row.row(), mech).is_none() {
        return Ok(Err(Outcome::NoCredential));
    }
    Ok(Ok(row))
}

/// The place that a claim names, with its row; or the first cause against naming it.
#[tactic(auto, unfolding(crate::specs::Steps::naming))]
pub(crate) fn found_place(
    alloc: Global,
    planned: &Planned,
    tables: &Tables,
    mech: Mech,
    claim: &Claim,
) -> Result<Result<Found, Outcome>, NoMemory>
    requires { AreOf planned.now tables.now }
    ensures { IfOk result (λ found. Finds (read_of planned.now tables.now) mech claim.now found) }
{
    if !is_claim_of(mech, claim) {
        return Ok(Err(Outcome::Mechanism(mech)));
    }
    if is_other(claim) {
        return Ok(Err(Outcome::Authzid));
    }
    let place = match resolve(alloc, planned.config().pipeline(), claimed_name(claim)) {
        Ok(place) => place,
        Err(Refused::NoMemory) => return Err(NoMemory),
        Err(Refused::Fault(fault)) => return Ok(Err(Outcome::Pipe(fault))),
    };
    match serving_row(alloc, planned, tables, mech, &place)? {
        Ok(row) => Ok(Ok(Found { place, row })),
        Err(refusal) => Ok(Err(refusal)),
    }
}

/// Pins what was found, with what the caches have of its key.
fn pin_found(
    alloc: Global,
    planned: &Planned,
    tables: &Tables,
    caches: &mut Caches,
    context: &mut Context,
    claim: Claim,
    found: Found,
) -> Result<(Outcome, CacheWord), NoMemory>
    requires fresh { context.old.stage ≡ stages.Fresh }
    requires found { Finds (read_of planned.now tables.now) context.old.mech claim (Ok found) }
    requires current { AreCurrent (read_of planned.now tables.now) caches.old }
    ensures reply { IfOk result (λ said. IsReply
        (name1 (read_of planned.now tables.now) (seen_login context.old) claim stages.Fresh)
        Outcome.State context.old said.0 context.new) }
    ensures keeps { (c : ℕ) → IfOk result (λ said. Keeps (read_of planned.now tables.now)
        (Event.Name1 c claim) said.0 said.1 caches.old caches.new context.old context.new) }
    ensures sound { StaysSound (read_of planned.now tables.now) context.old context.new }
    ensures current { AreCurrent (read_of planned.now tables.now) caches.new }
    ensures err { OnErr result ((context.new ≡ context.old) × (caches.new ≡ caches.old)) }
{
    let mech = context.mech();
    let (word, held) = look_up(alloc, caches, &found.place, mech)?;
    caches.use_key(&found.place.realm, &found.place.name, mech);
    let version = tables.version();
    let pin = Pin {
        version,
        place: found.place,
        row: found.row,
        claim,
        found: word,
        held,
    };
    match context.name1(pin) {
        Ok(()) => Ok((Outcome::Pinned(version), word)),
        Err(refusal) => Ok((Outcome::State(told_state(refusal)), CacheWord::None)),
    }
}

/// Names a fresh login, unless something stands against it.
pub(crate) fn name1(
    alloc: Global,
    planned: &Planned,
    tables: &Tables,
    caches: &mut Caches,
    context: &mut Context,
    claim: Claim,
) -> Result<(Outcome, CacheWord), NoMemory>
    requires tables { AreOf planned.now tables.now }
    requires current { AreCurrent (read_of planned.now tables.now) caches.old }
    ensures reply { IfOk result (λ said. IsReply
        (name1 (read_of planned.now tables.now) (seen_login context.old) claim
        (seen_login context.old).stage)
        Outcome.State context.old said.0 context.new) }
    ensures keeps { (c : ℕ) → IfOk result (λ said. Keeps (read_of planned.now tables.now)
        (Event.Name1 c claim) said.0 said.1 caches.old caches.new context.old context.new) }
    ensures sound { StaysSound (read_of planned.now tables.now) context.old context.new }
    ensures current { AreCurrent (read_of planned.now tables.now) caches.new }
    ensures err { OnErr result ((context.new ≡ context.old) × (caches.new ≡ caches.old)) }
{
    let StateWord::Fresh = context.state() else {
        return Ok((Outcome::State(context.state()), CacheWord::None));
    };
    match found_place(alloc, planned, tables, context.mech(), &claim)? {
        Err(refusal) => Ok((refusal, CacheWord::None)),
        Ok(found) => pin_found(alloc, planned, tables, caches, context, claim, found),
    }
}

/// The key of what was pinned.
fn ready_for<L: Ledger>(
    alloc: Global,
    config: &Config,
    pin: &Pin,
    mech: Mech,
    steps: &mut Steps<L>,
) -> Result<Ready, NoMemory>
    requires { IsSome (chosen mech pin.now.row) }
    ensures value { IfOk result (λ ready. Some ready
        ≡ ready_of config.now.params pin.now.place.realm pin.now.place.name mech pin.now.row) }
    ensures cost { RoseBy steps.old steps.new (ready_cost config.now.params mech pin.now.row) }
{
    let place = &pin.place;
    derive(
        alloc,
        &place.realm,
        &place.name,
        pin.row.row(),
        mech,
        config.params(),
        steps,
    )
}

/// The key that is brought, where it came of the derivation that is due.
fn brought_key(config: &Config, pin: &Pin, mech: Mech, done: Option<Done>) -> Option<Ready>
    ensures brought { IsBrought done
        (Some (works.Derive pin.now.place pin.now.row mech config.now.params)) → IsSome result }
    ensures value { IfSome result (λ ready. Some ready
        ≡ ready_of config.now.params pin.now.place.realm pin.now.place.name mech pin.now.row) }
{
    done?.into_key(&pin.place, &pin.row, mech, config.params())
}

/// The key of what was pinned: the one that was found, or one that is brought, or else it is derived here.
fn ready_by<L: Ledger>(
    alloc: Global,
    config: &Config,
    pin: &Pin,
    mech: Mech,
    done: Option<Done>,
    steps: &mut Steps<L>,
) -> Result<Ready, NoMemory>
    requires serves { IsSome (chosen mech pin.now.row) }
    requires held { IfSome pin.now.held (λ ready. Some ready
        ≡ ready_of config.now.params pin.now.place.realm pin.now.place.name mech pin.now.row) }
    ensures value { IfOk result (λ ready. Some ready
        ≡ ready_of config.now.params pin.now.place.realm pin.now.place.name mech pin.now.row) }
    ensures cost { RoseBy steps.old steps.new (ready_cost config.now.params mech pin.now.row) }
    ensures held { IsSome pin.now.held → steps.new ≡ steps.old }
    ensures brought { IsBrought done
        (Some (works.Derive pin.now.place pin.now.row mech config.now.params))
        → steps.new ≡ steps.old }
{
    if let Some(ready) = &pin.held {
        discard(done);
        return ready.copy(alloc);
    }
    match brought_key(config, pin, mech, done) {
        Some(ready) => Ok(ready),
        None => ready_for(alloc, config, pin, mech, steps),
    }
}

/// The server's first message for a key: that of SCRAM has the whole nonce, the salt and the turns (RFC 5802 section 5.1).
fn server_first(
    alloc: Global,
    nonce: &Bytes,
    claim: &Claim,
    ready: &Ready,
) -> Result<Option<Bytes>, NoMemory>
    ensures { IfOk result (λ text. (given : Given)
        → text ≡ server_first (exchange given nonce.now claim.now) ready.now) }
{
    match (claim, ready.key()) {
        (Claim::Scram(first), ReadyKey::Scram { salt, turns, .. }) => {
            let mut whole = first.nonce.bytes().to_vec(alloc)?;
            whole.extend_from_slice(nonce.bytes())?;
            Ok(Some(write_server_first(alloc, &whole, salt.bytes(), *turns)?))
        }
        _ => Ok(None),
    }
}

/// What a login is told by the server's first message, where there is one.
fn announced(alloc: Global, server_first: &Option<Bytes>) -> Result<Outcome, NoMemory>
    ensures { IfOk result (λ outcome. outcome ≡ announced server_first.now) }
{
    match server_first {
        None => Ok(Outcome::Named),
        Some(text) => Ok(Outcome::Challenge(text.copy(alloc)?)),
    }
}

/// Gives a loading login the key of what it pinned, and keeps it in the cache of its realm where the naming missed it, unless
/// an edit since touched what it rests on.
pub(crate) fn name2<L: Ledger>(
    alloc: Global,
    planned: &Planned,
    tables: &Tables,
    caches: &mut Caches,
    context: &mut Context,
    done: Option<Done>,
    steps: &mut Steps<L>,
) -> Result<(Outcome, CacheWord), NoMemory>
    requires holds { HoldsIts (read_of planned.now tables.now)
        context.old.mech context.old.nonce context.old.stage }
    requires current { AreCurrent (read_of planned.now tables.now) caches.old }
    ensures reply { IfOk result (λ said. IsReply
        (name2 (read_of planned.now tables.now) (seen_login context.old)
        (seen_login context.old).stage)
        (λ state. Outcome.Gone) context.old said.0 context.new) }
    ensures keeps { (c serial : ℕ) → IfOk result (λ said. Keeps (read_of planned.now tables.now)
        (Event.Name2 c serial done) said.0 said.1 caches.old caches.new context.old context.new) }
    ensures sound { StaysSound (read_of planned.now tables.now) context.old context.new }
    ensures current { AreCurrent (read_of planned.now tables.now) caches.new }
    ensures err { OnErr result ((context.new ≡ context.old) × (caches.new ≡ caches.old)) }
    ensures cost { RoseBy steps.old steps.new
        (naming_cost (read_of planned.now tables.now) (found_in context.old) (seen_login context.old)
        (seen_login context.old).stage) }
    ensures brought { IsBrought done (job_at (read_of planned.now tables.now)
        (found_in context.old) (seen_login context.old) (seen_login context.old).stage)
        → steps.new ≡ steps.old }
{
    let mech = context.mech();
    let Some(pin) = context.loading() else {
        discard(done);
        return Ok((Outcome::Gone, CacheWord::None));
    };
    let ready = ready_by(alloc, planned.config(), pin, mech, done, steps)?;
    let server_first = server_first(alloc, context.nonce(), &pin.claim, &ready)?;
    let outcome = announced(alloc, &server_first)?;
    let word = settle(alloc, planned, tables, caches, pin, mech, &ready)?;
    match context.name2(ready, server_first) {
        Ok(()) => Ok((outcome, word)),
        Err(_) => Ok((Outcome::Gone, CacheWord::None)),
    }
}
