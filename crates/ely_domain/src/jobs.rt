//! The jobs of logins: what can be done off the domain.

ghost use Rattle.std.specs.Prelude.{◌≡◌, true, false, Some, length, option_map, is_some, IfOk, IfSome, IfNone, IsOk, IsSome, IsTrue};
ghost use Rattle.ely_cred.specs.Keys.{chosen};
ghost use Rattle.ely_domain.specs.Caches.{AreCurrent, found_in, founds_of, lists_of};
ghost use Rattle.ely_domain.specs.Contexts.{AreOf, HoldsIts, HoldTheirs, read_of, seen_live, seen_login};
ghost use Rattle.ely_domain.specs.Domains.{TakesNoMemory};
ghost use Rattle.ely_digest.specs.Nonces.{Nonces};
ghost use Rattle.ely_domain.specs.Handing.{name1_job, check1_job, job_by, job_ahead};
ghost use Rattle.ely_domain.specs.Identities.{Known, key_at};
ghost use Rattle.ely_domain.specs.KeptKeys.{is_hit, list_of, word_in};
ghost use Rattle.ely_domain.specs.Jobs.{message_job, check_job, job_at, job_of};
ghost use Rattle.ely_domain.specs.Steps.{is_evidence_of, shown_refusal};
ghost use Rattle.ely_domain.specs.Verdicts.{said_by, server_first};
ghost use Rattle.ely_job.specs.Digests.{is_digest};
ghost use Rattle.ely_job.specs.Jobs.{is_scram};
ghost use Rattle.ely_job.specs.declared.job.Work.TheVariants as works;

use crate::caching::look_up;
use crate::checking::is_evidence_of;
use crate::event::Event;
use crate::naming::{Found, found_place};
use crate::planned::Planned;
use ely_base::{Bytes, CtxId, NoMemory, Serial};
use ely_cache::Caches;
use ely_config::Config;
use ely_context::{Context, Logins, Naming, Pin};
use ely_cred::Ready;
use ely_digest::NonceTable;
use ely_digest_msg::DigestReply;
use ely_job::Job;
use ely_login::{Claim, Evidence, StateWord};
use ely_row::Mech;
use ely_scram_msg::{ClientFirst, ClientLast};
use ely_table::Tables;
use std::alloc::Global;

/// The job of a loading login: the key of what it pinned.
fn derive_job(alloc: Global, config: &Config, pin: &Pin, mech: Mech) -> Result<Job, NoMemory>
    requires { IsSome (chosen mech pin.now.row) }
    ensures { IfOk result (λ job. job
        ≡ works.Derive pin.now.place pin.now.row mech config.now.params) }
{
    let place = pin.place.copy(alloc)?;
    let row = pin.row.share()?;
    let params = config.params().copy(alloc)?;
    Ok(Job::derive(place, row, mech, params))
}

/// The job of a loading login: the key that was found, or else the derivation of what it pinned.
fn key_job(alloc: Global, config: &Config, pin: &Pin, mech: Mech) -> Result<Job, NoMemory>
    requires { IsSome (chosen mech pin.now.row) }
    ensures held { IfSome pin.now.held (λ ready. IfOk result (λ job. job ≡ works.Held ready)) }
    ensures derived { IfNone pin.now.held (IfOk result (λ job. job
        ≡ works.Derive pin.now.place pin.now.row mech config.now.params)) }
{
    match &pin.held {
        Some(ready) => Ok(Job::held(ready.copy(alloc)?)),
        None => derive_job(alloc, config, pin, mech),
    }
}

/// The judgement of a password.
fn guess_job(alloc: Global, ready: &Ready, password: &Bytes) -> Result<Job, NoMemory>
    requires { ready.now.mech ≡ Mech.Plain }
    ensures { IfOk result (λ job. job ≡ works.Guess ready.now password.now) }
{
    let ready = ready.copy(alloc)?;
    let password = password.copy(alloc)?;
    Ok(Job::guess(ready, password))
}

/// The judgement of a login's last message of SCRAM.
fn scram_job(
    alloc: Global,
    ready: &Ready,
    first: &ClientFirst,
    nonce: &Bytes,
    server_first: &Bytes,
    last: &ClientLast,
) -> Result<Job, NoMemory>
    requires { IsTrue (is_scram ready.now.mech) }
    ensures { IfOk result (λ job. job
        ≡ works.Scram ready.now first.now nonce.now server_first.now last.now) }
{
    let ready = ready.copy(alloc)?;
    let first = first.copy(alloc)?;
    let nonce = nonce.copy(alloc)?;
    let server_first = server_first.copy(alloc)?;
    let last = last.copy(alloc)?;
    Ok(Job::scram(ready, first, nonce, server_first, last))
}

/// The judgement of SCRAM's last message, where its claim and the server's first message are SCRAM's.
fn message_job(
    alloc: Global,
    ready: &Ready,
    nonce: &Bytes,
    claim: &Claim,
    server_first: &Option<Bytes>,
    last: &ClientLast,
) -> Result<Option<Job>, NoMemory>
    requires { IsTrue (is_scram ready.now.mech) }
    ensures { IfOk result (λ job. job
        ≡ message_job claim.now nonce.now ready.now server_first.now last.now) }
{
    match (claim, server_first) {
        (Claim::Scram(first), Some(text)) => {
            let job = scram_job(alloc, ready, first, nonce, text, last)?;
            Ok(Some(job))
        }
        _ => Ok(None),
    }
}

/// The judgement of a header of Digest.
fn header_job(
    alloc: Global,
    ready: &Ready,
    digest_realm: &Bytes,
    reply: &DigestReply,
    method: &Bytes,
    target: &Bytes,
) -> Result<Job, NoMemory>
    requires { IsTrue (is_digest ready.now.mech) }
    ensures { IfOk result (λ job. job
        ≡ works.Digest ready.now reply.now method.now target.now digest_realm.now) }
{
    let ready = ready.copy(alloc)?;
    let reply = reply.copy(alloc)?;
    let method = method.copy(alloc)?;
    let target = target.copy(alloc)?;
    let digest_realm = digest_realm.copy(alloc)?;
    Ok(Job::digest(ready, reply, method, target, digest_realm))
}

/// The job of a checked login: the verdict on what it showed.
fn check_job(
    alloc: Global,
    naming: &Naming,
    digest_realm: &Bytes,
    nonce: &Bytes,
    claim: &Claim,
    evidence: &Evidence,
) -> Result<Option<Job>, NoMemory>
    requires { is_evidence_of naming.now.ready.mech evidence.now ≡ true }
    ensures { naming.now.server_first
        ≡ server_first (said_by digest_realm.now nonce.now claim.now) naming.now.ready
        → IfOk result (λ job. job ≡ check_job (said_by digest_realm.now nonce.now claim.now)
        naming.now.ready evidence.now) }
{
    let ready = &naming.ready;
    match evidence {
        Evidence::Plain { password } => Ok(Some(guess_job(alloc, ready, password)?)),
        Evidence::Scram(last) => {
            message_job(alloc, ready, nonce, claim, &naming.server_first, last)
        }
        Evidence::Digest {
            reply,
            method,
            target,
        } => {
            let job = header_job(alloc, ready, digest_realm, reply, method, target)?;
            Ok(Some(job))
        }
    }
}

/// The job of a login, where it is loading or checked.
fn job_at(
    alloc: Global,
    config: &Config,
    tables: &Tables,
    context: &Context,
) -> Result<Option<Job>, NoMemory>
    requires { HoldsIts (read_of config.now tables.now)
        context.now.mech context.now.nonce context.now.stage }
    ensures { IfOk result (λ job. job ≡ job_at (read_of config.now tables.now)
        (found_in context.now) (seen_login context.now) (seen_login context.now).stage) }
{
    if let Some(pin) = context.loading() {
        let job = key_job(alloc, config, pin, context.mech())?;
        return Ok(Some(job));
    }
    match context.checking() {
        None => Ok(None),
        Some((pin, naming, evidence)) => {
            let (realm, nonce) = (config.digest_realm(), context.nonce());
            check_job(alloc, naming, realm, nonce, &pin.claim, evidence)
        }
    }
}

/// The job of the login with this id and this serial, where it is loading or checked.
pub(crate) fn job_of(
    alloc: Global,
    config: &Config,
    tables: &Tables,
    logins: &Logins,
    id: CtxId,
    serial: Serial,
) -> Result<Option<Job>, NoMemory>
    requires { HoldTheirs (read_of config.now tables.now) logins.now }
    ensures { (nonces : Nonces) → IfOk result (λ job. job
        ≡ job_of (read_of config.now tables.now) (founds_of logins.now) (seen_live logins.now nonces) id serial) }
{
    match logins.find(id) {
        None => Ok(None),
        Some(context) => {
            if context.serial() == serial {
                job_at(alloc, config, tables, context)
            } else {
                Ok(None)
            }
        }
    }
}

/// The job of a login that pins what was found: the key that the caches have, or else its derivation.
fn found_job(
    alloc: Global,
    config: &Config,
    caches: &Caches,
    found: Found,
    mech: Mech,
) -> Result<Job, NoMemory>
    requires { IsSome (chosen mech found.row) }
    ensures hit { is_hit (word_in (list_of (lists_of caches.now) found.place.realm) (record { name = found.place.name; mech = mech })) ≡ true
        → (known : Known) → AreCurrent known caches.now
        → IfOk result (λ job. Some job ≡ option_map works.Held (key_at known mech (length known.edits) found.place)) }
    ensures derived { is_hit (word_in (list_of (lists_of caches.now) found.place.realm) (record { name = found.place.name; mech = mech })) ≡ false
        → IfOk result (λ job. job ≡ works.Derive found.place found.row mech config.now.params) }
{
    let params = config.params().copy(alloc)?;
    let (_, held) = look_up(alloc, caches, &found.place, mech)?;
    match held {
        Some(ready) => Ok(Job::held(ready)),
        None => Ok(Job::derive(found.place, found.row, mech, params)),
    }
}

/// The job of a fresh login behind its naming, if that is accepted.
fn name1_job(
    alloc: Global,
    planned: &Planned,
    tables: &Tables,
    caches: &Caches,
    context: &Context,
    claim: &Claim,
) -> Result<Option<Job>, NoMemory>
    requires tables { AreOf planned.now tables.now }
    requires current { AreCurrent (read_of planned.now tables.now) caches.now }
    ensures { IfOk result (λ job. job ≡ name1_job (read_of planned.now tables.now) (lists_of caches.now)
        (seen_login context.now) claim.now (seen_login context.now).stage) }
{
    let StateWord::Fresh = context.state() else {
        return Ok(None);
    };
    match found_place(alloc, planned, tables, context.mech(), claim)? {
        Ok(found) => {
            let job = found_job(alloc, planned.config(), caches, found, context.mech())?;
            Ok(Some(job))
        }
        Err(_) => Ok(None),
    }
}

/// Whether the nonce that a header of Digest names can't be used with the header's count.
fn is_refused(nonces: &NonceTable, evidence: &Evidence) -> bool
    ensures { result ≡ is_some (shown_refusal nonces.now evidence.now) }
{
    let Evidence::Digest { reply, .. } = evidence else {
        return false;
    };
    match nonces.holds(reply.nonce.bytes()) {
        None => true,
        Some(last) => reply.nc <= last,
    }
}

/// The job of a named login behind what it shows, if that is accepted.
fn check1_job(
    alloc: Global,
    config: &Config,
    tables: &Tables,
    nonces: &NonceTable,
    context: &Context,
    evidence: &Evidence,
) -> Result<Option<Job>, NoMemory>
    requires { HoldsIts (read_of config.now tables.now)
        context.now.mech context.now.nonce context.now.stage }
    ensures { IfOk result (λ job. job ≡ check1_job (read_of config.now tables.now) nonces.now
        (seen_login context.now) evidence.now (seen_login context.now).stage) }
{
    let Some((pin, naming)) = context.named() else {
        return Ok(None);
    };
    if !is_evidence_of(context.mech(), evidence) || is_refused(nonces, evidence) {
        return Ok(None);
    }
    let (realm, nonce) = (config.digest_realm(), context.nonce());
    check_job(alloc, naming, realm, nonce, &pin.claim, evidence)
}

/// The job of a login behind a step of it, if that is accepted.
fn job_by(
    alloc: Global,
    planned: &Planned,
    tables: &Tables,
    caches: &Caches,
    nonces: &NonceTable,
    context: &Context,
    event: &Event,
) -> Result<Option<Job>, NoMemory>
    requires tables { AreOf planned.now tables.now }
    requires current { AreCurrent (read_of planned.now tables.now) caches.now }
    requires holds { HoldsIts (read_of planned.now tables.now)
        context.now.mech context.now.nonce context.now.stage }
    ensures { IfOk result (λ job. job ≡ job_by (read_of planned.now tables.now) (lists_of caches.now)
        nonces.now event.now (seen_login context.now)) }
{
    match event {
        Event::Name1 { claim, .. } => name1_job(alloc, planned, tables, caches, context, claim),
        Event::Check1 { evidence, .. } => {
            if event.is_carried(context.serial()) {
                check1_job(alloc, planned.config(), tables, nonces, context, evidence)
            } else {
                Ok(None)
            }
        }
        _ => Ok(None),
    }
}

/// The job that a step will hand out.
pub(crate) fn job_ahead(
    alloc: Global,
    planned: &Planned,
    tables: &Tables,
    caches: &Caches,
    logins: &Logins,
    nonces: &NonceTable,
    event: &Event,
) -> Result<Option<Job>, NoMemory>
    requires tables { AreOf planned.now tables.now }
    requires current { AreCurrent (read_of planned.now tables.now) caches.now }
    requires hold { HoldTheirs (read_of planned.now tables.now) logins.now }
    ensures job { IfOk result (λ job. job ≡ job_ahead (read_of planned.now tables.now)
        (lists_of caches.now) (seen_live logins.now nonces.now) event.now) }
    ensures takes_no_memory { TakesNoMemory event.now → IsOk result }
{
    let Some(id) = event.carrier() else {
        return Ok(None);
    };
    match logins.find(id) {
        None => Ok(None),
        Some(context) => job_by(alloc, planned, tables, caches, nonces, context, event),
    }
}
