//! The parts of a line: its steps in order, and the event of each once it is known which serial the line carries.

ghost use Rattle.std.specs.Prelude.{◌≡◌, ◌≤◌, slice_get, IfOk, Some, None};
ghost use Rattle.std.specs.Option.{option_map};
ghost use Rattle.ely_history.specs.Parts.{parts_by, parts_of, actor_of, event_of};
ghost use Rattle.ely_history.specs.PartViews.{seen_part};

use ely_base::{Bytes, CtxId, Name, NoMemory, Serial};
use ely_digest_msg::DigestReply;
use ely_domain::Event;
use ely_login::{BadLine, Claim, Evidence};
use ely_plain::PlainMsg;
use ely_row::{Edit, Mech};
use ely_scram_msg::{ClientFirst, ClientLast};
use ely_script::{Command, LineError, Verb};
use std::alloc::Global;

/// A step of a line, which lends what the line says for it.
#[derive(Clone, Copy)]
pub enum Part<'a> {
    Bad(BadLine),
    Change(&'a Edit),
    Begin(CtxId, Mech, &'a Option<Bytes>),
    /// Name1 and check1 of a PLAIN message.
    PlainName(CtxId, &'a PlainMsg),
    /// Name1 of a first message of SCRAM.
    ScramName(CtxId, &'a ClientFirst),
    /// Name1 of a header of Digest.
    DigestName(CtxId, &'a DigestReply),
    Name2(CtxId),
    PlainCheck(CtxId, &'a PlainMsg),
    /// Check1 of a last message of SCRAM.
    ScramCheck(CtxId, &'a ClientLast),
    /// Check1 of a header of Digest, with the method and the target of the request that has it.
    DigestCheck(CtxId, &'a DigestReply, &'a Bytes, &'a Bytes),
    Check2(CtxId),
    Authorize(CtxId),
    Allows(CtxId, &'a Bytes),
    Succeed(CtxId),
    Fail(CtxId),
    Close(CtxId),
}

/// The first part of a verb, which for most is the only one.
fn first_part(verb: &Verb) -> Option<Part<'_>>
    ensures { option_map seen_part result ≡ slice_get (parts_by verb.now) 0 }
{
    match verb {
        Verb::Change { edit } => Some(Part::Change(edit)),
        Verb::Begin { ctx, mech, nonce } => Some(Part::Begin(*ctx, *mech, nonce)),
        Verb::Plain { ctx, message } => Some(Part::PlainName(*ctx, message)),
        Verb::First { ctx, message } => Some(Part::ScramName(*ctx, message)),
        Verb::Last { ctx, message } => Some(Part::ScramCheck(*ctx, message)),
        Verb::Digest { ctx, reply, .. } => Some(Part::DigestName(*ctx, reply)),
        Verb::Authorize { ctx } => Some(Part::Authorize(*ctx)),
        Verb::Succeed { ctx } => Some(Part::Succeed(*ctx)),
        Verb::Fail { ctx } => Some(Part::Fail(*ctx)),
        Verb::Close { ctx } => Some(Part::Close(*ctx)),
        Verb::Allows { ctx, wanted } => Some(Part::Allows(*ctx, wanted)),
    }
}

/// The second part of a verb that has one.
fn second_part(verb: &Verb) -> Option<Part<'_>>
    ensures { option_map seen_part result ≡ slice_get (parts_by verb.now) 1 }
{
    match verb {
        Verb::Plain { ctx, .. } => Some(Part::Name2(*ctx)),
        Verb::First { ctx, .. } => Some(Part::Name2(*ctx)),
        Verb::Last { ctx, .. } => Some(Part::Check2(*ctx)),
        Verb::Digest { ctx, .. } => Some(Part::Name2(*ctx)),
        _ => None,
    }
}

/// A later part of a verb, counted from 0.
fn later_part(verb: &Verb, k: usize) -> Option<Part<'_>>
    requires { 2 ≤ k }
    ensures { option_map seen_part result ≡ slice_get (parts_by verb.now) k }
{
    match (verb, k) {
        (Verb::Plain { ctx, message }, 2) => Some(Part::PlainCheck(*ctx, message)),
        (Verb::Plain { ctx, .. }, 3) => Some(Part::Check2(*ctx)),
        (
            Verb::Digest {
                ctx,
                method,
                target,
                reply,
            },
            2,
        ) => Some(Part::DigestCheck(*ctx, reply, method, target)),
        (Verb::Digest { ctx, .. }, 3) => Some(Part::Check2(*ctx)),
        _ => None,
    }
}

/// A part of a verb, counted from 0.
fn verb_part(verb: &Verb, k: usize) -> Option<Part<'_>>
    ensures { option_map seen_part result ≡ slice_get (parts_by verb.now) k }
{
    match k {
        0 => first_part(verb),
        1 => second_part(verb),
        _ => later_part(verb, k),
    }
}

/// A part of a line, counted from 0. It takes no memory.
pub fn part_at(line: &Result<Command, LineError>, k: usize) -> Option<Part<'_>>
    ensures { option_map seen_part result ≡ slice_get (parts_of line.now) k }
{
    match line {
        Ok(command) => verb_part(&command.verb, k),
        Err(LineError::Bad { bad, .. }) => { if k == 0 { Some(Part::Bad(*bad)) } else { None } }
    }
}

/// The actor of a line.
pub fn actor_of(line: &Result<Command, LineError>) -> u32
    ensures { result ≡ actor_of line.now }
{
    match line {
        Ok(command) => command.actor,
        Err(LineError::Bad { actor, .. }) => *actor,
    }
}

/// Who a PLAIN message says that it is from.
fn plain_claim(alloc: Global, message: &PlainMsg) -> Result<Claim, NoMemory>
    ensures { IfOk result (λ claim. claim ≡ Claim.Plain message.now.authzid message.now.name) }
{
    Ok(Claim::Plain {
        authzid: Name::copy_option(alloc, &message.authzid)?,
        name: message.name.copy(alloc)?,
    })
}

/// What a PLAIN message shows.
fn plain_evidence(alloc: Global, message: &PlainMsg) -> Result<Evidence, NoMemory>
    ensures { IfOk result (λ evidence. evidence ≡ Evidence.Plain message.now.password) }
{
    Ok(Evidence::Plain {
        password: message.password.copy(alloc)?,
    })
}

/// Who a header of Digest says that it is from.
fn digest_claim(alloc: Global, reply: &DigestReply) -> Result<Claim, NoMemory>
    ensures { IfOk result (λ claim. claim ≡ Claim.Digest reply.now.alg reply.now.name) }
{
    Ok(Claim::Digest {
        alg: reply.alg,
        name: reply.name.copy(alloc)?,
    })
}

/// What a header of Digest shows, for a request of this method and target.
fn digest_evidence(
    alloc: Global,
    reply: &DigestReply,
    method: &Bytes,
    target: &Bytes,
) -> Result<Evidence, NoMemory>
    ensures { IfOk result (λ evidence. evidence
        ≡ Evidence.Digest reply.now method.now target.now) }
{
    Ok(Evidence::Digest {
        reply: reply.copy(alloc)?,
        method: method.copy(alloc)?,
        target: target.copy(alloc)?,
    })
}

/// The first half of a naming.
fn name1(ctx: CtxId, claim: Claim) -> Option<Event>
    ensures { result ≡ Some (Event.Name1 ctx claim) }
{
    Some(Event::Name1 { ctx, claim })
}

/// The second half of a naming, where the line carries a serial.
fn name2(ctx: CtxId, carried: Option<Serial>) -> Option<Event>
    ensures { result ≡ option_map (λ serial. Event.Name2 ctx serial None) carried }
{
    let serial = carried?;
    let done = None;
    Some(Event::Name2 { ctx, serial, done })
}

/// The first half of a check.
fn check1(ctx: CtxId, serial: Option<Serial>, evidence: Evidence) -> Option<Event>
    ensures { result ≡ Some (Event.Check1 ctx serial evidence) }
{
    Some(Event::Check1 {
        ctx,
        serial,
        evidence,
    })
}

/// The second half of a check, where the line carries a serial.
fn check2(ctx: CtxId, carried: Option<Serial>) -> Option<Event>
    ensures { result ≡ option_map (λ serial. Event.Check2 ctx serial None) carried }
{
    let serial = carried?;
    let done = None;
    Some(Event::Check2 { ctx, serial, done })
}

/// An open, with the nonce that the line brings.
fn begin(alloc: Global, ctx: CtxId, mech: Mech, brought: &Option<Bytes>) -> Result<Event, NoMemory>
    ensures { IfOk result (λ event. event ≡ Event.Begin ctx mech brought.now) }
{
    let nonce = Bytes::copy_option(alloc, brought)?;
    Ok(Event::Begin { ctx, mech, nonce })
}

/// The event of a part of a line that carries this serial; none for a second half where it carries none.
pub fn event_of(
    alloc: Global,
    part: Part<'_>,
    carried: Option<Serial>,
) -> Result<Option<Event>, NoMemory>
    ensures { IfOk result (λ event. event ≡ event_of (seen_part part.entry) carried) }
{
    let event = match part {
        Part::Bad(bad) => Some(Event::Bad { bad }),
        Part::Change(edit) => {
            let edit = edit.copy(alloc)?;
            Some(Event::Change { edit })
        }
        Part::Begin(ctx, mech, nonce) => Some(begin(alloc, ctx, mech, nonce)?),
        Part::PlainName(ctx, message) => name1(ctx, plain_claim(alloc, message)?),
        Part::ScramName(ctx, message) => name1(ctx, Claim::Scram(message.copy(alloc)?)),
        Part::DigestName(ctx, reply) => name1(ctx, digest_claim(alloc, reply)?),
        Part::Name2(ctx) => name2(ctx, carried),
        Part::PlainCheck(ctx, message) => check1(ctx, carried, plain_evidence(alloc, message)?),
        Part::ScramCheck(ctx, message) => {
            check1(ctx, carried, Evidence::Scram(message.copy(alloc)?))
        }
        Part::DigestCheck(ctx, reply, method, target) => {
            let evidence = digest_evidence(alloc, reply, method, target)?;
            check1(ctx, carried, evidence)
        }
        Part::Check2(ctx) => check2(ctx, carried),
        Part::Authorize(ctx) => Some(Event::Authorize { ctx }),
        Part::Allows(ctx, wanted) => {
            let wanted = wanted.copy(alloc)?;
            Some(Event::Allows { ctx, wanted })
        }
        Part::Succeed(ctx) => Some(Event::Succeed { ctx }),
        Part::Fail(ctx) => Some(Event::Fail { ctx }),
        Part::Close(ctx) => Some(Event::Close { ctx }),
    };
    Ok(event)
}
