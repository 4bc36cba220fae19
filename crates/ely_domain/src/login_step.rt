//! One step of a login: it is found once under its id, and moves in its place.

ghost use Rattle.std.specs.Prelude.{◌≡◌, ℕ, ◌==◌, false, true, IfOk, OnErr, IsOk, Some};
ghost use Rattle.ely_context.specs.Logins.{login_of};
ghost use Rattle.ely_domain.specs.Caches.{AreCurrent, Keeps, found_in, founds_of, kept_in, without_word};
ghost use Rattle.ely_domain.specs.Contexts.{Answers, AreOf, IsReply, IsSound, IsSoundAt, read_of, seen_live, seen_login};
ghost use Rattle.ely_domain.specs.Costs.{RoseBy, cost_for, login_cost, reply_cost};
ghost use Rattle.ely_domain.specs.Domains.{IsLoginStep, IsQuietStep, TakesNoMemory};
ghost use Rattle.ely_domain.specs.Jobs.{BringsTo, Brings};
ghost use Rattle.ely_domain.specs.Keeping.{word_on, kept_on};
ghost use Rattle.ely_domain.specs.KeptKeys.{stands_for};
ghost use Rattle.ely_domain.specs.Machine.{answered};
ghost use Rattle.ely_domain.specs.Steps.{reply, used_by, not_due};

use crate::checking::{check1, check2};
use crate::event::Event;
use crate::granting::{allows, authorize, fail, succeed};
use crate::handouts::Handouts;
use crate::naming::{name1, name2};
use crate::planned::Planned;
use ely_base::{CtxId, NoMemory, discard};
use ely_cache::Caches;
use ely_config::Config;
use ely_context::{Context, Logins};
use ely_digest::NonceTable;
use ely_hash::Steps;
use ely_login::{CacheWord, Outcome};
use ely_table::Tables;
use std::alloc::Global;
use std::sync::ledger::Ledger;

/// A step of a login that is no naming: it looks at no cache.
fn quiet_step<L: Ledger>(
    alloc: Global,
    config: &Config,
    tables: &Tables,
    nonces: &mut NonceTable,
    context: &mut Context,
    handouts: &mut Handouts,
    id: CtxId,
    event: Event,
    steps: &mut Steps<L>,
) -> Result<Outcome, NoMemory>
    requires due { IsQuietStep event }
    requires sound { IsSoundAt (read_of config.now tables.now)
        (login_of handouts.old id) context.old }
    ensures reply { IfOk result (λ outcome. IsReply
        (reply (read_of config.now tables.now) nonces.old (seen_login context.old) event)
        (not_due event) context.old outcome context.new) }
    ensures used { IfOk result (λ outcome. nonces.new ≡ used_by nonces.old event outcome) }
    ensures sound { IsSoundAt (read_of config.now tables.now)
        (login_of handouts.new id) context.new }
    ensures others { (c : ℕ) → (c == id) ≡ false
        → login_of handouts.new c ≡ login_of handouts.old c }
    ensures err { OnErr result
        ((nonces.new ≡ nonces.old) × (context.new ≡ context.old) × (handouts.new ≡ handouts.old)) }
    ensures takes_no_memory { TakesNoMemory event → IsOk result }
    ensures cost { RoseBy steps.old steps.new
        (reply_cost (read_of config.now tables.now) (found_in context.old) (seen_login context.old) event) }
    ensures brought { BringsTo (read_of config.now tables.now) (found_in context.old) (seen_login context.old) event
        → steps.new ≡ steps.old }
{
    match event {
        Event::Check1 { evidence, .. } => Ok(check1(nonces, context, evidence)),
        Event::Check2 { done, .. } => Ok(check2(config, tables, context, done, steps)),
        Event::Authorize { .. } => authorize(alloc, config, tables, context, handouts, id),
        Event::Allows { wanted, .. } => allows(alloc, config, tables, context, &wanted),
        Event::Succeed { .. } => Ok(succeed(config, tables, context, handouts, id)),
        Event::Fail { .. } => Ok(fail(config, tables, context, handouts, id)),
        _ => unreachable!(),
    }
}

/// An answer that no word of keeping stands behind.
fn no_word(answer: Result<Outcome, NoMemory>) -> Result<(Outcome, CacheWord), NoMemory>
    ensures { result ≡ without_word answer }
{
    match answer {
        Ok(outcome) => Ok((outcome, CacheWord::None)),
        Err(NoMemory) => Err(NoMemory),
    }
}

/// The step of a login that was found and has the serial that is carried.
fn move_login<L: Ledger>(
    alloc: Global,
    planned: &Planned,
    tables: &Tables,
    caches: &mut Caches,
    nonces: &mut NonceTable,
    context: &mut Context,
    handouts: &mut Handouts,
    id: CtxId,
    event: Event,
    steps: &mut Steps<L>,
) -> Result<(Outcome, CacheWord), NoMemory>
    requires due { IsLoginStep event }
    requires tables { AreOf planned.now tables.now }
    requires current { AreCurrent (read_of planned.now tables.now) caches.old }
    requires sound { IsSoundAt (read_of planned.now tables.now)
        (login_of handouts.old id) context.old }
    ensures reply { IfOk result (λ said. IsReply
        (reply (read_of planned.now tables.now) nonces.old (seen_login context.old) event)
        (not_due event) context.old said.0 context.new) }
    ensures used { IfOk result (λ said. nonces.new ≡ used_by nonces.old event said.0) }
    ensures keeps { IfOk result (λ said. Keeps (read_of planned.now tables.now)
        event said.0 said.1 caches.old caches.new context.old context.new) }
    ensures current { AreCurrent (read_of planned.now tables.now) caches.new }
    ensures sound { IsSoundAt (read_of planned.now tables.now)
        (login_of handouts.new id) context.new }
    ensures others { (c : ℕ) → (c == id) ≡ false
        → login_of handouts.new c ≡ login_of handouts.old c }
    ensures err { OnErr result
        ((nonces.new ≡ nonces.old) × (context.new ≡ context.old) × (handouts.new ≡ handouts.old)
        × (caches.new ≡ caches.old)) }
    ensures takes_no_memory { TakesNoMemory event → IsOk result }
    ensures cost { RoseBy steps.old steps.new
        (reply_cost (read_of planned.now tables.now) (found_in context.old) (seen_login context.old) event) }
    ensures brought { BringsTo (read_of planned.now tables.now) (found_in context.old) (seen_login context.old) event
        → steps.new ≡ steps.old }
{
    match event {
        Event::Name1 { claim, .. } => name1(alloc, planned, tables, caches, context, claim),
        Event::Name2 { done, .. } => name2(alloc, planned, tables, caches, context, done, steps),
        _ => {
            let config = planned.config();
            no_word(quiet_step(
                alloc, config, tables, nonces, context, handouts, id, event, steps,
            ))
        }
    }
}

/// The step of a login that was found.
fn answer_found<L: Ledger>(
    alloc: Global,
    planned: &Planned,
    tables: &Tables,
    caches: &mut Caches,
    nonces: &mut NonceTable,
    context: &mut Context,
    handouts: &mut Handouts,
    id: CtxId,
    event: Event,
    steps: &mut Steps<L>,
) -> Result<(Outcome, CacheWord), NoMemory>
    requires due { IsLoginStep event }
    requires tables { AreOf planned.now tables.now }
    requires current { AreCurrent (read_of planned.now tables.now) caches.old }
    requires sound { IsSoundAt (read_of planned.now tables.now)
        (login_of handouts.old id) context.old }
    ensures answer { IfOk result (λ said.
        Answers (read_of planned.now tables.now) nonces.old event context.old said.0 context.new) }
    ensures used { IfOk result (λ said. nonces.new ≡ used_by nonces.old event said.0) }
    ensures keeps { IfOk result (λ said. Keeps (read_of planned.now tables.now)
        event said.0 said.1 caches.old caches.new context.old context.new) }
    ensures current { AreCurrent (read_of planned.now tables.now) caches.new }
    ensures sound { IsSoundAt (read_of planned.now tables.now)
        (login_of handouts.new id) context.new }
    ensures others { (c : ℕ) → (c == id) ≡ false
        → login_of handouts.new c ≡ login_of handouts.old c }
    ensures err { OnErr result
        ((nonces.new ≡ nonces.old) × (context.new ≡ context.old) × (handouts.new ≡ handouts.old)
        × (caches.new ≡ caches.old)) }
    ensures takes_no_memory { TakesNoMemory event → IsOk result }
    ensures cost { RoseBy steps.old steps.new
        (cost_for (read_of planned.now tables.now) (found_in context.old) event (Some (seen_login context.old))) }
    ensures brought { BringsTo (read_of planned.now tables.now) (found_in context.old) (seen_login context.old) event
        → steps.new ≡ steps.old }
{
    if !event.is_carried(context.serial()) {
        discard(event);
        return no_word(Ok(Outcome::Gone));
    }
    move_login(
        alloc, planned, tables, caches, nonces, context, handouts, id, event, steps,
    )
}

/// The step of the login with this id.
#[tactic(auto, unfolding(crate::specs::Machine::answered))]
pub(crate) fn login_step<L: Ledger>(
    alloc: Global,
    planned: &Planned,
    tables: &Tables,
    caches: &mut Caches,
    logins: &mut Logins,
    nonces: &mut NonceTable,
    handouts: &mut Handouts,
    id: CtxId,
    event: Event,
    steps: &mut Steps<L>,
) -> Result<(Outcome, CacheWord), NoMemory>
    requires due { IsLoginStep event }
    requires tables { AreOf planned.now tables.now }
    requires current { AreCurrent (read_of planned.now tables.now) caches.old }
    requires sound { IsSound (read_of planned.now tables.now) logins.old handouts.old }
    ensures answer { IfOk result (λ said.
        answered (read_of planned.now tables.now) (seen_live logins.old nonces.old) event id
        ≡ record { outcome = said.0; live = seen_live logins.new nonces.new }) }
    ensures word { IfOk result (λ said. stands_for said.1 ≡ word_on (read_of planned.now tables.now)
        (seen_live logins.old nonces.old) (kept_in caches.old logins.old) id event said.0) }
    ensures kept { IfOk result (λ said. kept_in caches.new logins.new ≡ kept_on (read_of planned.now tables.now)
        (seen_live logins.old nonces.old) (kept_in caches.old logins.old) id event said.0 said.1) }
    ensures current { AreCurrent (read_of planned.now tables.now) caches.new }
    ensures sound { IsSound (read_of planned.now tables.now) logins.new handouts.new }
    ensures err { OnErr result
        ((logins.new ≡ logins.old) × (nonces.new ≡ nonces.old) × (handouts.new ≡ handouts.old)
        × (caches.new ≡ caches.old)) }
    ensures takes_no_memory { TakesNoMemory event → IsOk result }
    ensures cost { RoseBy steps.old steps.new
        (login_cost (read_of planned.now tables.now) (founds_of logins.old)
        (seen_live logins.old nonces.old) event id) }
    ensures brought { Brings (read_of planned.now tables.now) (founds_of logins.old)
        (seen_live logins.old nonces.old) id event
        → steps.new ≡ steps.old }
{
    match logins.find_mut(id) {
        None => {
            let outcome = event.not_there();
            discard(event);
            no_word(Ok(outcome))
        }
        Some(context) => {
            answer_found(
                alloc, planned, tables, caches, nonces, context, handouts, id, event, steps,
            )
        }
    }
}
