//! What a checked login is granted: to log in, its permissions, and its identity.

ghost use Rattle.std.specs.Prelude.{◌≡◌, ℕ, ◌==◌, false, IfOk, OnErr, Some};
ghost use Rattle.ely_row.specs.declared.mech.Mech.{Mech};
ghost use Rattle.ely_context.specs.Logins.{login_of};
ghost use Rattle.ely_domain.specs.Contexts.{Asks, HoldsIts, IsPin, IsReply, IsSoundAt, pinned, prepared_for, read_of, seen_login};
ghost use Rattle.ely_domain.specs.Identities.{roles, roles_in};
ghost use Rattle.ely_domain.specs.Steps.{authorize, allows, yes_or_no, succeed, fail};

use crate::handouts::Handouts;
use crate::prepared::Prepared;
use ely_base::{Bytes, CtxId, Name, NoMemory};
use ely_config::Config;
use ely_context::{Context, Pin};
use ely_login::Outcome;
use ely_perm::granted;
use ely_roles::roles_of;
use ely_row::{Roles, Row};
use ely_table::Tables;
use std::alloc::Global;

/// The roles of an identity of that realm.
#[tactic(auto, unfolding(crate::specs::Identities::roles_in))]
fn roles_in(alloc: Global, config: &Config, realm: &Name, row: &Row) -> Result<Roles, NoMemory>
    ensures { IfOk result (λ found. found ≡ roles_in config.now realm.now (Some row.now)) }
{
    match config.realm_named(realm) {
        None => Ok(Roles::of(Vec::new(alloc))),
        Some(realm) => roles_of(
            alloc,
            &realm.role_attribute,
            realm.role_mapper.as_ref(),
            config.role_mapper(),
            row,
        ),
    }
}

/// The roles of what was pinned, as of the pinned version.
fn roles_at(alloc: Global, config: &Config, tables: &Tables, pin: &Pin) -> Result<Roles, NoMemory>
    ensures { IfOk result (λ found. (mech : Mech)
        → IsPin (read_of config.now tables.now) mech pin.now
        → found ≡ roles (read_of config.now tables.now) pin.now.version pin.now.place) }
{
    roles_in(alloc, config, &pin.place.realm, pin.row.row())
}

/// What succeed hands out for a pin.
fn prepared_for(
    alloc: Global,
    config: &Config,
    tables: &Tables,
    pin: &Pin,
) -> Result<Prepared, NoMemory>
    ensures { IfOk result (λ found. (mech : Mech)
        → IsPin (read_of config.now tables.now) mech pin.now
        → found ≡ prepared_for (read_of config.now tables.now) (pinned pin.now)) }
{
    Ok(Prepared {
        version: pin.version,
        place: pin.place.copy(alloc)?,
        roles: roles_at(alloc, config, tables, pin)?,
    })
}

/// What a proved login would hand out, where the pinned version grants it to log in; or how it is refused.
fn asked(
    alloc: Global,
    config: &Config,
    tables: &Tables,
    context: &Context,
) -> Result<Result<Prepared, Outcome>, NoMemory>
    requires { HoldsIts (read_of config.now tables.now)
        context.now.mech context.now.nonce context.now.stage }
    ensures { IfOk result (λ found.
        Asks (read_of config.now tables.now) context.now.stage found) }
{
    let Some(pin) = context.proved() else {
        return Ok(Err(Outcome::State(context.state())));
    };
    let prepared = prepared_for(alloc, config, tables, pin)?;
    if !granted(
        config.permissions(),
        &prepared.place.name,
        &prepared.roles,
        b"login",
    ) {
        return Ok(Err(Outcome::Denied(pin.version)));
    }
    Ok(Ok(prepared))
}

/// Authorizes a proved login, where the pinned version grants it to log in.
pub(crate) fn authorize(
    alloc: Global,
    config: &Config,
    tables: &Tables,
    context: &mut Context,
    handouts: &mut Handouts,
    id: CtxId,
) -> Result<Outcome, NoMemory>
    requires { IsSoundAt (read_of config.now tables.now) (login_of handouts.old id) context.old }
    ensures reply { IfOk result (λ outcome. IsReply
        (authorize (read_of config.now tables.now) (seen_login context.old).stage)
        Outcome.State context.old outcome context.new) }
    ensures sound { IsSoundAt (read_of config.now tables.now)
        (login_of handouts.new id) context.new }
    ensures others { (c : ℕ) → (c == id) ≡ false
        → login_of handouts.new c ≡ login_of handouts.old c }
    ensures err { OnErr result ((context.new ≡ context.old) × (handouts.new ≡ handouts.old)) }
{
    match asked(alloc, config, tables, context)? {
        Err(refusal) => Ok(refusal),
        Ok(prepared) => {
            handouts.keep(id, prepared)?;
            match context.authorize(true) {
                Ok(_) => Ok(Outcome::Authorized),
                Err(state) => Ok(Outcome::State(state)),
            }
        }
    }
}

/// What is told of a permission.
fn yes_or_no(granted: bool) -> Outcome
    ensures { result ≡ yes_or_no granted }
{
    if granted { Outcome::Yes } else { Outcome::No }
}

/// Answers whether a complete login has the permission, as of the pinned version.
pub(crate) fn allows(
    alloc: Global,
    config: &Config,
    tables: &Tables,
    context: &Context,
    wanted: &Bytes,
) -> Result<Outcome, NoMemory>
    requires { HoldsIts (read_of config.now tables.now)
        context.now.mech context.now.nonce context.now.stage }
    ensures { IfOk result (λ outcome. IsReply
        (allows (read_of config.now tables.now) wanted.now (seen_login context.now).stage)
        Outcome.State context.now outcome context.now) }
{
    let Some(pin) = context.complete() else {
        return Ok(Outcome::State(context.state()));
    };
    let roles = roles_at(alloc, config, tables, pin)?;
    Ok(yes_or_no(granted(
        config.permissions(),
        &pin.place.name,
        &roles,
        wanted.bytes(),
    )))
}

/// Completes an authorized login, and hands out its identity. It takes no memory.
pub(crate) fn succeed(
    config: &Config,
    tables: &Tables,
    context: &mut Context,
    handouts: &mut Handouts,
    id: CtxId,
) -> Outcome
    requires { IsSoundAt (read_of config.now tables.now) (login_of handouts.old id) context.old }
    ensures reply { IsReply (succeed (read_of config.now tables.now) (seen_login context.old).stage)
        Outcome.State context.old result context.new }
    ensures sound { IsSoundAt (read_of config.now tables.now)
        (login_of handouts.new id) context.new }
    ensures others { (c : ℕ) → (c == id) ≡ false
        → login_of handouts.new c ≡ login_of handouts.old c }
{
    match context.succeed() {
        Err(state) => Outcome::State(state),
        Ok(()) => {
            let Some(prepared) = handouts.take(id) else {
                unreachable!()
            };
            Outcome::Established {
                version: prepared.version,
                place: prepared.place,
                roles: prepared.roles,
            }
        }
    }
}

/// Ends a login that is neither complete nor failed.
pub(crate) fn fail(
    config: &Config,
    tables: &Tables,
    context: &mut Context,
    handouts: &mut Handouts,
    id: CtxId,
) -> Outcome
    requires { IsSoundAt (read_of config.now tables.now) (login_of handouts.old id) context.old }
    ensures reply { IsReply (fail (seen_login context.old).stage)
        Outcome.State context.old result context.new }
    ensures sound { IsSoundAt (read_of config.now tables.now)
        (login_of handouts.new id) context.new }
    ensures others { (c : ℕ) → (c == id) ≡ false
        → login_of handouts.new c ≡ login_of handouts.old c }
{
    match context.fail() {
        Err(state) => Outcome::State(state),
        Ok(()) => {
            let _ = handouts.take(id);
            Outcome::Fine
        }
    }
}
