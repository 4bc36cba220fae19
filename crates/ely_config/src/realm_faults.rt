//! Why a realm isn't taken, realm by realm.

ghost use Rattle.std.specs.Prelude.{◌≡◌, [], IfOk, IsTrue};
ghost use Rattle.std.specs.Option.{option_copied};
ghost use Rattle.ely_row.specs.Salts.{is_realm};
ghost use Rattle.ely_config.specs.Realms.{texts_fault, kind_fault, mapper_fits, realm_fault, realms_fault};

use crate::fault::{ConfigFault, RealmFault};
use crate::realm::{RealmConfig, RealmKind};
use crate::references::{aggregate_fault, caching_fault, is_named};
use ely_base::{Bytes, Name, NoMemory, Refused};
use ely_propfile::{read_groups, read_users};
use ely_roles::RoleMapper;
use std::alloc::Global;

/// Why the texts of a realm aren't taken.
fn texts_fault(
    alloc: Global,
    digest_realm: &Bytes,
    plain: bool,
    users: &Bytes,
    groups: &Bytes,
) -> Result<Option<RealmFault>, NoMemory>
    requires { IsTrue (is_realm digest_realm.now) }
    ensures { IfOk result (λ fault. fault ≡ texts_fault digest_realm.now plain users.now groups.now) }
{
    match read_users(alloc, users.bytes(), digest_realm.bytes(), plain) {
        Ok(_) => {}
        Err(Refused::NoMemory) => return Err(NoMemory),
        Err(Refused::Fault(fault)) => return Ok(Some(RealmFault::Users(fault))),
    }
    match read_groups(alloc, groups.bytes()) {
        Ok(_) => Ok(None),
        Err(Refused::NoMemory) => Err(NoMemory),
        Err(Refused::Fault(fault)) => Ok(Some(RealmFault::Groups(fault))),
    }
}

/// Why a realm of this kind isn't taken among all these.
fn kind_fault(
    alloc: Global,
    digest_realm: &Bytes,
    all: &[RealmConfig],
    kind: &RealmKind,
) -> Result<Option<RealmFault>, NoMemory>
    requires { IsTrue (is_realm digest_realm.now) }
    ensures { IfOk result (λ fault. fault ≡ kind_fault digest_realm.now all.now kind.now) }
{
    match kind {
        RealmKind::Modifiable => Ok(None),
        RealmKind::Properties {
            plain,
            users,
            groups,
        } => texts_fault(alloc, digest_realm, *plain, users, groups),
        RealmKind::Aggregate {
            authentication,
            authorization,
        } => Ok(aggregate_fault(all, authentication, authorization.all())),
        RealmKind::Caching { of, limit } => Ok(caching_fault(all, of, *limit)),
    }
}

/// Whether the role mapper is within its bounds, where there is one.
pub(crate) fn mapper_fits(mapper: Option<&RoleMapper>) -> bool
    ensures { result ≡ mapper_fits (option_copied mapper.entry) }
{
    match mapper {
        None => true,
        Some(mapper) => mapper.fits(),
    }
}

/// Why a realm isn't taken among all these and behind those before it.
fn realm_fault(
    alloc: Global,
    digest_realm: &Bytes,
    all: &[RealmConfig],
    before: &[RealmConfig],
    realm: &RealmConfig,
) -> Result<Option<RealmFault>, NoMemory>
    requires { IsTrue (is_realm digest_realm.now) }
    ensures { IfOk result (λ fault. fault ≡ realm_fault digest_realm.now all.now before.now realm.now) }
{
    if is_named(before, &realm.name) {
        return Ok(Some(RealmFault::Twice));
    }
    if !mapper_fits(realm.role_mapper.as_ref()) {
        return Ok(Some(RealmFault::RoleMapper));
    }
    kind_fault(alloc, digest_realm, all, &realm.kind)
}

/// Why one of the realms isn't taken, the first of them.
pub(crate) fn realms_fault(
    alloc: Global,
    digest_realm: &Bytes,
    realms: &[RealmConfig],
) -> Result<Option<ConfigFault>, NoMemory>
    requires { IsTrue (is_realm digest_realm.now) }
    ensures { IfOk result (λ fault. fault ≡ realms_fault digest_realm.now realms.now [] realms.now) }
{
    let mut at = 0;
    while let Some(realm) = realms.get(at) {
        if let Some(fault) = realm_fault(alloc, digest_realm, realms, &realms[..at], realm)? {
            return Ok(Some(ConfigFault::Realm { at, fault }));
        }
        at += 1;
    }
    Ok(None)
}
