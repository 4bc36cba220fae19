//! Which realm a name belongs to, and the rule of that realm.

ghost use Rattle.std.specs.Prelude.{◌≡◌, IfOk};
ghost use Rattle.std.specs.Option.{option_copied};
ghost use Rattle.ely_base.specs.Refused.{Gives};
ghost use Rattle.ely_pipeline.specs.Realms.{realm_named, rule_of, mapped_realm, taken_realm, realm_by};

use crate::applying::target_of;
use crate::cut::part_after;
use crate::mapper::RealmMapper;
use crate::pipeline::Pipeline;
use crate::place::PipeFault;
use crate::rule::Rule;
use ely_base::{Bytes, Name, NoMemory, Refused};
use std::alloc::Global;

/// The first realm of that name, with its rule.
fn realm_named<'a>(
    realms: &'a [(Name, Option<Rule>)],
    name: &[u8],
) -> Option<&'a (Name, Option<Rule>)>
    ensures { option_copied result ≡ realm_named realms.now name.now }
{
    for realm in realms {
        if name == realm.0.bytes() {
            return Some(realm);
        }
    }
    None
}

/// The rule of the realm of that name, where it has one.
pub(crate) fn rule_of<'a>(realms: &'a [(Name, Option<Rule>)], name: &Name) -> Option<&'a Rule>
    ensures { option_copied result ≡ rule_of realms.now name.now }
{
    let realm = realm_named(realms, name.bytes())?;
    realm.1.as_ref()
}

/// The realm of the first pair with the part, and the default realm where there is no part or no pair.
fn mapped_realm(
    alloc: Global,
    pairs: &[(Name, Name)],
    default: &Name,
    part: Option<&[u8]>,
) -> Result<Name, NoMemory>
    ensures { IfOk result (λ realm. realm ≡ mapped_realm pairs.now default.now (option_copied part.entry)) }
{
    let Some(part) = part else {
        return default.copy(alloc);
    };
    match target_of(pairs, part) {
        Some(realm) => realm.copy(alloc),
        None => default.copy(alloc),
    }
}

/// The realm whose name is the part, and the default realm where there is no part.
fn taken_realm(
    alloc: Global,
    realms: &[(Name, Option<Rule>)],
    default: &Name,
    part: Option<&[u8]>,
) -> Result<Name, Refused<PipeFault>>
    ensures { Gives result (taken_realm realms.now default.now (option_copied part.entry)) }
{
    let Some(part) = part else {
        return Ok(default.copy(alloc)?);
    };
    match realm_named(realms, part) {
        Some(realm) => Ok(realm.0.copy(alloc)?),
        None => Err(Refused::Fault(PipeFault::NoRealm(Bytes::copy_of(alloc, part)?))),
    }
}

/// The realm that the mapper of the pipeline gives of the name, or that no realm has the name that it gives.
pub(crate) fn realm_of(
    alloc: Global,
    pipe: &Pipeline,
    name: &Name,
) -> Result<Name, Refused<PipeFault>>
    ensures { Gives result (realm_by pipe.now.realms pipe.now.default_realm pipe.now.mapper name.now) }
{
    let default = &pipe.default_realm;
    match &pipe.mapper {
        None => Ok(default.copy(alloc)?),
        Some(RealmMapper::Constant { realm }) => Ok(realm.copy(alloc)?),
        Some(RealmMapper::MapAfter { mark, pairs }) => {
            let part = part_after(name.bytes(), mark.bytes());
            Ok(mapped_realm(alloc, pairs.all(), default, part)?)
        }
        Some(RealmMapper::TakeAfter { mark }) => {
            let part = part_after(name.bytes(), mark.bytes());
            taken_realm(alloc, pipe.realms.all(), default, part)
        }
    }
}
