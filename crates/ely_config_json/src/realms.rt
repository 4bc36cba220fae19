//! Realms of JSON values.

ghost use Rattle.std.specs.Prelude.{◌≡◌, IfOk, codes};
ghost use Rattle.serde_json.specs.View.{view};
ghost use Rattle.ely_config.specs.Configs.{main_realm};
ghost use Rattle.ely_config_json.specs.Names.{name_of};
ghost use Rattle.ely_config_json.specs.Parts.{by_word, given, object_of};
ghost use Rattle.ely_config_json.specs.Realms.{aggregate_in, caching_in, kind_in, properties_in, realm_in, realm_of, realms_in};

use crate::names::{flag, number_or, text};
use crate::parts::{Part, both, member, needed, optional, word};
use ely_base::{Items, Name, NoMemory};
use ely_config::{RealmConfig, RealmKind};
use serde_json::{Map, Value};
use std::alloc::Global;

/// The kind of a realm of two texts.
fn properties(alloc: Global, object: &Map<String, Value>) -> Result<Option<RealmKind>, NoMemory>
    ensures { IfOk result (λ made. made ≡ properties_in (object_of object.now)) }
{
    let users = text(alloc, object, "users")?;
    let groups = text(alloc, object, "groups")?;
    match both(flag(object, "plain-text"), both(users, groups)) {
        Some((plain, (users, groups))) => Ok(Some(RealmKind::Properties {
            plain,
            users,
            groups,
        })),
        None => Ok(None),
    }
}

/// The kind of a realm of others.
fn aggregate(alloc: Global, object: &Map<String, Value>) -> Result<Option<RealmKind>, NoMemory>
    ensures { IfOk result (λ made. made ≡ aggregate_in (object_of object.now)) }
{
    let authentication = needed(alloc, object, "authentication")?;
    let authorization = needed(alloc, object, "authorization")?;
    match both(authentication, authorization) {
        Some((authentication, authorization)) => Ok(Some(RealmKind::Aggregate {
            authentication,
            authorization,
        })),
        None => Ok(None),
    }
}

/// The kind of a caching realm.
fn caching(alloc: Global, object: &Map<String, Value>) -> Result<Option<RealmKind>, NoMemory>
    ensures { IfOk result (λ made. made ≡ caching_in (object_of object.now)) }
{
    let limit = number_or(object, "max-entries", 16);
    let of = needed(alloc, object, "of")?;
    match both(of, limit) {
        Some((of, limit)) => Ok(Some(RealmKind::Caching { of, limit })),
        None => Ok(None),
    }
}

/// The kind of an object.
fn kind_in(alloc: Global, object: &Map<String, Value>) -> Result<Option<RealmKind>, NoMemory>
    ensures { IfOk result (λ made. made
        ≡ by_word kind_in (codes "kind") (object_of object.now)) }
{
    let Some(word) = word(object, "kind") else {
        return Ok(None);
    };
    if word == "modifiable" {
        Ok(Some(RealmKind::Modifiable))
    } else if word == "properties" {
        properties(alloc, object)
    } else if word == "aggregate" {
        aggregate(alloc, object)
    } else if word == "caching" {
        caching(alloc, object)
    } else {
        Ok(None)
    }
}

/// The attribute whose values are the roles: `groups` where no other is said.
fn role_attribute(alloc: Global, object: &Map<String, Value>) -> Result<Option<Name>, NoMemory>
    ensures { IfOk result (λ made. made
        ≡ given name_of (codes "groups") (codes "role-attribute") (object_of object.now)) }
{
    match member(object, "role-attribute") {
        Some(value) => Name::read_value(alloc, value),
        None => Ok(Some(Name::of(Vec::from_slice(alloc, b"groups")?))),
    }
}

/// The realm of an object.
fn realm_in(alloc: Global, object: &Map<String, Value>) -> Result<Option<RealmConfig>, NoMemory>
    ensures { IfOk result (λ made. made ≡ realm_in (object_of object.now)) }
{
    let name = needed(alloc, object, "name")?;
    let role_attribute = role_attribute(alloc, object)?;
    let kind = kind_in(alloc, object)?;
    let role_mapper = optional(alloc, object, "role-mapper")?;
    match both(both(name, role_attribute), both(kind, role_mapper)) {
        Some(((name, role_attribute), (kind, role_mapper))) => Ok(Some(RealmConfig {
            name,
            kind,
            role_attribute,
            role_mapper,
        })),
        None => Ok(None),
    }
}

impl Part for RealmConfig {
    ghost of = { realm_of };

    fn read_value(alloc: Global, value: &Value) -> Result<Option<RealmConfig>, NoMemory> {
        match value.as_object() {
            Some(object) => realm_in(alloc, object),
            None => Ok(None),
        }
    }
}

/// The realm `main`: its identities are changed one by one, and their roles are the values of `groups`.
fn main_realm(alloc: Global) -> Result<RealmConfig, NoMemory>
    ensures { IfOk result (λ realm. realm ≡ main_realm) }
{
    Ok(RealmConfig {
        name: Name::of(Vec::from_slice(alloc, b"main")?),
        role_attribute: Name::of(Vec::from_slice(alloc, b"groups")?),
        kind: RealmKind::Modifiable,
        role_mapper: None,
    })
}

/// The realms of a configuration: the realm `main` where they aren't said.
pub(crate) fn realms_in(
    alloc: Global,
    object: &Map<String, Value>,
) -> Result<Option<Items<RealmConfig>>, NoMemory>
    ensures { IfOk result (λ made. made ≡ realms_in (object_of object.now)) }
{
    if let Some(value) = member(object, "realms") {
        return Items::read_value(alloc, value);
    }
    let mut realms = Vec::new(alloc);
    realms.push(main_realm(alloc)?)?;
    Ok(Some(Items::of(realms)))
}
