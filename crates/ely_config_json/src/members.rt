//! The members of a configuration that a JSON value stands for.

ghost use Rattle.std.specs.Prelude.{◌≡◌, IfOk, codes};
ghost use Rattle.serde_json.specs.View.{view};
ghost use Rattle.ely_perm.specs.Grants.{login_for_all};
ghost use Rattle.ely_config_json.specs.Members.{members_in, members_of, places_in, rights_in, keys_in};
ghost use Rattle.ely_config_json.specs.Names.{text_of};
ghost use Rattle.ely_config_json.specs.Parts.{given, object_of};
ghost use Rattle.ely_config_json.specs.Permissions.{permissions_of};

use crate::params::params_in;
use crate::parts::{Part, both, member, optional};
use crate::pipelines::pipeline_in;
use crate::realms::realms_in;
use ely_base::{Bytes, Items, NoMemory};
use ely_config::{Members, RealmConfig};
use ely_perm::Permissions;
use ely_pipeline::Pipeline;
use ely_roles::RoleMapper;
use ely_row::Params;
use serde_json::{Map, Value};
use std::alloc::Global;

/// The realm that Digest announces: `ManagementRealm` where no other is said.
fn digest_realm(alloc: Global, object: &Map<String, Value>) -> Result<Option<Bytes>, NoMemory>
    ensures { IfOk result (λ made. made
        ≡ given text_of (codes "ManagementRealm") (codes "digest-realm")
        (object_of object.now)) }
{
    match member(object, "digest-realm") {
        Some(value) => Bytes::read_value(alloc, value),
        None => Ok(Some(Bytes::copy_of(alloc, b"ManagementRealm")?)),
    }
}

/// What is granted: `login` to everybody where nothing else is said.
fn permissions(alloc: Global, object: &Map<String, Value>) -> Result<Option<Permissions>, NoMemory>
    ensures { IfOk result (λ made. made
        ≡ given permissions_of login_for_all (codes "permissions")
        (object_of object.now)) }
{
    match member(object, "permissions") {
        Some(value) => Permissions::read_value(alloc, value),
        None => Ok(Some(Permissions::login_for_all(alloc)?)),
    }
}

/// The realm of Digest, and what derives keys.
fn keys_in(alloc: Global, object: &Map<String, Value>) -> Result<Option<(Bytes, Params)>, NoMemory>
    ensures { IfOk result (λ made. made ≡ keys_in (object_of object.now)) }
{
    let digest_realm = digest_realm(alloc, object)?;
    let params = params_in(alloc, object)?;
    Ok(both(digest_realm, params))
}

/// The way of names, and the realms.
fn places_in(
    alloc: Global,
    object: &Map<String, Value>,
) -> Result<Option<(Pipeline, Items<RealmConfig>)>, NoMemory>
    ensures { IfOk result (λ made. made ≡ places_in (object_of object.now)) }
{
    let pipeline = pipeline_in(alloc, object)?;
    let realms = realms_in(alloc, object)?;
    Ok(both(pipeline, realms))
}

/// The mapper of roles, and the permissions.
fn rights_in(
    alloc: Global,
    object: &Map<String, Value>,
) -> Result<Option<(Option<RoleMapper>, Permissions)>, NoMemory>
    ensures { IfOk result (λ made. made ≡ rights_in (object_of object.now)) }
{
    let role_mapper = optional(alloc, object, "role-mapper")?;
    let permissions = permissions(alloc, object)?;
    Ok(both(role_mapper, permissions))
}

/// The members of an object.
fn members_in(alloc: Global, object: &Map<String, Value>) -> Result<Option<Members>, NoMemory>
    ensures { IfOk result (λ made. made ≡ members_in (object_of object.now)) }
{
    let keys = keys_in(alloc, object)?;
    let rights = rights_in(alloc, object)?;
    let places = places_in(alloc, object)?;
    match both(keys, both(places, rights)) {
        Some(((digest_realm, params), ((pipeline, realms), (role_mapper, permissions)))) => {
            Ok(Some(Members {
                digest_realm,
                params,
                pipeline,
                realms,
                role_mapper,
                permissions,
            }))
        }
        None => Ok(None),
    }
}

/// The members of a configuration that a JSON value stands for, each with its default where it isn't said. There are none where
/// the value is no object, or where a part of it doesn't have its form: a part that is needed isn't there, a name is no name, a
/// word isn't among those that are allowed, a pair doesn't have two items, a number isn't whole, a rule or a role mapper nests
/// more than 8 deep, or what derives keys is out of its bounds. Members of other names and the lengths of lists aren't looked
/// at.
pub fn read_members(alloc: Global, value: &Value) -> Result<Option<Members>, NoMemory>
    ensures { IfOk result (λ made. made ≡ members_of (view value.now)) }
{
    match value.as_object() {
        Some(object) => members_in(alloc, object),
        None => Ok(None),
    }
}
