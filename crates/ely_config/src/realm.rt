//! The realms of a configuration.

ghost use Rattle.std.specs.Prelude.{◌≡◌, IfOk};
ghost use Rattle.std.specs.Option.{option_copied};
ghost use Rattle.ely_config.specs.declared.realm.RealmKind.TheVariants.{Properties, Aggregate, Caching};
ghost use Rattle.ely_config.specs.Configs.{main_realm};

use ely_base::{Bytes, Items, Name, NoMemory, copy_names};
use ely_roles::RoleMapper;
use std::alloc::Global;

/// Where the identities of a realm come from.
#[derive(Debug, Drop)]
pub enum RealmKind {
    /// They are changed one by one.
    Modifiable,
    /// They are read from two texts: users with a credential each, which is a password where `plain` is set and else a hash, and
    /// the groups of users.
    Properties {
        plain: bool,
        users: Bytes,
        groups: Bytes,
    },
    /// They have the credentials of one realm and the attributes of others, of which the first that has an attribute gives it.
    Aggregate {
        authentication: Name,
        authorization: Items<Name>,
    },
    /// They are those of another realm, and the keys that were derived for them are kept, as many as the limit says.
    Caching {
        of: Name,
        limit: u32,
    },
}

/// An equal kind of a realm of two texts.
fn copy_properties(
    alloc: Global,
    plain: bool,
    users: &Bytes,
    groups: &Bytes,
) -> Result<RealmKind, NoMemory>
    ensures { IfOk result (λ copy. copy ≡ Properties plain users.now groups.now) }
{
    Ok(RealmKind::Properties {
        plain,
        users: users.copy(alloc)?,
        groups: groups.copy(alloc)?,
    })
}

/// An equal kind of a realm of others.
fn copy_aggregate(
    alloc: Global,
    authentication: &Name,
    authorization: &[Name],
) -> Result<RealmKind, NoMemory>
    ensures { IfOk result (λ copy. copy ≡ Aggregate authentication.now authorization.now) }
{
    Ok(RealmKind::Aggregate {
        authentication: authentication.copy(alloc)?,
        authorization: Items::of(copy_names(alloc, authorization)?),
    })
}

/// An equal kind of a caching realm.
fn copy_caching(alloc: Global, of: &Name, limit: u32) -> Result<RealmKind, NoMemory>
    ensures { IfOk result (λ copy. copy ≡ Caching of.now limit) }
{
    Ok(RealmKind::Caching {
        of: of.copy(alloc)?,
        limit,
    })
}

impl RealmKind {
    /// An equal kind.
    pub fn copy(&self, alloc: Global) -> Result<RealmKind, NoMemory>
        ensures { IfOk result (λ copy. copy ≡ self.now) }
    {
        match self {
            RealmKind::Modifiable => Ok(RealmKind::Modifiable),
            RealmKind::Properties {
                plain,
                users,
                groups,
            } => copy_properties(alloc, *plain, users, groups),
            RealmKind::Aggregate {
                authentication,
                authorization,
            } => copy_aggregate(alloc, authentication, authorization.all()),
            RealmKind::Caching { of, limit } => copy_caching(alloc, of, *limit),
        }
    }
}

/// A realm: its name, where its identities come from, and what their roles are.
#[derive(Debug, Drop)]
pub struct RealmConfig {
    pub name: Name,
    pub kind: RealmKind,
    /// The attribute whose values are the roles of an identity.
    pub role_attribute: Name,
    /// What makes other roles of these, before the mapper of the domain.
    pub role_mapper: Option<RoleMapper>,
}

/// An equal role mapper, where there is one.
pub(crate) fn copy_mapper(
    alloc: Global,
    mapper: Option<&RoleMapper>,
) -> Result<Option<RoleMapper>, NoMemory>
    ensures { IfOk result (λ copy. copy ≡ option_copied mapper.entry) }
{
    match mapper {
        None => Ok(None),
        Some(mapper) => Ok(Some(mapper.copy(alloc)?)),
    }
}

impl RealmConfig {
    /// The realm `main`: its identities are changed one by one, and their roles are the values of `groups`.
    pub(crate) fn main(alloc: Global) -> Result<RealmConfig, NoMemory>
        ensures { IfOk result (λ realm. realm ≡ main_realm) }
    {
        Ok(RealmConfig {
            name: Name::of(Vec::from_slice(alloc, b"main")?),
            role_attribute: Name::of(Vec::from_slice(alloc, b"groups")?),
            kind: RealmKind::Modifiable,
            role_mapper: None,
        })
    }

    /// An equal realm.
    pub fn copy(&self, alloc: Global) -> Result<RealmConfig, NoMemory>
        ensures { IfOk result (λ copy. copy ≡ self.now) }
    {
        Ok(RealmConfig {
            name: self.name.copy(alloc)?,
            role_attribute: self.role_attribute.copy(alloc)?,
            kind: self.kind.copy(alloc)?,
            role_mapper: copy_mapper(alloc, self.role_mapper.as_ref())?,
        })
    }
}
