//! The members of a configuration, before anything is asked of them.

ghost use Rattle.std.specs.Prelude.{◌≡◌, IfOk};
ghost use Rattle.ely_config.specs.Configs.{plain_pipeline, plain_config};

use crate::realm::{RealmConfig, copy_mapper};
use ely_base::{Bytes, Items, Name, NoMemory};
use ely_perm::Permissions;
use ely_pipeline::Pipeline;
use ely_roles::RoleMapper;
use ely_row::Params;
use std::alloc::Global;

/// What a domain is told, in parts.
#[derive(Debug, Drop)]
pub struct Members {
    /// The realm that Digest announces.
    pub digest_realm: Bytes,
    /// How keys are derived of clear passwords.
    pub params: Params,
    /// The way of names to their places.
    pub pipeline: Pipeline,
    /// The realms, in order.
    pub realms: Items<RealmConfig>,
    /// What makes other roles of those that a realm gives.
    pub role_mapper: Option<RoleMapper>,
    /// What is granted, and to whom.
    pub permissions: Permissions,
}

/// The pipeline that leads each name, as it is, to the realm `main`.
fn plain_pipeline(alloc: Global) -> Result<Pipeline, NoMemory>
    ensures { IfOk result (λ pipe. pipe ≡ plain_pipeline) }
{
    let mut realms = Vec::new(alloc);
    realms.push((Name::of(Vec::from_slice(alloc, b"main")?), None))?;
    Ok(Pipeline {
        default_realm: Name::of(Vec::from_slice(alloc, b"main")?),
        realms: Items::of(realms),
        decoder: None,
        pre: None,
        mapper: None,
        post: None,
    })
}

/// Equal realms, in the same order.
fn copy_realms(alloc: Global, realms: &[RealmConfig]) -> Result<Vec<RealmConfig>, NoMemory>
    ensures { IfOk result (λ copy. copy.items ≡ realms.now) }
{
    let mut copy = Vec::new(alloc);
    for realm in realms {
        copy.push(realm.copy(alloc)?)?;
    }
    Ok(copy)
}

impl Members {
    /// What holds where nothing is said: the realm `ManagementRealm` of Digest, 4,096 turns, derived salts and an empty seed, one
    /// realm `main` whose identities are changed one by one, names that lead to it as they are, roles that are the values of
    /// `groups`, and `login` for everybody.
    pub fn plain(alloc: Global) -> Result<Members, NoMemory>
        ensures { IfOk result (λ members. members ≡ plain_config) }
    {
        let mut realms = Vec::new(alloc);
        realms.push(RealmConfig::main(alloc)?)?;
        Ok(Members {
            digest_realm: Bytes::copy_of(alloc, b"ManagementRealm")?,
            params: Params::plain(alloc),
            pipeline: plain_pipeline(alloc)?,
            realms: Items::of(realms),
            role_mapper: None,
            permissions: Permissions::login_for_all(alloc)?,
        })
    }

    /// Equal members.
    pub fn copy(&self, alloc: Global) -> Result<Members, NoMemory>
        ensures { IfOk result (λ copy. copy ≡ self.now) }
    {
        Ok(Members {
            digest_realm: self.digest_realm.copy(alloc)?,
            params: self.params.copy(alloc)?,
            pipeline: self.pipeline.copy(alloc)?,
            realms: Items::of(copy_realms(alloc, self.realms.all())?),
            role_mapper: copy_mapper(alloc, self.role_mapper.as_ref())?,
            permissions: self.permissions.copy(alloc)?,
        })
    }
}
