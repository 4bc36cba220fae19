//! What a domain is told, once nothing stands against it.

ghost use Rattle.std.specs.Prelude.{◌≡◌, IfOk};
ghost use Rattle.std.specs.Option.{option_copied};
ghost use Rattle.ely_base.specs.Refused.{Gives};
ghost use Rattle.ely_config.specs.Realms.{realm_named, AreSound};
ghost use Rattle.ely_config.specs.Configs.{plain_config, config_fault, config_of};

use crate::bounds::{bounds_fault, target_fault};
use crate::fault::ConfigFault;
use crate::members::Members;
use crate::realm::RealmConfig;
use crate::realm_faults::realms_fault;
use crate::references::realm_named;
use ely_base::{Bytes, Name, NoMemory, Refused, discard};
use ely_perm::Permissions;
use ely_pipeline::Pipeline;
use ely_roles::RoleMapper;
use ely_row::Params;
use std::alloc::Global;
use std::marker::Model;

/// What a domain is told. The members are within their bounds, the realms have names of their own, their texts can be read, and
/// names are led to no realm that isn't there.
#[derive(Debug, Drop)]
pub struct Config {
    members: Members,
}

impl Model for Config {
    ghost use Rattle.ely_config.specs.Configs.{Config, IsSound};
    ghost use Rattle.ely_config.specs.contracts.members.Members as members_type;

    ghost Value = { Config };

    ghost coded = { members_type.the_row.coded };

    ghost view = { λ c. c.members };

    ghost invariant = { λ c. IsSound c.members };
}

/// Why no configuration is made of these members, the first reason.
#[tactic(auto, unfolding(crate::specs::Configs::config_fault))]
fn config_fault(alloc: Global, members: &Members) -> Result<Option<ConfigFault>, NoMemory>
    ensures { IfOk result (λ fault. fault ≡ config_fault members.now) }
{
    if let Some(fault) = bounds_fault(members) {
        return Ok(Some(fault));
    }
    let realms = members.realms.all();
    if let Some(fault) = realms_fault(alloc, &members.digest_realm, realms)? {
        return Ok(Some(fault));
    }
    Ok(target_fault(realms, &members.pipeline))
}

impl Config {
    /// The configuration of these members, or the first reason why there is none.
    pub fn of(alloc: Global, members: Members) -> Result<Config, Refused<ConfigFault>>
        ensures { Gives result (config_of members) }
    {
        match config_fault(alloc, &members) {
            Ok(None) => Ok(Config { members }),
            Ok(Some(fault)) => {
                discard(members);
                Err(Refused::Fault(fault))
            }
            Err(NoMemory) => {
                discard(members);
                Err(Refused::NoMemory)
            }
        }
    }

    /// What holds where nothing is said.
    pub fn plain(alloc: Global) -> Result<Config, NoMemory>
        ensures { IfOk result (λ config. config ≡ plain_config) }
    {
        Ok(Config {
            members: Members::plain(alloc)?,
        })
    }

    /// The realm that Digest announces, which a header has to name where the identity's credential is a clear password.
    pub fn digest_realm(&self) -> &Bytes
        ensures value { result.now ≡ self.now.digest_realm }
        ensures sound { AreSound self.now.digest_realm self.now.realms }
    {
        &self.members.digest_realm
    }

    /// How keys are derived of clear passwords.
    pub fn params(&self) -> &Params
        ensures { result.now ≡ self.now.params }
    {
        &self.members.params
    }

    /// The way of names to their places.
    pub fn pipeline(&self) -> &Pipeline
        ensures { result.now ≡ self.now.pipeline }
    {
        &self.members.pipeline
    }

    /// The realms, in order.
    pub fn realms(&self) -> &[RealmConfig]
        ensures value { result.now ≡ self.now.realms }
        ensures sound { AreSound self.now.digest_realm self.now.realms }
    {
        self.members.realms.all()
    }

    /// What makes other roles of those that a realm gives.
    pub fn role_mapper(&self) -> Option<&RoleMapper>
        ensures { option_copied result ≡ self.now.role_mapper }
    {
        self.members.role_mapper.as_ref()
    }

    /// What is granted, and to whom.
    pub fn permissions(&self) -> &Permissions
        ensures { result.now ≡ self.now.permissions }
    {
        &self.members.permissions
    }

    /// The first realm of this name.
    pub fn realm_named(&self, name: &Name) -> Option<&RealmConfig>
        ensures { option_copied result ≡ realm_named self.now.realms name.now }
    {
        realm_named(self.realms(), name)
    }

    /// An equal configuration.
    pub fn copy(&self, alloc: Global) -> Result<Config, NoMemory>
        ensures { IfOk result (λ copy. copy ≡ self.now) }
    {
        Ok(Config {
            members: self.members.copy(alloc)?,
        })
    }
}
