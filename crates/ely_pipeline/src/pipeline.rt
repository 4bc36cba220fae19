//! The stages that a name passes on its way to its place.

ghost use Rattle.std.specs.Prelude.{◌≡◌, IfOk};
ghost use Rattle.std.specs.Option.{option_copied};

use crate::mapper::RealmMapper;
use crate::rule::Rule;
use ely_base::{Items, Name, NoMemory};
use std::alloc::Global;

/// The stages of the way to a place, in their order, and the realms that there are.
#[derive(Debug, Drop)]
pub struct Pipeline {
    /// What makes a name of the name that a client gave.
    pub decoder: Option<Rule>,
    /// The rule before the realm is chosen.
    pub pre: Option<Rule>,
    /// What chooses the realm.
    pub mapper: Option<RealmMapper>,
    /// The realm where the mapper chooses none.
    pub default_realm: Name,
    /// The rule after the realm is chosen.
    pub post: Option<Rule>,
    /// The realms, each with the last rule for its names.
    pub realms: Items<(Name, Option<Rule>)>,
}

/// An equal rule, where there is one.
fn copy_rule(alloc: Global, rule: Option<&Rule>) -> Result<Option<Rule>, NoMemory>
    ensures { IfOk result (λ copy. copy ≡ option_copied rule.entry) }
{
    match rule {
        None => Ok(None),
        Some(rule) => Ok(Some(rule.copy(alloc)?)),
    }
}

/// An equal mapper, where there is one.
fn copy_mapper(alloc: Global, mapper: Option<&RealmMapper>) -> Result<Option<RealmMapper>, NoMemory>
    ensures { IfOk result (λ copy. copy ≡ option_copied mapper.entry) }
{
    match mapper {
        None => Ok(None),
        Some(mapper) => Ok(Some(mapper.copy(alloc)?)),
    }
}

/// Equal realms, in the same order.
fn copy_realms(
    alloc: Global,
    realms: &[(Name, Option<Rule>)],
) -> Result<Vec<(Name, Option<Rule>)>, NoMemory>
    ensures { IfOk result (λ copy. copy.items ≡ realms.now) }
{
    let mut copy = Vec::new(alloc);
    for realm in realms {
        copy.push((realm.0.copy(alloc)?, copy_rule(alloc, realm.1.as_ref())?))?;
    }
    Ok(copy)
}

impl Pipeline {
    /// An equal pipeline.
    pub fn copy(&self, alloc: Global) -> Result<Pipeline, NoMemory>
        ensures { IfOk result (λ copy. copy ≡ self.now) }
    {
        let realms = copy_realms(alloc, self.realms.all())?;
        let default_realm = self.default_realm.copy(alloc)?;
        let mapper = copy_mapper(alloc, self.mapper.as_ref())?;
        let decoder = copy_rule(alloc, self.decoder.as_ref())?;
        let pre = copy_rule(alloc, self.pre.as_ref())?;
        let post = copy_rule(alloc, self.post.as_ref())?;
        Ok(Pipeline {
            decoder,
            pre,
            mapper,
            default_realm,
            post,
            realms: Items::of(realms),
        })
    }
}
