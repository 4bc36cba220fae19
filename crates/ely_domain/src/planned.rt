//! What a domain is made with: its configuration, and beside it the plan by which each realm asks for identities.

ghost use Rattle.std.specs.Prelude.{◌≡◌, IfOk, find};
ghost use Rattle.std.specs.Option.{option_copied};
ghost use Rattle.std.specs.Str.{bytes_eq};
ghost use Rattle.ely_config.specs.Realms.{realm_named};
ghost use Rattle.ely_domain.specs.Plans.{deps_in, own_plan, plan_by, plan_of};
ghost use Rattle.ely_domain.specs.Planning.{plans_of};

use ely_aggregate::{RealmPlan, deps};
use ely_base::{Items, Name, NoMemory, copy_names};
use ely_config::{Config, RealmConfig, RealmKind};
use ely_pipeline::Place;
use ely_row::Deps;
use std::alloc::Global;
use std::marker::Model;

/// The plan by which a realm asks, under the realm's name.
pub(crate) type Plan = (Name, Option<RealmPlan>);

/// A configuration, and the plans of its realms, made once.
#[derive(Drop)]
pub struct Planned {
    config: Config,
    plans: Vec<Plan>,
}

impl Model for Planned {
    ghost use Rattle.std.specs.Prelude.{◌≡◌};
    ghost use Rattle.ely_config.specs.Configs.{Config};
    ghost use Rattle.ely_config.specs.contracts.members.Members as members_type;
    ghost use Rattle.ely_domain.specs.Planning.{plans_of};

    ghost Value = { Config };

    ghost coded = { members_type.the_row.coded };

    ghost view = { λ s. s.config };

    ghost invariant = { λ s. s.plans.items ≡ plans_of s.config.realms s.config.realms };
}

/// The plan of a realm that asks no caching realm.
fn own_plan(alloc: Global, name: &Name, kind: &RealmKind) -> Result<Option<RealmPlan>, NoMemory>
    ensures { IfOk result (λ plan. plan ≡ own_plan name.now kind.now) }
{
    match kind {
        RealmKind::Modifiable => Ok(Some(RealmPlan::Basic(name.copy(alloc)?))),
        RealmKind::Properties { .. } => Ok(Some(RealmPlan::Basic(name.copy(alloc)?))),
        RealmKind::Aggregate {
            authentication,
            authorization,
        } => Ok(Some(RealmPlan::Aggregate {
            authentication: authentication.copy(alloc)?,
            authorization: Items::of(copy_names(alloc, authorization.all())?),
        })),
        RealmKind::Caching { .. } => Ok(None),
    }
}

/// The first realm of this name.
fn realm_named<'a>(realms: &'a [RealmConfig], name: &Name) -> Option<&'a RealmConfig>
    ensures { option_copied result ≡ realm_named realms.now name.now }
{
    realms.iter().find(|realm| realm.name.is(name))
}

/// The plan by which a realm of this name and kind asks: a caching one asks by that of another.
fn plan_by(
    alloc: Global,
    realms: &[RealmConfig],
    name: &Name,
    kind: &RealmKind,
) -> Result<Option<RealmPlan>, NoMemory>
    ensures { IfOk result (λ plan. plan ≡ plan_by realms.now name.now kind.now) }
{
    match kind {
        RealmKind::Caching { of, .. } => match realm_named(realms, of) {
            None => Ok(None),
            Some(realm) => own_plan(alloc, &realm.name, &realm.kind),
        },
        _ => own_plan(alloc, name, kind),
    }
}

/// The plans of all realms, in order.
fn plans_of(alloc: Global, realms: &[RealmConfig]) -> Result<Vec<Plan>, NoMemory>
    ensures { IfOk result (λ plans. plans.items ≡ plans_of realms.now realms.now) }
{
    let mut plans = Vec::new(alloc);
    for realm in realms {
        let plan = plan_by(alloc, realms, &realm.name, &realm.kind)?;
        plans.push((realm.name.copy(alloc)?, plan))?;
    }
    Ok(plans)
}

/// The plan under this name, with the name.
fn plan_in<'a>(plans: &'a [Plan], realm: &Name) -> Option<&'a Plan>
    ensures { option_copied result ≡ find (λ plan. bytes_eq plan.0 realm.now) plans.now }
{
    plans.iter().find(|plan| plan.0.is(realm))
}

impl Planned {
    /// The configuration with the plans of its realms.
    pub(crate) fn of(alloc: Global, config: Config) -> Result<Planned, NoMemory>
        ensures { IfOk result (λ planned. planned ≡ config) }
    {
        let plans = plans_of(alloc, config.realms())?;
        Ok(Planned { config, plans })
    }

    /// The configuration.
    pub(crate) fn config(&self) -> &Config
        ensures { result.now ≡ self.now }
    {
        &self.config
    }

    /// The plan by which the realm of this name asks.
    pub(crate) fn plan_of(&self, realm: &Name) -> Option<&RealmPlan>
        ensures { option_copied result ≡ plan_of self.now.realms realm.now }
    {
        let found = plan_in(&self.plans, realm)?;
        found.1.as_ref()
    }

    /// The places whose rows the identity of a place is made of.
    #[tactic(auto, unfolding(crate::specs::Plans::deps_in))]
    pub(crate) fn deps(&self, alloc: Global, place: &Place) -> Result<Deps, NoMemory>
        ensures { IfOk result (λ deps. deps ≡ deps_in self.now.realms place.now.realm place.now.name) }
    {
        match self.plan_of(&place.realm) {
            None => Ok(Deps::of(Vec::new(alloc))),
            Some(plan) => deps(alloc, plan, &place.name),
        }
    }
}
