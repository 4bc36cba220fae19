//! The realms that an identity is made from, and the places whose edits change it.

ghost use Rattle.std.specs.Prelude.{◌≡◌, ◌++◌, ◌∷◌, [], map, IfOk, OnOk};
ghost use Rattle.ely_aggregate.specs.Plans.{deps_of};

use ely_base::{Items, Name, NoMemory};
use ely_row::Deps;
use std::alloc::Global;

/// Where the identities of a realm come from.
#[derive(Debug, Drop)]
pub enum RealmPlan {
    /// A realm that has rows of its own.
    Basic(Name),
    /// One realm for the credentials, and realms for the attributes, of which the first that has an attribute gives it.
    Aggregate {
        authentication: Name,
        authorization: Items<Name>,
    },
}

/// Adds the place of the name in the realm.
fn add_place(
    alloc: Global,
    places: &mut Vec<(Name, Name)>,
    realm: &Name,
    name: &Name,
) -> Result<(), NoMemory>
    ensures { OnOk result (places.new.items ≡ places.old.items ++ (realm.now, name.now) ∷ []) }
{
    places.push((realm.copy(alloc)?, name.copy(alloc)?))?;
    Ok(())
}

/// The places of the name in the realms, behind that in the first one.
fn places_of(
    alloc: Global,
    first: &Name,
    others: &[Name],
    name: &Name,
) -> Result<Vec<(Name, Name)>, NoMemory>
    ensures { IfOk result (λ places. places.items
        ≡ map (λ realm. (realm, name.now)) (first.now ∷ others.now)) }
{
    let mut places = Vec::new(alloc);
    add_place(alloc, &mut places, first, name)?;
    for realm in others {
        add_place(alloc, &mut places, realm, name)?;
    }
    Ok(places)
}

/// The places that an identity of the plan is made from: the basic realm's, or the authentication realm's and then each
/// authorization realm's.
pub fn deps(alloc: Global, plan: &RealmPlan, name: &Name) -> Result<Deps, NoMemory>
    ensures { IfOk result (λ deps. deps ≡ deps_of plan.now name.now) }
{
    match plan {
        RealmPlan::Basic(realm) => Ok(Deps::of(places_of(alloc, realm, &[], name)?)),
        RealmPlan::Aggregate {
            authentication,
            authorization,
        } => Ok(Deps::of(places_of(alloc, authentication, authorization.all(), name)?)),
    }
}
