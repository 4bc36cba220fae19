//! What a configuration that is taken is worth: laws that compute nothing.

ghost use Rattle.std.specs.Prelude.{◌≡◌, ℕ, ◌≤◌, List, IsSome, Some, Ok, slice_get};
ghost use Rattle.ely_pipeline.specs.declared.place.Place.{Place};
ghost use Rattle.ely_pipeline.specs.Places.{place_of};
ghost use Rattle.ely_config.specs.declared.members.Members.{Members};
ghost use Rattle.ely_config.specs.declared.realm.RealmConfig.{RealmConfig};
ghost use Rattle.ely_config.specs.declared.realm.RealmKind.TheVariants.{Aggregate, Caching};
ghost use Rattle.ely_config.specs.Realms.{is_basic, is_uncached, realm_named, RefersTo};
ghost use Rattle.ely_config.specs.Configs.{IsSound};

/// Each place that the pipeline of such a configuration gives is in a realm that is there.
pub fn places_are_in_realms_that_are_there()
    ensures { (members : Members) (name : List ℕ) (place : Place) → IsSound members
        → place_of members.pipeline name ≡ Ok place
        → IsSome (realm_named members.realms place.realm) }
{}

/// Each of its caches keeps 1 to 65,536 keys.
pub fn limits_are_kept()
    ensures { (members : Members) (i : ℕ) (realm : RealmConfig) (of : List ℕ) (limit : ℕ)
        → IsSound members → slice_get members.realms i ≡ Some realm
        → realm.kind ≡ Caching of limit → (1 ≤ limit) × (limit ≤ 65536) }
{}

/// What its realms refer to is there: a caching realm is of one that isn't caching, and an aggregate is of realms that have
/// identities of their own.
pub fn references_are_there()
    ensures of { (members : Members) (i : ℕ) (realm : RealmConfig) (of : List ℕ) (limit : ℕ)
        → IsSound members → slice_get members.realms i ≡ Some realm
        → realm.kind ≡ Caching of limit → RefersTo is_uncached members.realms of }
    ensures authentication { (members : Members) (i : ℕ) (realm : RealmConfig)
        (authentication : List ℕ) (authorization : List (List ℕ))
        → IsSound members → slice_get members.realms i ≡ Some realm
        → realm.kind ≡ Aggregate authentication authorization
        → RefersTo is_basic members.realms authentication }
    ensures authorization { (members : Members) (i : ℕ) (realm : RealmConfig)
        (authentication : List ℕ) (authorization : List (List ℕ)) (at : ℕ) (name : List ℕ)
        → IsSound members → slice_get members.realms i ≡ Some realm
        → realm.kind ≡ Aggregate authentication authorization
        → slice_get authorization at ≡ Some name → RefersTo is_basic members.realms name }
{}
