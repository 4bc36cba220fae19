//! Laws over the definitions of a cache. They compute nothing: each contract is a theorem.

ghost use Rattle.std.specs.Prelude.{◌≡◌, ℕ, List};
ghost use Rattle.ely_row.specs.declared.mech.Mech.{Mech};
ghost use Rattle.ely_cache.specs.Codes.{key_of, place_code};

/// A key is that of one name and one mechanism, and the code of a place is that of one realm and one name.
pub fn codes_tell_apart()
    ensures keys { (name other : List ℕ) (mech another : Mech)
        → key_of name mech ≡ key_of other another → (name ≡ other) × (mech ≡ another) }
    ensures places { (realm name other another : List ℕ)
        → place_code realm name ≡ place_code other another → (realm ≡ other) × (name ≡ another) }
{}
