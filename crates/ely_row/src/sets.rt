//! What holds of sets of names: laws that compute nothing.

ghost use Rattle.std.specs.Prelude.{◌≡◌, ℕ, List};
ghost use Rattle.ely_row.specs.Sets.{as_set, is_among, IsSet};

/// A set of names has exactly the names that it was made of, and is told by them: two sets that have the same names are the
/// same list.
pub fn sets_are_their_names()
    ensures rise { (names : List (List ℕ)) → IsSet (as_set names) }
    ensures names { (names : List (List ℕ)) (name : List ℕ)
        → is_among (as_set names) name ≡ is_among names name }
    ensures same { (a b : List (List ℕ)) → IsSet a → IsSet b
        → ((name : List ℕ) → is_among a name ≡ is_among b name) → a ≡ b }
{}
