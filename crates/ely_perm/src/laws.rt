//! What is granted, in the words of who reads the rows: laws that compute nothing.

ghost use Rattle.std.specs.Prelude.{◌≡◌, ◌≢◌, ℕ, true, false, List, [], ◌++◌, codes};
ghost use Rattle.std.specs.Str.{bytes_eq};
ghost use Rattle.ely_perm.specs.declared.mode.Mode.TheVariants.{First, And, Or, Xor, Unless};
ghost use Rattle.ely_perm.specs.declared.permissions.Permissions.{Permissions};
ghost use Rattle.ely_perm.specs.Grants.{implies, matching, granted, login_for_all};
ghost use Rattle.ely_perm.specs.Bounds.{fits};
ghost use Rattle.ely_perm.specs.ModeLaws.{first_grants, some_grant, each_grants, odd_number_grants, first_alone_grants, IsGrantedWhere};

/// A granted text with `:*` behind it implies exactly the texts that begin with it and a colon.
pub fn families_are_by_their_front()
    ensures only { (front wanted : List ℕ) → implies (front ++ codes ":*") wanted ≡ true
        → (rest : List ℕ) × (wanted ≡ (front ++ codes ":") ++ rest) }
    ensures all { (front wanted rest : List ℕ) → wanted ≡ (front ++ codes ":") ++ rest
        → implies (front ++ codes ":*") wanted ≡ true }
{}

/// The granted text `*` implies every text, and one that is neither `*` nor ends with `:*` implies exactly itself.
pub fn grants_otherwise()
    ensures star { (wanted : List ℕ) → implies (codes "*") wanted ≡ true }
    ensures itself { (grant wanted : List ℕ) → grant ≢ codes "*"
        → ((front : List ℕ) → grant ≢ front ++ codes ":*") → implies grant wanted ≡ bytes_eq grant wanted }
{}

/// Where no row matches, nothing is granted in any mode.
pub fn nothing_is_granted_without_a_row()
    ensures { (perms : Permissions) (name : List ℕ) (roles : List (List ℕ)) (wanted : List ℕ)
        → matching name roles perms.rows ≡ [] → granted perms name roles wanted ≡ false }
{}

/// When a text is granted, mode by mode, told by the rows that match.
pub fn modes_by_their_rows()
    ensures first { IsGrantedWhere First first_grants }
    ensures each { IsGrantedWhere And each_grants }
    ensures some { IsGrantedWhere Or some_grant }
    ensures odd { IsGrantedWhere Xor odd_number_grants }
    ensures alone { IsGrantedWhere Unless first_alone_grants }
{}

/// Permissions with one row for everybody that grants `login` grant that text to everybody, and no other. They fit.
pub fn login_is_for_all()
    ensures alone { (name : List ℕ) (roles : List (List ℕ)) (wanted : List ℕ)
        → granted login_for_all name roles wanted ≡ bytes_eq (codes "login") wanted }
    ensures small { fits login_for_all ≡ true }
{}
