//! Which roles the mapped sets have, and what fits: laws that compute nothing.

ghost use Rattle.std.specs.Prelude.{◌≡◌, ℕ, ◌+◌, ◌&&◌, ◌||◌, ◌++◌, Bool, true, false, List, [], ◌∷◌, Option, map};
ghost use Rattle.std.specs.List.{list_any, list_all};
ghost use Rattle.std.specs.Option.{option_map_or};
ghost use Rattle.std.specs.Str.{bytes_eq};
ghost use Rattle.ely_row.specs.Rows.{Row};
ghost use Rattle.ely_row.specs.Sets.{as_set, is_among};
ghost use Rattle.ely_roles.specs.declared.mapper.SetOp.{SetOp};
ghost use Rattle.ely_roles.specs.declared.mapper.RoleMapper.{RoleMapper};
ghost use Rattle.ely_roles.specs.declared.mapper.RoleMapper.TheVariants.{Constant, AddPrefix, AddSuffix, Aggregate, Logical, Mapped};
ghost use Rattle.ely_roles.specs.Mappers.{Name, Names, Pair, is_short, with_prefix, with_suffix, keeps, joined, is_target, is_kept, given, mapped, in_turn, mapped_by};
ghost use Rattle.ely_roles.specs.RolesOf.{through, roles_of, is_value};
ghost use Rattle.ely_roles.specs.Bounds.{length_fits, pairs_fit, fits_within};

/// What a mapper makes of a set of roles, form by form.
pub fn mappers_by_their_forms()
    ensures constant { (roles set : Names) → mapped_by (Constant roles) set ≡ as_set roles }
    ensures prefix { (text : Name) (set : Names)
        → mapped_by (AddPrefix text) set ≡ with_prefix text set }
    ensures suffix { (text : Name) (set : Names)
        → mapped_by (AddSuffix text) set ≡ with_suffix text set }
    ensures aggregate { (of : List RoleMapper) (set : Names)
        → mapped_by (Aggregate of) set ≡ in_turn (map mapped_by of) set }
    ensures logical { (op : SetOp) (left right : Option RoleMapper) (set : Names)
        → mapped_by (Logical op left right) set ≡ joined op (through left set) (through right set) }
    ensures pairs { (pairs : List Pair) (keep_mapped keep_non_mapped : Bool) (set : Names)
        → mapped_by (Mapped pairs keep_mapped keep_non_mapped) set
        ≡ mapped pairs keep_mapped keep_non_mapped set }
{}

/// A name is among constant roles exactly where it is one of them.
pub fn members_constant()
    ensures { (roles set : Names) (name : Name)
        → is_among (mapped_by (Constant roles) set) name ≡ is_among roles name }
{}

/// Of mappers one after the other, the first acts on the set and the others on what it made. Where
/// there are none, the set stays as it is.
pub fn members_in_turn()
    ensures none { (set : Names) (name : Name)
        → is_among (mapped_by (Aggregate []) set) name ≡ is_among set name }
    ensures first { (first : RoleMapper) (others : List RoleMapper) (set : Names) (name : Name)
        → is_among (mapped_by (Aggregate (first ∷ others)) set) name
        ≡ is_among (mapped_by (Aggregate others) (mapped_by first set)) name }
{}

/// A name is among roles with a text before or behind them exactly where it is short enough and
/// some role with the text is it.
pub fn members_affixed()
    ensures prefix { (text : Name) (set : Names) (name : Name)
        → is_among (with_prefix text set) name
        ≡ (is_short name && list_any (λ role. bytes_eq (text ++ role) name) set) }
    ensures suffix { (text : Name) (set : Names) (name : Name)
        → is_among (with_suffix text set) name
        ≡ (is_short name && list_any (λ role. bytes_eq (role ++ text) name) set) }
{}

/// A name is in two sets joined exactly where the operation keeps it, by whether the left has it
/// and whether the right has it: with `And` where both have it, with `Or` where one has it, with
/// `Minus` where the left alone has it, and with `Xor` where exactly one has it.
pub fn members_joined()
    ensures { (op : SetOp) (left right : Names) (name : Name)
        → is_among (joined op left right) name
        ≡ keeps op (is_among left name) (is_among right name) }
{}

/// A name is among mapped roles exactly where it is given for some role of the set: as a target of
/// a pair of the role, or as the role itself where it is kept.
pub fn members_mapped()
    ensures set { (pairs : List Pair) (keep_mapped keep_non_mapped : Bool)
        → (set : Names) (name : Name)
        → is_among (mapped pairs keep_mapped keep_non_mapped set) name
        ≡ list_any (λ role. is_among (given pairs keep_mapped keep_non_mapped role) name) set }
    ensures role { (pairs : List Pair) (keep_mapped keep_non_mapped : Bool) (role name : Name)
        → is_among (given pairs keep_mapped keep_non_mapped role) name
        ≡ (is_target pairs role name
        || (is_kept pairs keep_mapped keep_non_mapped role && bytes_eq role name)) }
{}

/// Without mappers, a name is a role of an identity exactly where it is a value of the attribute.
/// The realm's mapper acts on these values, and the domain's on what the realm's made.
pub fn roles_by_their_mappers()
    ensures none { (attr : Name) (row : Row) (name : Name)
        → is_among (roles_of attr None None row) name ≡ is_value attr row name }
    ensures realm { (attr : Name) (mapper : RoleMapper) (row : Row)
        → roles_of attr (Some mapper) None row ≡ mapped_by mapper (roles_of attr None None row) }
    ensures domain { (attr : Name) (realm : Option RoleMapper) (mapper : RoleMapper) (row : Row)
        → roles_of attr realm (Some mapper) row ≡ mapped_by mapper (roles_of attr realm None row) }
{}

/// Which mappers fit within so many levels, form by form: a mapper inside another has one level
/// less, and where no level is left nothing fits.
pub fn bounds_by_their_forms()
    ensures none { (mapper : RoleMapper) → fits_within mapper 0 ≡ false }
    ensures constant { (roles : Names) (levels : ℕ)
        → fits_within (Constant roles) (levels + 1) ≡ length_fits roles }
    ensures prefix { (text : Name) (levels : ℕ) → fits_within (AddPrefix text) (levels + 1) ≡ true }
    ensures suffix { (text : Name) (levels : ℕ) → fits_within (AddSuffix text) (levels + 1) ≡ true }
    ensures aggregate { (of : List RoleMapper) (levels : ℕ)
        → fits_within (Aggregate of) (levels + 1)
        ≡ (length_fits of && list_all (λ mapper. fits_within mapper levels) of) }
    ensures logical { (op : SetOp) (left right : Option RoleMapper) (levels : ℕ)
        → fits_within (Logical op left right) (levels + 1)
        ≡ (option_map_or (λ mapper. fits_within mapper levels) left true
        && option_map_or (λ mapper. fits_within mapper levels) right true) }
    ensures pairs { (pairs : List Pair) (keep_mapped keep_non_mapped : Bool) (levels : ℕ)
        → fits_within (Mapped pairs keep_mapped keep_non_mapped) (levels + 1) ≡ pairs_fit pairs }
{}
