//! Laws over the definition of an identity. They compute nothing: each contract is a theorem.

ghost use Rattle.std.specs.Prelude.{◌≡◌, ◌++◌, ◌∷◌, [], ℕ, List, Option, false, drop, take};
ghost use Rattle.std.specs.List.{list_any};
ghost use Rattle.std.specs.Map.{lookup};
ghost use Rattle.std.specs.BTreeMap.{is_at};
ghost use Rattle.ely_row.specs.declared.edit.Edit.{Edit};
ghost use Rattle.ely_row.specs.Rows.{Row, name_cmp};
ghost use Rattle.ely_row.specs.Edits.{Texts, row};
ghost use Rattle.ely_row.specs.Dependence.{touches};
ghost use Rattle.ely_aggregate.specs.declared.plan.RealmPlan.{RealmPlan};
ghost use Rattle.ely_aggregate.specs.Plans.{AgreeOn, AreRows, Rows, deps_of, first_values, identity_of, merged};

/// Each attribute of merged rows is that of the first row that has it.
pub fn first_row_wins()
    ensures { (attr : List ℕ) (rows : List (Option Row)) → AreRows rows
        → lookup (is_at (name_cmp attr)) (merged rows) ≡ first_values attr rows }
{}

/// Where two have the same rows at the places of a name, the name has the same identity.
pub fn same_rows_same_identity()
    ensures { (rows others : Rows) (plan : RealmPlan) (name : List ℕ)
        → AgreeOn rows others (deps_of plan name)
        → identity_of rows plan name ≡ identity_of others plan name }
{}

/// The law of touching: an edit that touches no place of a name leaves the identity that the edits before it made. The edits
/// may be reloads.
pub fn untouched_identity()
    ensures { (texts : Texts) (edits : List Edit) (edit : Edit) (plan : RealmPlan) (name : List ℕ)
        → touches edit (deps_of plan name) ≡ false
        → identity_of (row texts (edits ++ edit ∷ [])) plan name ≡ identity_of (row texts edits) plan name }
{}

/// Where no edit after the first so many touches a place of a name, its identity is the one that those made.
pub fn identity_since()
    ensures { (texts : Texts) (edits : List Edit) (seen : ℕ) (plan : RealmPlan) (name : List ℕ)
        → list_any (λ edit. touches edit (deps_of plan name)) (drop seen edits) ≡ false
        → identity_of (row texts edits) plan name ≡ identity_of (row texts (take seen edits)) plan name }
{}
