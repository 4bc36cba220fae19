//! Laws over what a journal makes of its realms. They compute nothing: each contract is a theorem.

ghost use Rattle.std.specs.Prelude.{ℕ, List};
ghost use Rattle.ely_row.specs.declared.edit.Edit.{Edit};
ghost use Rattle.ely_row.specs.Edits.{Texts};
ghost use Rattle.ely_table.specs.Counts.{AreCounted};

/// The count of rows of a realm is the number of its names that have a row.
pub fn rows_are_counted()
    ensures { (texts : Texts) (edits : List Edit) (r : List ℕ) → AreCounted texts edits r }
{}
