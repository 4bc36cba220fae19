//! Laws over what edits make of identities. They compute nothing: each contract is a theorem.

ghost use Rattle.std.specs.Prelude.{List};
ghost use Rattle.ely_row.specs.declared.edit.Edit.{Edit};
ghost use Rattle.ely_row.specs.Edits.{Texts};
ghost use Rattle.ely_row.specs.Dependence.{UntouchedStays};

/// The law of touching: an edit that doesn't touch a place leaves the row that the edits before it made there.
pub fn untouched_row_stays()
    ensures { (texts : Texts) (edits : List Edit) (edit : Edit) → UntouchedStays texts edits edit }
{}
