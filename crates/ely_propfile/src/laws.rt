//! What holds of the definitions: names are read exactly as they are written, and rows are found by their names.

ghost use Rattle.ely_propfile.specs.Rows.{RowsByName};
ghost use Rattle.ely_propfile.specs.Written.{ReadsWritten, ReadsNothingElse};

/// A name is read exactly where it stands before a `=`, with a backslash before each `=` and each backslash in it, and before
/// any other byte at will.
pub fn names_are_as_written()
    ensures written { ReadsWritten }
    ensures nothing_else { ReadsNothingElse }
{}

/// Of the rows that users and groups make, that of a name is its user's credential with the groups of the same name,
/// and there is none where it is no user.
pub fn rows_are_by_name()
    ensures { RowsByName }
{}
