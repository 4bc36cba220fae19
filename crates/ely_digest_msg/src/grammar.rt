//! That reading a list of members and the grammar of such lists are one and the same.

ghost use Rattle.ely_digest_msg.specs.Grammar.{ReadsLists, ReadsNothingElse, TellsFaults, TellsNothingElse};

/// A list in the grammar (RFC 7235 section 2.1) is read, with the values of its members, and no other text is. A fault
/// is told exactly where it is that of the first member, behind whole ones, that isn't in the grammar or comes again.
pub fn reads_grammar()
    ensures lists { ReadsLists }
    ensures nothing_else { ReadsNothingElse }
    ensures faults { TellsFaults }
    ensures no_other_fault { TellsNothingElse }
{}
