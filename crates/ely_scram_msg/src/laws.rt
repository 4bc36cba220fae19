//! What holds of the definitions: they accept exactly the grammar of RFC 5802 section 7, said by its productions.

ghost use Rattle.ely_scram_msg.specs.Grammar.{FirstIsTheGrammar, LastIsTheGrammar};

/// The client-first messages that are accepted are those of the grammar, with the parts that their spelling shows.
pub fn first_is_in_grammar()
    ensures { FirstIsTheGrammar }
{}

/// The client-final messages that are accepted are those of the grammar, with the parts that their spelling shows.
pub fn last_is_in_grammar()
    ensures { LastIsTheGrammar }
{}
