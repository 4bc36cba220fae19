//! The verbs, each by its word.

ghost use Rattle.std.specs.Prelude.{◌≡◌, map};
ghost use Rattle.ely_script.specs.Verbs.{named_in, verb_word_of};

/// A verb by its word in a line.
#[derive(Clone, Copy)]
pub(crate) enum VerbWord {
    Add,
    Remove,
    SetCred,
    DropCred,
    SetAttr,
    DropAttr,
    Reload,
    Open,
    Plain,
    First,
    Final,
    Digest,
    Authorize,
    Succeed,
    Fail,
    Close,
    Allows,
}

/// Each verb by its word.
const VERBS: [(&[u8], VerbWord); 17] = [
    (b"add", VerbWord::Add),
    (b"remove", VerbWord::Remove),
    (b"set-cred", VerbWord::SetCred),
    (b"drop-cred", VerbWord::DropCred),
    (b"set-attr", VerbWord::SetAttr),
    (b"drop-attr", VerbWord::DropAttr),
    (b"reload", VerbWord::Reload),
    (b"open", VerbWord::Open),
    (b"plain", VerbWord::Plain),
    (b"first", VerbWord::First),
    (b"final", VerbWord::Final),
    (b"digest", VerbWord::Digest),
    (b"authorize", VerbWord::Authorize),
    (b"succeed", VerbWord::Succeed),
    (b"fail", VerbWord::Fail),
    (b"close", VerbWord::Close),
    (b"allows", VerbWord::Allows),
];

/// The verb that a word is in a table.
fn named_in(table: &[(&[u8], VerbWord)], word: &[u8]) -> Option<VerbWord>
    ensures { result ≡ named_in (map (λ row. (row.0.now, row.1)) table.now) word.now }
{
    let mut rows = table;
    while let [row, rest @ ..] = rows {
        if word == row.0 {
            return Some(row.1);
        }
        rows = rest;
    }
    None
}

/// The verb that a word is.
#[tactic(auto, unfolding(crate::specs::Verbs::verb_word_of))]
pub(crate) fn verb_word(word: &[u8]) -> Option<VerbWord>
    ensures { result ≡ verb_word_of word.now }
{
    named_in(&VERBS, word)
}
