//! The words of steps, states, cache answers and mechanisms, as they are read and printed.

ghost use Rattle.std.specs.Prelude.{◌≡◌};
ghost use Rattle.ely_script.specs.Words.{step_text, state_text, cache_text, mech_text};

use ely_login::{CacheWord, StateWord, StepWord};
use ely_row::Mech;

/// The word of a step.
pub(crate) fn step_word(step: StepWord) -> &'static [u8]
    ensures { result.now ≡ step_text step }
{
    match step {
        StepWord::BadLine => b"bad-line",
        StepWord::Add => b"add",
        StepWord::Remove => b"remove",
        StepWord::SetCred => b"set-cred",
        StepWord::DropCred => b"drop-cred",
        StepWord::SetAttr => b"set-attr",
        StepWord::DropAttr => b"drop-attr",
        StepWord::Reload => b"reload",
        StepWord::Begin => b"open",
        StepWord::Name1 => b"name1",
        StepWord::Name2 => b"name2",
        StepWord::Check1 => b"check1",
        StepWord::Check2 => b"check2",
        StepWord::Authorize => b"authorize",
        StepWord::Allows => b"allows",
        StepWord::Succeed => b"succeed",
        StepWord::Fail => b"fail",
        StepWord::Close => b"close",
    }
}

/// The word of a login's state.
pub(crate) fn state_word(state: StateWord) -> &'static [u8]
    ensures { result.now ≡ state_text state }
{
    match state {
        StateWord::Absent => b"absent",
        StateWord::Fresh => b"fresh",
        StateWord::Loading => b"loading",
        StateWord::Named => b"named",
        StateWord::Checking => b"checking",
        StateWord::Proved => b"proved",
        StateWord::Authorized => b"authorized",
        StateWord::Complete => b"complete",
        StateWord::Failed => b"failed",
    }
}

/// What is printed behind the outcome: a space and the word, or nothing.
pub(crate) fn cache_word(cache: CacheWord) -> &'static [u8]
    ensures { result.now ≡ cache_text cache }
{
    match cache {
        CacheWord::None => b"",
        CacheWord::Dash => b" -",
        CacheWord::Hit => b" hit",
        CacheWord::Miss => b" miss",
        CacheWord::Kept => b" kept",
        CacheWord::Late => b" late",
        CacheWord::Unkept => b" unkept",
    }
}

/// The word of a mechanism, as it is read and printed.
pub fn mech_word(mech: Mech) -> &'static [u8]
    ensures { result.now ≡ mech_text mech }
{
    match mech {
        Mech::Plain => b"PLAIN",
        Mech::ScramSha1 => b"SCRAM-SHA-1",
        Mech::ScramSha256 => b"SCRAM-SHA-256",
        Mech::Digest => b"DIGEST",
        Mech::DigestSha256 => b"DIGEST-SHA-256",
    }
}
