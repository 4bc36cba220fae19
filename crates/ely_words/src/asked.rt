//! What the words of the command line ask for, by a table of the modes with the options that each allows.

ghost use Rattle.std.specs.Prelude.{◌≡◌, map};
ghost use Rattle.std.specs.String.{string_bytes};
ghost use Rattle.ely_words.specs.CommandLine.{text_of};
ghost use Rattle.ely_words.specs.Asking.{TellsAsked, asked_alone, asked_for};

use crate::command_line::{NoCommand, match_words};
use ely_base::Refused;
use std::alloc::Global;

/// What the program is asked to do. A mode that takes options has them here, in a type that keeps their
/// ranges.
#[derive(Debug, Clone, Copy, PartialEq, Eq)]
pub enum Asked {
    /// The word `replay`: a script is replayed, and its steps are printed.
    Replay,
    /// The word `check`: the lines of a script are read, and those that can't be read are told.
    Check,
}

/// This, where no option is given.
fn asked_alone(
    asked: Asked,
    workers: Option<&str>,
    seed: Option<&str>,
    actors: Option<&str>,
    lines: Option<&str>,
) -> Option<Asked>
    ensures { result ≡ asked_alone asked (text_of workers.entry) (text_of seed.entry)
        (text_of actors.entry) (text_of lines.entry) }
{
    if workers.is_some() || seed.is_some() || actors.is_some() || lines.is_some() {
        return None;
    }
    Some(asked)
}

/// What this word asks for, where the options that were given are allowed with it.
fn asked_for(
    word: &str,
    workers: Option<&str>,
    seed: Option<&str>,
    actors: Option<&str>,
    lines: Option<&str>,
) -> Option<Asked>
    ensures { result ≡ asked_for word.now (text_of workers.entry) (text_of seed.entry)
        (text_of actors.entry) (text_of lines.entry) }
{
    if word == "replay" {
        asked_alone(Asked::Replay, workers, seed, actors, lines)
    } else if word == "check" {
        asked_alone(Asked::Check, workers, seed, actors, lines)
    } else {
        None
    }
}

/// Reads what the words ask for. The first word is the program's own name, whatever it is; behind it stand
/// the word of a mode and options, in any order. Words that name no mode, or that have an option which isn't
/// the mode's, are `NoCommand`; of `NoMemory` nothing follows for the words.
pub fn read_asked(alloc: Global, words: &[String]) -> Result<Asked, Refused<NoCommand>>
    ensures { TellsAsked (map (λ w. string_bytes w) words.now) result }
{
    let matches = match_words(alloc, words)?;
    let mode = matches.get_str("mode");
    let workers = matches.get_str("workers");
    let seed = matches.get_str("seed");
    let actors = matches.get_str("actors");
    let lines = matches.get_str("lines");
    let Some(mode) = mode else {
        return Err(Refused::Fault(NoCommand));
    };
    match asked_for(mode, workers, seed, actors, lines) {
        Some(asked) => Ok(asked),
        None => Err(Refused::Fault(NoCommand)),
    }
}
