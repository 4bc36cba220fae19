//! The command line as `clap` sees it: which words it takes, and what it reads of them.

ghost use Rattle.std.specs.Prelude.{◌≡◌, IfOk, map};
ghost use Rattle.std.specs.String.{string_bytes};
ghost use Rattle.clap.specs.Words.{app_of};
ghost use Rattle.ely_words.specs.CommandLine.{TellsMatches, elydom, with_option, with_positional};

use clap::error::ErrorKind;
use clap::{Arg, ArgMatches, Command};
use ely_base::Refused;
use std::alloc::{AllocError, Global};

/// The words are no command.
#[derive(Debug, Clone, Copy, PartialEq, Eq)]
pub struct NoCommand;

/// The command line with one more positional, which must be there.
fn with_positional<'a>(
    alloc: Global,
    command: Command<'a>,
    name: &'a str,
) -> Result<Command<'a>, AllocError>
    ensures { IfOk result (λ c. app_of c ≡ with_positional name.entry.now (app_of command.entry)) }
{
    command.arg(Arg::new(alloc, name).required(true))
}

/// The command line with one more option, which has one value.
fn with_option<'a>(
    alloc: Global,
    command: Command<'a>,
    name: &'a str,
) -> Result<Command<'a>, AllocError>
    ensures { IfOk result (λ c. app_of c ≡ with_option name.entry.now (app_of command.entry)) }
{
    command.arg(Arg::new(alloc, name).long(name))
}

/// The command line of this program. It has no flags for help and version: `--help` and `--version` are
/// unknown options.
fn make_command<'a>(alloc: Global) -> Result<Command<'a>, AllocError>
    ensures { IfOk result (λ c. app_of c ≡ elydom) }
{
    let command = Command::new(alloc, "elydom").disable_help_flag(true);
    let command = with_positional(alloc, command, "mode")?;
    let command = with_option(alloc, command, "workers")?;
    let command = with_option(alloc, command, "seed")?;
    let command = with_option(alloc, command, "actors")?;
    with_option(alloc, command, "lines")
}

/// What `clap` reads of the words, or `NoCommand` where it refuses them.
#[tactic(auto, using(crate::proofs::Getters::found_given))]
pub(crate) fn match_words<'a>(
    alloc: Global,
    words: &'a [String],
) -> Result<ArgMatches<'a>, Refused<NoCommand>>
    ensures { TellsMatches (map (λ w. string_bytes w) words.entry.now) result }
{
    let command = make_command(alloc)?;
    match command.try_get_matches_from(words) {
        Ok(matches) => Ok(matches),
        Err(error) => {
            if error.kind() == ErrorKind::OutOfMemory {
                Err(Refused::NoMemory)
            } else {
                Err(Refused::Fault(NoCommand))
            }
        }
    }
}
