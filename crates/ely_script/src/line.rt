//! Reading a line of a script: its actor, its verb and the verb's arguments.

ghost use Rattle.std.specs.Prelude.{◌≡◌, ◌-◌, ◌^◌};
ghost use Rattle.ely_base.specs.Refused.{Gives};
ghost use Rattle.ely_script.specs.Lines.{verb_in, line_by, too_long, read_of};
ghost use Rattle.ely_script.specs.Verbs.{args_of, verb_of};

use crate::args::Args;
use crate::command::{Command, LineError, Verb};
use crate::edits::{
    read_add, read_drop_attr, read_drop_cred, read_reload, read_remove, read_set_attr,
    read_set_cred,
};
use crate::limits::MAX_LINE_BYTES;
use crate::logins::{
    read_allows, read_digest_line, read_final, read_first, read_only_ctx, read_open,
    read_plain_line,
};
use crate::verbs::{VerbWord, verb_word};
use ely_base::{Refused, cut_at, read_number, refused_as};
use ely_login::BadLine;
use std::alloc::Global;

/// What a verb's arguments ask for.
fn read_args(alloc: Global, verb: VerbWord, args: Args) -> Result<Verb, Refused<BadLine>>
    ensures { Gives result (args_of verb args.entry) }
{
    match verb {
        VerbWord::Add => read_add(alloc, args),
        VerbWord::Remove => read_remove(alloc, args),
        VerbWord::SetCred => read_set_cred(alloc, args),
        VerbWord::DropCred => read_drop_cred(alloc, args),
        VerbWord::SetAttr => read_set_attr(alloc, args),
        VerbWord::DropAttr => read_drop_attr(alloc, args),
        VerbWord::Reload => read_reload(alloc, args),
        VerbWord::Open => read_open(alloc, args),
        VerbWord::Plain => read_plain_line(alloc, args),
        VerbWord::First => read_first(alloc, args),
        VerbWord::Final => read_final(alloc, args),
        VerbWord::Digest => read_digest_line(alloc, args),
        VerbWord::Authorize => Ok(Verb::Authorize {
            ctx: read_only_ctx(args)?,
        }),
        VerbWord::Succeed => Ok(Verb::Succeed {
            ctx: read_only_ctx(args)?,
        }),
        VerbWord::Fail => Ok(Verb::Fail {
            ctx: read_only_ctx(args)?,
        }),
        VerbWord::Close => Ok(Verb::Close {
            ctx: read_only_ctx(args)?,
        }),
        VerbWord::Allows => read_allows(alloc, args),
    }
}

/// What a verb's word and its arguments ask for.
fn read_verb(alloc: Global, word: &[u8], args: Args) -> Result<Verb, Refused<BadLine>>
    ensures { Gives result (verb_of word.now args.entry) }
{
    match verb_word(word) {
        None => Err(Refused::Fault(BadLine::Verb)),
        Some(verb) => read_args(alloc, verb, args),
    }
}

/// The verb and its arguments behind the actor.
fn read_rest(alloc: Global, args: Args) -> Result<Verb, Refused<BadLine>>
    ensures { Gives result (verb_in args.entry) }
{
    match args.first() {
        Err(_) => Err(Refused::Fault(BadLine::NoVerb)),
        Ok((word, args)) => read_verb(alloc, word.bytes, args),
    }
}

/// The line of this actor.
fn read_line_by(alloc: Global, actor: u32, args: Args) -> Result<Command, Refused<LineError>>
    ensures { Gives result (line_by actor (verb_in args.entry)) }
{
    let verb = refused_as(read_rest(alloc, args), |bad| LineError::Bad { actor, bad })?;
    Ok(Command { actor, verb })
}

/// The fault of a line of more than 8,192 bytes, of which no actor is read.
pub fn too_long() -> LineError
    ensures { result ≡ too_long }
{
    LineError::Bad {
        actor: 0,
        bad: BadLine::Long,
    }
}

/// Reads a line without its LF, or says its first fault: more than 8,192 bytes, no actor, no verb, an unknown verb, too
/// few or too many arguments, and then the first faulty argument from left to right.
#[tactic(auto, unfolding(crate::specs::Lines::read_of))]
pub fn read_line(alloc: Global, line: &[u8]) -> Result<Command, Refused<LineError>>
    ensures { Gives result (read_of line.now) }
{
    if line.len() > MAX_LINE_BYTES {
        return Err(Refused::Fault(too_long()));
    }
    let (first, rest) = cut_at(line, b' ');
    match read_number(first, u64::from(u32::MAX)) {
        Some(actor) => read_line_by(alloc, actor as u32, Args::of(rest)),
        None => Err(Refused::Fault(LineError::Bad {
            actor: 0,
            bad: BadLine::NoActor,
        })),
    }
}
