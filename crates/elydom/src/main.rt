//! The program: the words of its command line, its standard input and its standard output, handed to the top
//! call.
#![tactic(auto)]

ghost use Rattle.std.specs.Prelude.{◌≡◌, ◌<◌};

use ely_hash::Steps;
use ely_io::{StdSink, StdSource};
use ely_run::run;
use std::marker::Brand;
use std::process::ExitCode;
use std::sync::ledger::{Blank, Ledger};
use std::{env, io};

/// The exit status where the words are no command.
const NO_COMMAND: u8 = 2;

/// The words of the command line, the program's own name first. Words that aren't UTF-8 are no command, and
/// so no words.
fn words(rt: &HostRuntime) -> io::Result<Vec<String>> {
    let mut words = Vec::new(rt.alloc());
    let args = match env::args(rt) {
        Ok(args) => args,
        Err(error) if error.kind() == io::ErrorKind::InvalidData => return Ok(words),
        Err(error) => return Err(error),
    };
    for word in args {
        words.push(word)?;
    }
    Ok(words)
}

/// Runs the program with a counter of its own, which takes no bytes.
fn counted<L: Ledger>(rt: &HostRuntime, blank: Blank) -> u8
    requires name { blank.name ≡ L.name }
    requires parts { blank.parts ≡ L.parts }
    requires some { 0 < blank.parts }
{
    let Ok(words) = words(rt) else {
        return 1;
    };
    let mut source = StdSource::new(rt.stdin().lock());
    let mut sink = StdSink::new(rt.stdout());
    let mut steps = Steps::<L>::of(blank);
    run(rt.alloc(), &words, &mut source, &mut sink, &mut steps)
}

/// Says on standard error how the program is called. A failure of that is ignored.
fn say_usage(rt: &HostRuntime) {
    let _ = eprintln!(rt; "usage: elydom replay < SCRIPT");
    let _ = eprintln!(rt; "       elydom check < SCRIPT");
    let _ = eprintln!(rt; "The first line of SCRIPT is the configuration.");
}

fn main(rt: HostRuntime) -> ExitCode {
    let status = counted::<Brand>(&rt, Blank::new(1));
    if status == NO_COMMAND {
        say_usage(&rt);
    }
    ExitCode::from(status)
}
