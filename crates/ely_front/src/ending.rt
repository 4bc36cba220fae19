//! How a mode ends, and the line that is written then.

ghost use Rattle.std.specs.Prelude.{◌≡◌, ◌≢◌, ◌≤◌, ◌++◌};
ghost use Rattle.ely_io.specs.Causes.{Rose};
ghost use Rattle.ely_front.specs.Ending.{status_of, stop_ending, stop_text, Closes};

use ely_base::Refused;
use ely_io::{LineFault, Sink, write_all};

pub(crate) const CONFIG_LIMIT_TEXT: [u8; 21] = *b"limit config 1048576\n";

/// How a mode ends.
#[derive(Clone, Copy, Debug, PartialEq, Eq)]
pub enum Ending {
    /// The input was read to its end, and all was written.
    Done,
    /// Memory ran out.
    NoMemory,
    /// The words of the command line are no command.
    Words,
    /// The first line is no configuration.
    Config,
    /// The source failed.
    Read,
    /// The sink failed.
    Write,
    /// The first line has more than 1,048,576 bytes.
    ConfigLimit,
    /// The reader took all the 2^40 bytes that it may take.
    BytesLimit,
}

impl Ending {
    /// The exit status of the program.
    pub fn status(self) -> u8
        ensures { result ≡ status_of self }
    {
        match self {
            Ending::Done => 0,
            Ending::NoMemory => 1,
            Ending::Words => 2,
            Ending::Config => 3,
            Ending::Read => 4,
            Ending::Write => 5,
            Ending::ConfigLimit | Ending::BytesLimit => 6,
        }
    }
}

/// Writes the text that belongs to an ending.
pub(crate) fn close<K: Sink>(sink: &mut K, text: &[u8], ending: Ending) -> Ending
    requires { ending ≢ Ending.Write }
    ensures ends { Closes (K.seen sink.old) (K.seen sink.new) text.now ending result }
    ensures later { (K.seen sink.old).faults ≤ (K.seen sink.new).faults }
    ensures write { result ≡ Ending.Write
        → Rose (K.seen sink.old).faults (K.seen sink.new).faults }
{
    match write_all(sink, text) {
        Ok(_) => ending,
        Err(_) => Ending::Write,
    }
}

/// How a mode ends where the reader of lines refused.
fn stop_ending(refused: Refused<LineFault>) -> Ending
    ensures { result ≡ stop_ending refused }
{
    match refused {
        Refused::NoMemory => Ending::NoMemory,
        Refused::Fault(LineFault::Read) => Ending::Read,
        Refused::Fault(LineFault::Spent) => Ending::BytesLimit,
    }
}

/// The text that is written then.
fn stop_text(refused: Refused<LineFault>) -> &'static [u8]
    ensures { result.now ≡ stop_text refused }
{
    match refused {
        Refused::NoMemory | Refused::Fault(LineFault::Read) => b"",
        Refused::Fault(LineFault::Spent) => b"limit bytes 1099511627776\n",
    }
}

/// Writes what was collected, and then what belongs to a refusal of the reader of lines.
pub(crate) fn stop<K: Sink>(sink: &mut K, out: &[u8], refused: Refused<LineFault>) -> Ending
    ensures ends { Closes (K.seen sink.old) (K.seen sink.new)
        (out.now ++ stop_text refused) (stop_ending refused) result }
    ensures write { result ≡ Ending.Write
        → Rose (K.seen sink.old).faults (K.seen sink.new).faults }
{
    if let Err(_) = write_all(sink, out) {
        return Ending::Write;
    }
    close(sink, stop_text(refused), stop_ending(refused))
}
