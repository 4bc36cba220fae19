//! What a call writes that reads no script.

ghost use Rattle.std.specs.Prelude.{◌≡◌};
ghost use Rattle.ely_io.specs.Causes.{Rose};
ghost use Rattle.ely_front.specs.Output.{WritesOut, IsWrittenOut};

use crate::ending::{Ending, close};
use ely_io::Sink;

/// Writes a text, and gives the exit status: 0 where it was written whole, and 5 where the sink failed.
pub fn write_out<K: Sink>(sink: &mut K, text: &[u8]) -> u8
    ensures text { WritesOut text.now (K.seen sink.old) (K.seen sink.new) result }
    ensures cause { result ≡ 5 → Rose (K.seen sink.old).faults (K.seen sink.new).faults }
    ensures complete { IsWrittenOut text.now (K.seen sink.old) (K.seen sink.new) result }
{
    close(sink, text, Ending::Done).status()
}
