//! The message of the mechanism PLAIN (RFC 4616), read from its bytes. It stands on `ely_base` alone.
#![tactic(auto)]

mod message;

pub use message::{PlainFault, PlainMsg, read_plain};
