//! The words of the command line, read as what the program is asked to do. It alone names the kit's `clap`,
//! and it stands on `ely_base` for the answer of a call that takes memory. What a mode does is left to the
//! crates above.
#![tactic(auto)]

mod asked;
mod command_line;

pub use asked::{Asked, read_asked};
pub use command_line::NoCommand;
