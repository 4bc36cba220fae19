//! The lines of a script and the lines that are printed: commands, how a line is read, and how a step with its outcome is
//! printed. It knows no domain.
#![tactic(auto)]

mod args;
mod command;
mod edits;
mod entry;
mod limits;
mod line;
mod logins;
mod print;
mod print_fault;
mod print_outcome;
mod verbs;
mod word;

pub use command::{Command, LineError, Verb};
pub use entry::Entry;
pub use limits::{MAX_LINE_BYTES, MAX_NONCE_BYTES, MAX_PERMISSION_BYTES, MAX_SLOT};
pub use line::{read_line, too_long};
pub use print::{print_step, push_step};
pub use print_fault::{push_bad, push_prop};
pub use word::mech_word;
