//! Lines and histories over the domain: the steps that a line asks for, which histories of a script are legal, when a login is
//! ready to succeed, and who gets in. Its laws hold in whatever order the actors take turns.
#![tactic(auto)]

mod laws;
mod part;

pub use laws::who_gets_in;
pub use part::{Part, actor_of, event_of, part_at};
