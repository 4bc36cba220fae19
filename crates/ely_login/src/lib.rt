//! The vocabulary of logins: what a login says of itself and what it shows, the steps that are made, the states of a login, and
//! what a step answers. It reads nothing and prints nothing.
#![tactic(auto)]

mod claim;
mod outcome;
mod word;

pub use claim::{Claim, Evidence};
pub use outcome::{BadLine, Outcome};
pub use word::{CacheWord, StateWord, StepWord};
