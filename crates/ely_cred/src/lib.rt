//! Keys derived of stored credentials: which credential of an identity serves a mechanism, the key that it gives, and
//! whether a password that is shown in the clear proves the identity. It stands on `ely_row` for the credentials and on
//! `ely_hash` for the hash functions.
#![tactic(auto)]

mod choosing;
mod derived;
mod guessing;
mod key;
mod salting;

pub use choosing::{choose, chosen_entry};
pub use derived::derive;
pub use guessing::guess;
pub use key::{Ready, ReadyKey};
