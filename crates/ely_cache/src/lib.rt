//! A bounded cache of derived keys, by name and mechanism, in the order of their last use. An entry goes as soon as an edit
//! touches a place that it rests on, or reloads its realm; a reverse index finds such entries without passing over the others.
//! `Caches` has one such cache for each caching realm. The crate stands on `ely_cred` and `ely_row`; `lru` orders the entries
//! under small numbers, so that dropping takes no memory.
#![tactic(auto)]

mod cache;
mod caches;
mod codes;
mod entry;
mod laws;
mod resting;
mod slots;

pub use cache::{Cache, Offered};
pub use caches::{Caches, Peeked, RealmCache};
pub use entry::Entry;
pub use laws::codes_tell_apart;
