//! The way of a name to its place: a decoder, rules before and after the realm is chosen, the mapper that chooses the realm,
//! and the rule of that realm; and the bounds that rules keep to. It stands on `ely_base` alone, with the kit's `memchr` to
//! search and `sqlite_items` for rules in rules.
#![tactic(auto)]

mod applying;
mod bounds;
mod cut;
mod laws;
mod mapper;
mod pipeline;
mod place;
mod realm;
mod resolving;
mod rule;

pub use bounds::{MOST_LEVELS, MOST_MEMBERS};
pub use laws::{bounds_by_their_forms, first_place_is_first, rules_by_their_forms};
pub use mapper::RealmMapper;
pub use pipeline::Pipeline;
pub use place::{PipeFault, Place};
pub use resolving::resolve;
pub use rule::Rule;
