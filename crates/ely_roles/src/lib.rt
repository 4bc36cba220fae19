//! Role mappers: what makes a set of roles of a set of roles; and the roles of an identity. It
//! stands on `ely_row`, which has sets of names and identities, and on `sqlite_items` for mappers
//! inside mappers.
#![tactic(auto)]

mod apply;
mod bounds;
mod joining;
mod laws;
mod logical;
mod mapped;
mod mapper;
mod roles;

pub use apply::mapped_by;
pub use bounds::{MOST_LEVELS, MOST_MEMBERS};
pub use ely_row::Roles;
pub use laws::{
    bounds_by_their_forms, mappers_by_their_forms, members_affixed, members_constant,
    members_in_turn, members_joined, members_mapped, roles_by_their_mappers,
};
pub use mapper::{RoleMapper, SetOp};
pub use roles::roles_of;
