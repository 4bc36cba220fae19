//! Where the identities of a realm come from: a realm of its own, or an aggregate of one realm for credentials and others for
//! attributes. It stands on `ely_row`; its definitions go by any function that gives rows.
#![tactic(auto)]

mod assembling;
mod laws;
mod plan;

pub use assembling::assemble;
pub use laws::{first_row_wins, identity_since, same_rows_same_identity, untouched_identity};
pub use plan::{RealmPlan, deps};
