//! Identities and the edits that make them: mechanisms, stored credentials, values of attributes, rows, sets of roles, and
//! which edits touch which places. It stands on `ely_base` and, for the type of a digest, on `ely_hash`; its definitions say what
//! a journal of edits makes of a name.
#![tactic(auto)]

mod change;
mod cred;
mod cut;
mod deps;
mod edit;
mod fault;
mod ha1;
mod laws;
mod mech;
mod params;
mod roles;
mod row;
mod salted;
mod sets;
mod shared;
mod values;

pub use change::{changed, row_fault};
pub use cred::{Credential, StoredCred, is_kind};
pub use deps::{Deps, touches};
pub use edit::{Edit, EditFault, PropFault};
pub use fault::CredFault;
pub use ha1::{Ha1, is_realm};
pub use laws::untouched_row_stays;
pub use mech::Mech;
pub use params::Params;
pub use roles::{Roles, is_among};
pub use row::Row;
pub use salted::{Salted, is_salt};
pub use sets::sets_are_their_names;
pub use shared::{RowSource, SharedRow};
pub use values::Values;
