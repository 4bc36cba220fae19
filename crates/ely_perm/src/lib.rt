//! Permission rows: which texts are granted to a name with its roles. It stands on `ely_row`, which has sets of names.
#![tactic(auto)]

mod bounds;
mod grant;
mod laws;
mod mode;
mod permissions;
mod row;

pub use grant::implies;
pub use laws::{
    families_are_by_their_front, grants_otherwise, login_is_for_all, modes_by_their_rows,
    nothing_is_granted_without_a_row,
};
pub use mode::Mode;
pub use permissions::{Permissions, granted};
pub use row::PermRow;
