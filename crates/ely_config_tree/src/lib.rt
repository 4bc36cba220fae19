//! The first fault of a JSON value that should be a configuration, and its place. It knows the shape of each value and the order
//! of the tests; it builds no values, and what one member says of another it leaves to others.
#![tactic(auto)]

mod fault;
mod laws;
mod leaves;
mod path;
mod shape;
mod step;
mod table;
mod walk;

pub use fault::TreeFault;
pub use laws::{faultless_arrays, faultless_objects, faultless_values, members_stand_in_order};
pub use path::push_path;
pub use step::{FaultKind, Step};
pub use walk::tree_fault;
