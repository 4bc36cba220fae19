//! The configuration that a first line is: its JSON text is read, its tree is judged, and what one member says of another; else the
//! first fault is told with its path.
#![tactic(auto)]

mod fault;
mod laws;
mod place;
mod reading;
mod writing;

pub use fault::{TextFault, Wrong};
pub use laws::{faultless_trees_have_members, the_empty_line_is_no_json};
pub use reading::read_config;
pub use writing::push_fault;
