//! The typed parts of a configuration out of a JSON value. A part is there where the value has its form; what else a
//! configuration has to keep is asked elsewhere. It stands on the kit's `serde_json`, and on the crates that own the parts.
#![tactic(auto)]

mod laws;
mod members;
mod names;
mod params;
mod parts;
mod permissions;
mod pipelines;
mod realm_mappers;
mod realms;
mod role_mappers;
mod rules;

pub use laws::{an_empty_object_is_plain, the_pipeline_knows_the_realms};
pub use members::read_members;
