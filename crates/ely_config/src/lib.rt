//! The configuration of a domain: the realm that Digest announces, how keys are derived of clear passwords, the way of names to
//! their places, the realms with their texts, role mappers and permissions. What a configuration has to keep stands in its type.
//! It stands on `ely_propfile`, which reads the texts, and on `ely_pipeline`, `ely_roles` and `ely_perm`.
#![tactic(auto)]

mod bounds;
mod config;
mod fault;
mod laws;
mod members;
mod realm;
mod realm_faults;
mod references;

pub use config::Config;
pub use fault::{ConfigFault, RealmFault, Reference};
pub use laws::{limits_are_kept, places_are_in_realms_that_are_there, references_are_there};
pub use members::Members;
pub use realm::{RealmConfig, RealmKind};
