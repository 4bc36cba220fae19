//! What succeed hands out. It is made when a login is authorized, so that succeed takes no memory.

use ely_base::Version;
use ely_pipeline::Place;
use ely_row::Roles;

/// The identity of a login as of the version that it pinned.
#[derive(Drop)]
pub struct Prepared {
    pub version: Version,
    pub place: Place,
    pub roles: Roles,
}
