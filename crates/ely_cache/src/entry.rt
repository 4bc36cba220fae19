//! What is kept.

use ely_base::Name;
use ely_cred::Ready;
use ely_row::{Deps, Mech};

/// A key that was derived for a name and a mechanism, with the places that it rests on.
#[derive(Debug, Drop)]
pub struct Entry {
    pub name: Name,
    pub mech: Mech,
    pub ready: Ready,
    pub deps: Deps,
}
