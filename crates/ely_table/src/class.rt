//! What may be done to a realm.

ghost use Rattle.std.specs.Prelude.{◌≡◌, IfOk};

use ely_base::{Bytes, NoMemory};
use std::alloc::Global;

/// The class of a realm.
#[derive(Debug, Drop)]
pub enum RealmClass {
    /// Its identities are changed one by one.
    Modifiable,
    /// Its identities are those of two texts, and a reload of both replaces all of them. With `plain` passwords stand in the
    /// text of users as they are. `fallback` is the Digest realm of a text that names none.
    Properties { plain: bool, fallback: Bytes },
    /// It is made of other realms, and takes no edit.
    Composite,
}

impl RealmClass {
    /// An equal class.
    pub fn copy(&self, alloc: Global) -> Result<RealmClass, NoMemory>
        ensures { IfOk result (λ copy. copy ≡ self.now) }
    {
        match self {
            RealmClass::Modifiable => Ok(RealmClass::Modifiable),
            RealmClass::Properties { plain, fallback } => Ok(RealmClass::Properties {
                plain: *plain,
                fallback: fallback.copy(alloc)?,
            }),
            RealmClass::Composite => Ok(RealmClass::Composite),
        }
    }
}
