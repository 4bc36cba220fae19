//! Where an identity stands, and why a name has no place.

ghost use Rattle.std.specs.Prelude.{◌≡◌, ◌↔◌, IsTrue, IfOk};

use ely_base::{Bytes, Name, NoMemory};
use std::alloc::Global;

/// A realm, and the name of an identity there.
#[derive(Debug, Drop)]
pub struct Place {
    pub realm: Name,
    pub name: Name,
}

impl Place {
    /// An equal place.
    pub fn copy(&self, alloc: Global) -> Result<Place, NoMemory>
        ensures { IfOk result (λ copy. copy ≡ self.now) }
    {
        Ok(Place {
            realm: self.realm.copy(alloc)?,
            name: self.name.copy(alloc)?,
        })
    }

    /// Whether both are equal.
    pub fn same(&self, other: &Place) -> bool
        ensures { IsTrue result ↔ (self.now ≡ other.now) }
    {
        self.realm == other.realm && self.name == other.name
    }
}

/// The first stage on the way from a name to its place that gives nothing.
#[derive(Debug, Drop)]
pub enum PipeFault {
    /// The decoder.
    Undecoded,
    /// The rule before the realm is chosen.
    PreRealm,
    /// The mapper: no realm has this name, which it gave.
    NoRealm(Bytes),
    /// The rule after the realm is chosen.
    PostRealm,
    /// The rule of the realm.
    RealmStep,
}
