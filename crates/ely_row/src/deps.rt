//! The places whose edits change an identity.

ghost use Rattle.std.specs.Prelude.{◌≡◌, ℕ, List, IfOk};
ghost use Rattle.ely_row.specs.Dependence.{touches};

use crate::edit::Edit;
use ely_base::{Name, NoMemory, copy_pairs};
use std::alloc::Global;
use std::marker::Model;

/// The places that an identity is made from, each a realm and a name there.
#[derive(Debug, Drop)]
pub struct Deps {
    places: Vec<(Name, Name)>,
}

impl Model for Deps {
    ghost Value = { List (List ℕ × List ℕ) };

    ghost view = { λ d. d.places.items };
}

impl Deps {
    /// Keeps the places. It takes no memory.
    pub fn of(places: Vec<(Name, Name)>) -> Deps
        ensures { result ≡ places.items }
    {
        Deps { places }
    }

    /// The places, in order.
    pub fn all(&self) -> &[(Name, Name)]
        ensures { result.now ≡ self.now }
    {
        self.places.as_slice()
    }

    /// Equal places.
    pub fn copy(&self, alloc: Global) -> Result<Deps, NoMemory>
        ensures { IfOk result (λ copy. copy ≡ self.now) }
    {
        Ok(Deps {
            places: copy_pairs(alloc, self.all())?,
        })
    }
}

/// Whether the edit changes one of the places: it is of the realm and the name of a pair.
pub fn touches(edit: &Edit, deps: &Deps) -> bool
    ensures { result ≡ touches edit.now deps.now }
{
    deps.all()
        .iter()
        .any(|place| edit.is_of(&place.0, &place.1))
}
