//! Roles: sets of names.

ghost use Rattle.std.specs.Prelude.{◌≡◌, [], IfOk};
ghost use Rattle.ely_row.specs.Sets.{as_set, is_among, IsSet};

use ely_base::{Items, Name, NoMemory, copy_names};
use std::alloc::Global;
use std::marker::Model;

/// A set of names, seen as the list of its names in the order of their bytes, each once.
#[derive(Debug, Drop)]
pub struct Roles {
    names: Items<Name>,
}

impl Model for Roles {
    ghost use Rattle.std.specs.Prelude.{ℕ, List};
    ghost use Rattle.ely_row.specs.Sets.{IsSet};

    ghost Value = { List (List ℕ) };

    ghost view = { λ r. r.names };

    ghost invariant = { λ r. IsSet r.names };
}

/// Whether the name is one of these.
pub fn is_among(names: &[Name], name: &Name) -> bool
    ensures { result ≡ is_among names.now name.now }
{
    names.iter().any(|one| one.is(name))
}

impl Roles {
    /// The names as a set, however often and in which order they stand. It takes no memory.
    pub fn of(names: Vec<Name>) -> Roles
        ensures { result ≡ as_set names.items }
    {
        let mut names = names;
        names.sort_unstable();
        names.dedup();
        Roles {
            names: Items::of(names),
        }
    }

    /// The names, in the order of their bytes.
    pub fn all(&self) -> &[Name]
        ensures value { result.now ≡ self.now }
        ensures set { IsSet result.now }
    {
        self.names.all()
    }

    /// Whether the name is one of the set.
    pub fn has(&self, name: &Name) -> bool
        ensures { result ≡ is_among self.now name.now }
    {
        self.all().binary_search(name).is_ok()
    }

    /// Equal roles.
    pub fn copy(&self, alloc: Global) -> Result<Roles, NoMemory>
        ensures { IfOk result (λ copy. copy ≡ self.now) }
    {
        Ok(Roles {
            names: Items::of(copy_names(alloc, self.all())?),
        })
    }
}
