//! The values of an attribute: 1 to 64 names in order.

ghost use Rattle.std.specs.Prelude.{◌≡◌, ◌↔◌, IsTrue, is_ok, IfOk, IfErr};
ghost use Rattle.ely_row.specs.Attributes.{is_values};

use ely_base::{Items, Name, NoMemory, copy_names};
use std::alloc::Global;
use std::marker::Model;

/// The most values of an attribute.
const MOST_VALUES: usize = 64;

/// The values of an attribute, in order: 1 to 64 names.
#[derive(Debug, Drop)]
pub struct Values {
    names: Items<Name>,
}

impl Model for Values {
    ghost use Rattle.std.specs.Prelude.{ℕ, List, IsTrue};
    ghost use Rattle.ely_row.specs.Attributes.{is_values};

    ghost Value = { List (List ℕ) };

    ghost view = { λ v. v.names };

    ghost invariant = { λ v. IsTrue (is_values v.names) };
}

/// Whether both are the same names, in the same order.
fn same_names(names: &[Name], other: &[Name]) -> bool
    ensures { IsTrue result ↔ (names.now ≡ other.now) }
{
    names == other
}

impl Values {
    /// Keeps the names as values. The list comes back exactly where it is empty or has more than 64 names. It takes no
    /// memory.
    pub fn read(names: Vec<Name>) -> Result<Values, Vec<Name>>
        ensures exact { is_ok result ≡ is_values names.items }
        ensures ok { IfOk result (λ values. values ≡ names.items) }
        ensures err { IfErr result (λ list. list ≡ names) }
    {
        if names.is_empty() || names.len() > MOST_VALUES {
            return Err(names);
        }
        Ok(Values {
            names: Items::of(names),
        })
    }

    /// The names, in order.
    pub fn all(&self) -> &[Name]
        ensures value { result.now ≡ self.now }
        ensures few { IsTrue (is_values result.now) }
    {
        self.names.all()
    }

    /// Equal values.
    pub fn copy(&self, alloc: Global) -> Result<Values, NoMemory>
        ensures { IfOk result (λ copy. copy ≡ self.now) }
    {
        Ok(Values {
            names: Items::of(copy_names(alloc, self.names.all())?),
        })
    }

    /// Whether both are equal.
    pub fn same(&self, other: &Values) -> bool
        ensures { IsTrue result ↔ (self.now ≡ other.now) }
    {
        same_names(self.names.all(), other.names.all())
    }
}
