//! One row of permissions.

ghost use Rattle.std.specs.Prelude.{◌≡◌, IfOk};
ghost use Rattle.std.specs.List.{list_any};
ghost use Rattle.ely_row.specs.Sets.{is_among};
ghost use Rattle.ely_perm.specs.Grants.{matches, grants};

use crate::grant::implies;
use ely_base::{Bytes, Items, Name, NoMemory, copy_names};
use ely_row::{Roles, is_among};
use std::alloc::Global;

/// A row: whom it is for, and the texts that it grants.
#[derive(Debug, Drop)]
pub struct PermRow {
    /// Names that the row is for.
    pub principals: Items<Name>,
    /// Roles that the row is for.
    pub roles: Items<Name>,
    /// Whether the row is for everybody.
    pub match_all: bool,
    /// The granted texts.
    pub grant: Items<Bytes>,
}

/// Whether one of the names is a role of the set.
fn has_any(roles: &Roles, names: &[Name]) -> bool
    ensures { result ≡ list_any (is_among roles.now) names.now }
{
    names.iter().any(|name| roles.has(name))
}

/// Equal texts, in the same order.
fn copy_texts(alloc: Global, texts: &[Bytes]) -> Result<Vec<Bytes>, NoMemory>
    ensures { IfOk result (λ copy. copy.items ≡ texts.now) }
{
    let mut copy = Vec::new(alloc);
    for text in texts {
        copy.push(text.copy(alloc)?)?;
    }
    Ok(copy)
}

impl PermRow {
    /// Whether the row is for the name with its roles.
    pub(crate) fn matches(&self, name: &Name, roles: &Roles) -> bool
        ensures { result ≡ matches name.now roles.now self.now }
    {
        self.match_all || is_among(self.principals.all(), name) || has_any(roles, self.roles.all())
    }

    /// Whether one of the row's texts implies the wanted one.
    pub(crate) fn grants(&self, wanted: &[u8]) -> bool
        ensures { result ≡ grants wanted.now self.now }
    {
        self.grant
            .all()
            .iter()
            .any(|grant| implies(grant.bytes(), wanted))
    }

    /// An equal row.
    pub fn copy(&self, alloc: Global) -> Result<PermRow, NoMemory>
        ensures { IfOk result (λ copy. copy ≡ self.now) }
    {
        Ok(PermRow {
            principals: Items::of(copy_names(alloc, self.principals.all())?),
            roles: Items::of(copy_names(alloc, self.roles.all())?),
            match_all: self.match_all,
            grant: Items::of(copy_texts(alloc, self.grant.all())?),
        })
    }
}
