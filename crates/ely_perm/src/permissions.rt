//! The permissions of a domain.

ghost use Rattle.std.specs.Prelude.{◌≡◌, IfOk};
ghost use Rattle.std.specs.Option.{option_to_list};
ghost use Rattle.ely_perm.specs.Modes.{decided};
ghost use Rattle.ely_perm.specs.Grants.{granted, login_for_all};

use crate::mode::Mode;
use crate::row::PermRow;
use ely_base::{Bytes, Items, Name, NoMemory};
use ely_row::Roles;
use std::alloc::Global;

/// Rows, and how the answers of those that match are taken together.
#[derive(Debug, Drop)]
pub struct Permissions {
    /// How the answers are taken together.
    pub mode: Mode,
    /// The rows, in order.
    pub rows: Items<PermRow>,
}

/// Equal rows, in the same order.
fn copy_rows(alloc: Global, rows: &[PermRow]) -> Result<Vec<PermRow>, NoMemory>
    ensures { IfOk result (λ copy. copy.items ≡ rows.now) }
{
    let mut copy = Vec::new(alloc);
    for row in rows {
        copy.push(row.copy(alloc)?)?;
    }
    Ok(copy)
}

impl Permissions {
    /// One row, which is for everybody and grants `login`.
    pub fn login_for_all(alloc: Global) -> Result<Permissions, NoMemory>
        ensures { IfOk result (λ perms. perms ≡ login_for_all) }
    {
        let mut grant = Vec::new(alloc);
        grant.push(Bytes::copy_of(alloc, b"login")?)?;
        let mut rows = Vec::new(alloc);
        rows.push(PermRow {
            principals: Items::of(Vec::new(alloc)),
            roles: Items::of(Vec::new(alloc)),
            match_all: true,
            grant: Items::of(grant),
        })?;
        Ok(Permissions {
            mode: Mode::First,
            rows: Items::of(rows),
        })
    }

    /// Equal permissions.
    pub fn copy(&self, alloc: Global) -> Result<Permissions, NoMemory>
        ensures { IfOk result (λ copy. copy ≡ self.now) }
    {
        Ok(Permissions {
            mode: self.mode,
            rows: Items::of(copy_rows(alloc, self.rows.all())?),
        })
    }
}

/// The one answer that stands for those of all rows that match; none where no row matches.
fn answer(perms: &Permissions, name: &Name, roles: &Roles, wanted: &[u8]) -> Option<bool>
    ensures { decided perms.now.mode (option_to_list result)
        ≡ granted perms.now name.now roles.now wanted.now }
{
    let mut so_far = None;
    for row in perms.rows.all() {
        if row.matches(name, roles) {
            let next = row.grants(wanted);
            so_far = match so_far {
                None => Some(next),
                Some(before) => Some(perms.mode.taken(before, next)),
            };
        }
    }
    so_far
}

/// Whether the wanted text, which may be any bytes, is granted to the name with its roles: what the mode makes of the answers of
/// the rows that match, in their order. It takes no memory.
pub fn granted(perms: &Permissions, name: &Name, roles: &Roles, wanted: &[u8]) -> bool
    ensures { result ≡ granted perms.now name.now roles.now wanted.now }
{
    answer(perms, name, roles, wanted).unwrap_or(false)
}
