//! The rows that users and their groups make.

ghost use Rattle.std.specs.Prelude.{◌≡◌, ℕ, List, IsTrue, IfOk};
ghost use Rattle.std.specs.BTreeMap.{get};
ghost use Rattle.std.specs.Map.{lookup};
ghost use Rattle.std.specs.Str.{bytes_eq};
ghost use Rattle.ely_row.specs.Rows.{name_cmp};
ghost use Rattle.ely_propfile.specs.Faults.{are_apart};
ghost use Rattle.ely_propfile.specs.Rows.{user_row, rows_of};

use ely_base::{Name, NoMemory};
use ely_row::{Row, StoredCred, Values};
use std::alloc::Global;
use std::collections::BTreeMap;

/// The slot of a user's credential.
const SLOT: u8 = 1;

/// The groups of each name.
fn by_name(alloc: Global, groups: Vec<(Name, Values)>) -> Result<BTreeMap<Name, Values>, NoMemory>
    requires { IsTrue (are_apart groups.items) }
    ensures { IfOk result (λ names. (n : List ℕ)
        → get name_cmp names n ≡ lookup (bytes_eq n) groups.items) }
{
    let mut names = BTreeMap::new(alloc);
    for (name, values) in groups {
        names.insert(name, values)?;
    }
    Ok(names)
}

/// The row of a credential and groups.
fn user_row(alloc: Global, cred: StoredCred, groups: Option<Values>) -> Result<Row, NoMemory>
    ensures { IfOk result (λ row. row ≡ user_row cred groups) }
{
    let row = Row::new(alloc).with(SLOT, cred)?;
    match groups {
        None => Ok(row),
        Some(values) => {
            let attr = Name::of(Vec::from_slice(alloc, b"groups")?);
            Ok(row.with_attr(attr, values)?)
        }
    }
}

/// The row of each user, in their order: the credential in slot 1, and the user's groups, where there are some, as the
/// attribute `groups`. Groups of a name that is no user are dropped. No two users have one name, and no two of the groups.
pub fn rows_of(
    alloc: Global,
    users: Vec<(Name, StoredCred)>,
    groups: Vec<(Name, Values)>,
) -> Result<Vec<(Name, Row)>, NoMemory>
    requires users { IsTrue (are_apart users.items) }
    requires groups { IsTrue (are_apart groups.items) }
    ensures { IfOk result (λ rows. rows.items ≡ rows_of users.items groups.items) }
{
    let mut left = by_name(alloc, groups)?;
    let mut rows = Vec::new(alloc);
    for (name, cred) in users {
        let row = user_row(alloc, cred, left.remove(&name))?;
        rows.push((name, row))?;
    }
    Ok(rows)
}
