//! The rows that a reload gives to a properties realm.

ghost use Rattle.std.specs.Prelude.{IsTrue, IfOk};
ghost use Rattle.ely_base.specs.Refused.{refused_as, Gives};
ghost use Rattle.ely_row.specs.declared.edit.EditFault.TheVariants.{Users, Groups};
ghost use Rattle.ely_row.specs.Creds.{mapped};
ghost use Rattle.ely_row.specs.Salts.{is_realm};
ghost use Rattle.ely_propfile.specs.Faults.{are_apart};
ghost use Rattle.ely_propfile.specs.Groups.{groups_of};
ghost use Rattle.ely_propfile.specs.Users.{users_of};
ghost use Rattle.ely_table.specs.Reloads.{text_rows, reload_rows};

use ely_base::{Bytes, Name, Refused};
use ely_propfile::{read_groups, read_users, rows_of};
use ely_row::{Edit, EditFault, Row, StoredCred, Values};
use std::alloc::Global;

/// The users of a text, with their fault as one of an edit.
fn users_of(
    alloc: Global,
    plain: bool,
    fallback: &[u8],
    text: &[u8],
) -> Result<Vec<(Name, StoredCred)>, Refused<EditFault>>
    requires { IsTrue (is_realm fallback.now) }
    ensures exact { Gives (mapped (λ users. users.items) result)
        (refused_as Users (users_of plain fallback.now text.now)) }
    ensures apart { IfOk result (λ users. IsTrue (are_apart users.items)) }
{
    match read_users(alloc, text, fallback, plain) {
        Ok(users) => Ok(users),
        Err(Refused::NoMemory) => Err(Refused::NoMemory),
        Err(Refused::Fault(fault)) => Err(Refused::Fault(EditFault::Users(fault))),
    }
}

/// The groups of a text, with their fault as one of an edit.
fn groups_of(alloc: Global, text: &[u8]) -> Result<Vec<(Name, Values)>, Refused<EditFault>>
    ensures exact { Gives (mapped (λ groups. groups.items) result)
        (refused_as Groups (groups_of text.now)) }
    ensures apart { IfOk result (λ groups. IsTrue (are_apart groups.items)) }
{
    match read_groups(alloc, text) {
        Ok(groups) => Ok(groups),
        Err(Refused::NoMemory) => Err(Refused::NoMemory),
        Err(Refused::Fault(fault)) => Err(Refused::Fault(EditFault::Groups(fault))),
    }
}

/// The rows of two texts, or their first fault: that of the users comes first.
fn text_rows(
    alloc: Global,
    plain: bool,
    fallback: &[u8],
    users: &[u8],
    groups: &[u8],
) -> Result<Vec<(Name, Row)>, Refused<EditFault>>
    requires { IsTrue (is_realm fallback.now) }
    ensures exact { Gives (mapped (λ rows. rows.items) result)
        (text_rows plain fallback.now users.now groups.now) }
    ensures apart { IfOk result (λ rows. IsTrue (are_apart rows.items)) }
{
    let users = users_of(alloc, plain, fallback, users)?;
    let groups = groups_of(alloc, groups)?;
    Ok(rows_of(alloc, users, groups)?)
}

/// The rows that the edit gives to a properties realm, which takes reloads alone, or why it is refused.
pub fn read_rows(
    alloc: Global,
    plain: bool,
    fallback: &Bytes,
    edit: &Edit,
) -> Result<Vec<(Name, Row)>, Refused<EditFault>>
    requires { IsTrue (is_realm fallback.now) }
    ensures exact { Gives (mapped (λ rows. rows.items) result)
        (reload_rows plain fallback.now edit.now) }
    ensures apart { IfOk result (λ rows. IsTrue (are_apart rows.items)) }
{
    match edit {
        Edit::Reload { users, groups, .. } => {
            text_rows(
                alloc,
                plain,
                fallback.bytes(),
                users.bytes(),
                groups.bytes(),
            )
        }
        _ => Err(Refused::Fault(EditFault::ReadOnly)),
    }
}
