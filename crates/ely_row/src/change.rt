//! What an edit makes of an identity, and why one is refused.

ghost use Rattle.std.specs.Prelude.{◌≡◌, Some, None, IfOk, IfSome, if◌then◌else◌};
ghost use Rattle.std.specs.Option.{option_copied};
ghost use Rattle.ely_row.specs.Edits.{changed, fault_there, fault_absent, row_fault};

use crate::edit::{Edit, EditFault};
use crate::row::Row;
use ely_base::NoMemory;
use std::alloc::Global;

/// The most identities of a realm.
const MOST_ROWS: usize = 65536;

/// What an edit that may be made makes of the identity.
fn changed_row(alloc: Global, row: &Row, edit: &Edit) -> Result<Option<Row>, NoMemory>
    requires { fault_there row.now edit.now ≡ None }
    ensures { IfOk result (λ after. after ≡ changed edit.now (Some row.now)) }
{
    match edit {
        Edit::Add { .. } => Ok(Some(Row::new(alloc))),
        Edit::Remove { .. } => Ok(None),
        Edit::SetCred { slot, cred, .. } => {
            let cred = cred.copy(alloc)?;
            Ok(Some(row.copy(alloc)?.with(*slot, cred)?))
        }
        Edit::DropCred { slot, .. } => Ok(Some(row.copy(alloc)?.without(*slot))),
        Edit::SetAttr { attr, values, .. } => {
            let attr = attr.copy(alloc)?;
            let values = values.copy(alloc)?;
            Ok(Some(row.copy(alloc)?.with_attr(attr, values)?))
        }
        Edit::DropAttr { attr, .. } => Ok(Some(row.copy(alloc)?.without_attr(attr))),
        Edit::Reload { .. } => Ok(None),
    }
}

/// What an edit makes of a name that has no identity.
fn made(alloc: Global, edit: &Edit) -> Option<Row>
    ensures { result ≡ changed edit.now None }
{
    match edit {
        Edit::Add { .. } => Some(Row::new(alloc)),
        _ => None,
    }
}

/// What an edit that may be made makes of the identity that it names, or of a name that has none; a reload, whose texts are
/// read elsewhere, leaves nothing of one. What it made is new.
pub fn changed(alloc: Global, row: Option<&Row>, edit: &Edit) -> Result<Option<Row>, NoMemory>
    requires { IfSome (option_copied row) (λ r. fault_there r edit.now ≡ None) }
    ensures { IfOk result (λ after. after ≡ changed edit.now (option_copied row.entry)) }
{
    match row {
        None => Ok(made(alloc, edit)),
        Some(row) => changed_row(alloc, row, edit),
    }
}

/// Why the edit of an identity that is there is refused.
fn fault_there(row: &Row, edit: &Edit) -> Option<EditFault>
    ensures { result ≡ fault_there row.now edit.now }
{
    match edit {
        Edit::Add { .. } => Some(EditFault::Exists),
        Edit::Remove { .. } => None,
        Edit::SetCred { slot, .. } => unless(row.has_cred_room(*slot), EditFault::CredsFull),
        Edit::DropCred { slot, .. } => unless(row.has_cred(*slot), EditFault::NoCred),
        Edit::SetAttr { attr, .. } => unless(row.has_attr_room(attr), EditFault::AttrsFull),
        Edit::DropAttr { attr, .. } => unless(row.has_attr(attr), EditFault::NoAttr),
        Edit::Reload { .. } => None,
    }
}

/// The fault, unless that holds.
fn unless(holds: bool, fault: EditFault) -> Option<EditFault>
    ensures { result ≡ (if holds then None else Some fault) }
{
    if holds { None } else { Some(fault) }
}

/// Why the edit of an identity that isn't there is refused, where its realm has so many identities.
fn fault_absent(count: usize, edit: &Edit) -> Option<EditFault>
    ensures { result ≡ fault_absent count edit.now }
{
    match edit {
        Edit::Add { .. } => unless(count < MOST_ROWS, EditFault::RowsFull),
        _ => Some(EditFault::Absent),
    }
}

/// Why the edit of this identity, or of a name that has none, is refused, where its realm has so many identities.
pub fn row_fault(count: usize, row: Option<&Row>, edit: &Edit) -> Option<EditFault>
    ensures { result ≡ row_fault count (option_copied row.entry) edit.now }
{
    match row {
        None => fault_absent(count, edit),
        Some(row) => fault_there(row, edit),
    }
}
