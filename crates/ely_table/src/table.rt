//! What is kept of one realm: the row of each of its names, and the number of the last edit of each.

ghost use Rattle.std.specs.Prelude.{◌≡◌, ◌<◌, ◌^◌, ℕ, List, Some, None, IsTrue, IfOk, IfErr, OnOk, OnErr};
ghost use Rattle.std.specs.BTreeMap.{get};
ghost use Rattle.std.specs.Map.{lookup};
ghost use Rattle.std.specs.Option.{option_copied, option_map};
ghost use Rattle.std.specs.Str.{bytes_eq};
ghost use Rattle.ely_row.specs.Edits.{name_of, row_fault};
ghost use Rattle.ely_row.specs.Rows.{name_cmp};
ghost use Rattle.ely_propfile.specs.Faults.{are_apart};
ghost use Rattle.ely_table.specs.Entries.{entry_row, given_entry, row_in, last_in, count_with, kept_own_fault, table_fault, kept_fault, IsTaken, IsReplaced, IsSameTable};
ghost use Rattle.ely_table.specs.Faults.{IsRefusal};
ghost use Rattle.ely_table.specs.Reloads.{is_class};

use crate::class::RealmClass;
use crate::reload::read_rows;
use ely_base::{Name, NoMemory, Refused};
use ely_row::{Edit, EditFault, Row, SharedRow, changed, row_fault};
use std::alloc::Global;
use std::collections::BTreeMap;

/// What is kept of a name: its row, where it has one, and the number of the last edit of it.
#[derive(Drop)]
pub struct Entry {
    pub row: Option<SharedRow>,
    pub last: u64,
}

/// A realm, what is kept of its names, how many of them have a row, and the number of its last reload, 0 where it had none.
/// The last edit of a name without an entry is that reload.
#[derive(Drop)]
pub struct Table {
    pub name: Name,
    pub class: RealmClass,
    pub entries: BTreeMap<Name, Entry>,
    pub rows: usize,
    pub reloaded: u64,
}

/// The row of an entry, where the name has an entry that has one.
pub fn entry_row(entry: Option<&Entry>) -> Option<&Row>
    ensures { option_copied result ≡ entry_row (option_copied entry.entry) }
{
    match entry {
        None => None,
        Some(entry) => match &entry.row {
            None => None,
            Some(shared) => Some(shared.row()),
        },
    }
}

/// The row of the name.
pub fn row_of<'a>(table: &'a Table, name: &Name) -> Option<&'a Row>
    ensures { option_copied result ≡ row_in (Some table.now) name.now }
{
    entry_row(table.entries.get(name))
}

/// The number of the last edit of the name; 0 where it was never edited.
pub fn last_of(table: &Table, name: &Name) -> u64
    ensures { result ≡ last_in (Some table.now) name.now }
{
    match table.entries.get(name) {
        None => table.reloaded,
        Some(entry) => entry.last,
    }
}

/// How many rows there are after an edit of one identity, where there were so many.
fn count_with(rows: usize, edit: &Edit) -> usize
    requires { count_with rows edit.now < 2 ^ 64 }
    ensures { result ≡ count_with rows edit.now }
{
    match edit {
        Edit::Add { .. } => rows + 1,
        Edit::Remove { .. } => rows.saturating_sub(1),
        _ => rows,
    }
}

/// The row, to be shared, where there is one.
fn shared(alloc: Global, row: Option<Row>) -> Result<Option<SharedRow>, NoMemory>
    ensures { IfOk result (λ shared. shared ≡ row) }
{
    match row {
        None => Ok(None),
        Some(row) => Ok(Some(SharedRow::new(alloc, row)?)),
    }
}

/// Makes an edit of one identity that has no fault, the one of this number. Where memory runs out, all stays as it was.
fn make(
    alloc: Global,
    table: &mut Table,
    name: &Name,
    edit: &Edit,
    number: u64,
) -> Result<(), NoMemory>
    requires name { name_of edit.now ≡ Some name.now }
    requires fault { row_fault table.old.rows (row_in (Some table.old) name.now) edit.now ≡ None }
    ensures ok { OnOk result (IsTaken table.old table.new edit.now number) }
    ensures err { OnErr result (IsSameTable table.old table.new) }
{
    let row = shared(alloc, changed(alloc, row_of(table, name), edit)?)?;
    let rows = count_with(table.rows, edit);
    let name = name.copy(alloc)?;
    table.entries.insert(name, Entry { row, last: number })?;
    table.rows = rows;
    Ok(())
}

/// Makes an edit of one identity, the one of this number, or says why it is refused. A reload is refused.
fn change(
    alloc: Global,
    table: &mut Table,
    edit: &Edit,
    number: u64,
) -> Result<(), Refused<EditFault>>
    ensures accepted { OnOk result (kept_own_fault table.old (name_of edit.now) edit.now ≡ None) }
    ensures refused { IfErr result (λ refusal. IsRefusal refusal
        (kept_own_fault table.old (name_of edit.now) edit.now)) }
    ensures ok { OnOk result (IsTaken table.old table.new edit.now number) }
    ensures err { OnErr result (IsSameTable table.old table.new) }
{
    let Some(name) = edit.name() else {
        return Err(Refused::Fault(EditFault::ReadOnly));
    };
    if let Some(fault) = row_fault(table.rows, row_of(table, name), edit) {
        return Err(Refused::Fault(fault));
    }
    make(alloc, table, name, edit, number)?;
    Ok(())
}

/// The rows, whose names differ, by their names, each as one that the edit of this number gave.
fn entries_of(
    alloc: Global,
    rows: Vec<(Name, Row)>,
    number: u64,
) -> Result<BTreeMap<Name, Entry>, NoMemory>
    requires { IsTrue (are_apart rows.items) }
    ensures { IfOk result (λ entries. (n : List ℕ)
        → get name_cmp entries n ≡ option_map (given_entry number) (lookup (bytes_eq n) rows.items)) }
{
    let mut entries = BTreeMap::new(alloc);
    for (name, row) in rows {
        let row = SharedRow::new(alloc, row)?;
        entries.insert(
            name,
            Entry {
                row: Some(row),
                last: number,
            },
        )?;
    }
    Ok(entries)
}

/// Puts the rows, whose names differ, in place of all that was kept: the reload of this number. Where memory runs out, all
/// stays as it was.
fn replace(
    alloc: Global,
    table: &mut Table,
    rows: Vec<(Name, Row)>,
    number: u64,
) -> Result<(), NoMemory>
    requires { IsTrue (are_apart rows.items) }
    ensures ok { OnOk result (IsReplaced table.old table.new rows.items number) }
    ensures err { OnErr result (IsSameTable table.old table.new) }
{
    let count = rows.len();
    let entries = entries_of(alloc, rows, number)?;
    table.entries = entries;
    table.rows = count;
    table.reloaded = number;
    Ok(())
}

/// Makes the edit, the one of this number, or says why it is refused. Where it is refused, and where memory runs out, all
/// stays as it was.
pub fn take(
    alloc: Global,
    table: &mut Table,
    edit: &Edit,
    number: u64,
) -> Result<(), Refused<EditFault>>
    requires { IsTrue (is_class table.old.class) }
    ensures accepted { OnOk result (kept_fault (Some table.old) edit.now ≡ None) }
    ensures refused { IfErr result (λ refusal. IsRefusal refusal
        (kept_fault (Some table.old) edit.now)) }
    ensures ok { OnOk result (IsTaken table.old table.new edit.now number) }
    ensures err { OnErr result (IsSameTable table.old table.new) }
{
    match &table.class {
        RealmClass::Modifiable => change(alloc, table, edit, number),
        RealmClass::Properties { plain, fallback } => {
            let rows = read_rows(alloc, *plain, fallback, edit)?;
            replace(alloc, table, rows, number)?;
            Ok(())
        }
        RealmClass::Composite => Err(Refused::Fault(EditFault::ReadOnly)),
    }
}
