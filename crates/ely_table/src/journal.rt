//! All realms and the journal: how a realm is found in them, and how an edit is made in all of them or in none.

ghost use Rattle.std.specs.Prelude.{◌≡◌, ◌+◌, ◌<◌, ◌^◌, IsTrue, [], ◌∷◌, ◌++◌, length, nat_lt, position, vec_len, None, IfOk, IfErr, OnOk, OnErr};
ghost use Rattle.std.specs.List.{list_any, list_all};
ghost use Rattle.std.specs.Vec.{vec_capacity};
ghost use Rattle.std.specs.Option.{option_copied};
ghost use Rattle.std.specs.Str.{bytes_eq};
ghost use Rattle.ely_row.specs.Edits.{realm_of};
ghost use Rattle.ely_table.specs.Entries.{kept_fault, entry_row};
ghost use Rattle.ely_table.specs.Faults.{has_realm, IsRefusal};
ghost use Rattle.ely_table.specs.Kept.{realms_of, table_of, row_of, last_of, IsStep, IsSame};

use crate::table::{self, Entry, Table, entry_row, take};
use ely_base::{Name, NoMemory, Refused};
use ely_row::{Deps, Edit, EditFault, Row, SharedRow};
use std::alloc::Global;

/// The table of the realm.
pub fn table_of<'a>(tables: &'a [Table], realm: &Name) -> Option<&'a Table>
    ensures { option_copied result ≡ table_of tables.now realm.now }
{
    tables.iter().find(|table| table.name.is(realm))
}

/// The index of the table of the realm.
fn index_of(tables: &[Table], realm: &Name) -> Option<usize>
    ensures { result ≡ position (λ table. bytes_eq table.name realm.now) tables.now }
{
    tables.iter().position(|table| table.name.is(realm))
}

/// What is kept of the name in the realm.
fn entry_of<'a>(tables: &'a [Table], realm: &Name, name: &Name) -> Option<&'a Entry>
    ensures { entry_row (option_copied result) ≡ row_of tables.now realm.now name.now }
{
    table_of(tables, realm)?.entries.get(name)
}

/// The row of the name in the realm.
pub fn row_of<'a>(tables: &'a [Table], realm: &Name, name: &Name) -> Option<&'a Row>
    ensures { option_copied result ≡ row_of tables.now realm.now name.now }
{
    entry_row(entry_of(tables, realm, name))
}

/// The row of the name in the realm, held once more.
pub fn row_shared(
    tables: &[Table],
    realm: &Name,
    name: &Name,
) -> Result<Option<SharedRow>, NoMemory>
    ensures { IfOk result (λ row. row ≡ row_of tables.now realm.now name.now) }
{
    match entry_of(tables, realm, name) {
        None => Ok(None),
        Some(entry) => match &entry.row {
            None => Ok(None),
            Some(shared) => Ok(Some(shared.share()?)),
        },
    }
}

/// The number of the last edit of the name in the realm; 0 where it was never edited.
fn last_of(tables: &[Table], realm: &Name, name: &Name) -> u64
    ensures { result ≡ last_of tables.now realm.now name.now }
{
    match table_of(tables, realm) {
        None => 0,
        Some(table) => table::last_of(table, name),
    }
}

/// Whether one of the places was edited after the first `seen` edits.
pub fn any_later(tables: &[Table], seen: u64, deps: &Deps) -> bool
    ensures { result
        ≡ list_any (λ place. nat_lt seen (last_of tables.now place.0 place.1)) deps.now }
{
    deps.all()
        .iter()
        .any(|place| seen < last_of(tables, &place.0, &place.1))
}

/// Makes the edit in its table, the one of this number, or says why it is refused. Where it is refused, and where memory
/// runs out, all stays as it was.
fn put(
    alloc: Global,
    tables: &mut [Table],
    edit: &Edit,
    number: u64,
) -> Result<(), Refused<EditFault>>
    requires { IsTrue (list_all has_realm (realms_of tables.old)) }
    ensures accepted { OnOk result
        (kept_fault (table_of tables.old (realm_of edit.now)) edit.now ≡ None) }
    ensures refused { IfErr result (λ refusal. IsRefusal refusal
        (kept_fault (table_of tables.old (realm_of edit.now)) edit.now)) }
    ensures ok { OnOk result (IsStep tables.old tables.new edit.now number) }
    ensures err { OnErr result (IsSame tables.old tables.new) }
{
    let Some(at) = index_of(tables, edit.realm()) else {
        return Err(Refused::Fault(EditFault::NoRealm));
    };
    let table = &mut tables[at];
    take(alloc, table, edit, number)
}

/// Adds the edit to a journal that has room for it.
fn append(journal: &mut Vec<Edit>, edit: Edit)
    requires { vec_len journal.old < vec_capacity journal.old }
    ensures { journal.new.items ≡ journal.old.items ++ edit ∷ [] }
{
    match journal.push(edit) {
        Ok(()) => {}
        Err(_) => unreachable!(),
    }
}

/// Makes the edit, in its table and in the journal, or says why it is refused. Where it is refused, and where memory runs
/// out, all stays as it was.
pub fn record(
    alloc: Global,
    tables: &mut [Table],
    journal: &mut Vec<Edit>,
    edit: Edit,
) -> Result<(), Refused<EditFault>>
    requires realms { IsTrue (list_all has_realm (realms_of tables.old)) }
    requires few { length journal.old.items < 2 ^ 32 }
    ensures accepted { OnOk result (kept_fault (table_of tables.old (realm_of edit)) edit ≡ None) }
    ensures refused { IfErr result (λ refusal. IsRefusal refusal
        (kept_fault (table_of tables.old (realm_of edit)) edit)) }
    ensures journal { OnOk result (journal.new.items ≡ journal.old.items ++ edit ∷ []) }
    ensures tables { OnOk result
        (IsStep tables.old tables.new edit (length journal.old.items + 1)) }
    ensures journal_stays { OnErr result (journal.new.items ≡ journal.old.items) }
    ensures tables_stay { OnErr result (IsSame tables.old tables.new) }
{
    journal.reserve(1)?;
    put(alloc, tables, &edit, journal.len() as u64 + 1)?;
    append(journal, edit);
    Ok(())
}
