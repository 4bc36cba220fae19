//! The tables that the accepted edits made, with the journal of those edits.

ghost use Rattle.std.specs.Prelude.{◌≡◌, ◌+◌, ◌-◌, ◌≤◌, IsTrue, [], length, slice_get, IfOk, IfErr, OnOk, OnErr};
ghost use Rattle.std.specs.List.{list_all};
ghost use Rattle.std.specs.Option.{option_copied};
ghost use Rattle.ely_row.specs.Edits.{row};
ghost use Rattle.ely_table.specs.Faults.{are_apart, has_realm, texts_of, fault, IsAccepted, IsRefusal, recorded};
ghost use Rattle.ely_table.specs.Touching.{touched_since};
ghost use Rattle.ely_table.specs.Kept.{realms_of, AreEmpty};

use crate::class::RealmClass;
use crate::journal::{any_later, record, row_of, row_shared};
use crate::table::Table;
use ely_base::{Name, NoMemory, Refused, Version};
use ely_row::{Deps, Edit, EditFault, Row, RowSource, SharedRow};
use std::alloc::Global;
use std::collections::BTreeMap;
use std::marker::Model;

/// Realms with the rows that the accepted edits made of their names, as ordered maps, and the journal of those edits. They
/// are seen as the realms with their classes, the most edits that the journal takes, and the edits.
#[derive(Drop)]
pub struct Tables {
    tables: Vec<Table>,
    limit: u32,
    journal: Vec<Edit>,
}

impl Model for Tables {
    ghost use Rattle.ely_table.specs.Faults.{Tables};
    ghost use Rattle.ely_table.specs.Kept.{realms_of, IsRecord};

    ghost Value = { Tables };

    ghost view = { λ t. record { realms = realms_of t.tables.items; limit = t.limit; journal = t.journal.items } };

    ghost invariant = { λ t. IsRecord t.limit t.tables.items t.journal.items };
}

/// A table without rows for each realm.
fn empty_tables(alloc: Global, realms: Vec<(Name, RealmClass)>) -> Result<Vec<Table>, NoMemory>
    ensures realms { IfOk result (λ tables. realms_of tables.items ≡ realms.items) }
    ensures empty { IfOk result (λ tables. AreEmpty tables.items) }
{
    let mut tables = Vec::new(alloc);
    for (name, class) in realms {
        tables.push(Table {
            name,
            class,
            entries: BTreeMap::new(alloc),
            rows: 0,
            reloaded: 0,
        })?;
    }
    Ok(tables)
}

impl Tables {
    /// Tables of these realms, whose names differ, without edits. The fallback of each properties realm is a Digest realm.
    /// Their journal takes this many.
    pub fn new(
        alloc: Global,
        realms: Vec<(Name, RealmClass)>,
        journal_limit: u32,
    ) -> Result<Tables, NoMemory>
        requires apart { IsTrue (are_apart realms.items) }
        requires fallbacks { IsTrue (list_all has_realm realms.items) }
        requires some { 1 ≤ journal_limit }
        requires most { journal_limit ≤ 131072 }
        ensures { IfOk result (λ tables. tables
            ≡ record { realms = realms.items; limit = journal_limit; journal = [] }) }
    {
        Ok(Tables {
            tables: empty_tables(alloc, realms)?,
            limit: journal_limit,
            journal: Vec::new(alloc),
        })
    }

    /// Makes the edit, or says the first reason against it. The answer is how many edits there are then. Where it is
    /// refused, and where memory runs out, nothing is changed.
    pub fn apply(&mut self, alloc: Global, edit: Edit) -> Result<Version, Refused<EditFault>>
        ensures version { IfOk result (λ version. version ≡ length self.old.journal + 1) }
        ensures accepted { OnOk result
            (fault self.old.realms self.old.limit self.old.journal edit ≡ None) }
        ensures after { OnOk result (self.new ≡ recorded self.old edit) }
        ensures refused { IfErr result (λ refusal. IsRefusal refusal
            (fault self.old.realms self.old.limit self.old.journal edit)) }
        ensures err { OnErr result (self.new ≡ self.old) }
    {
        if self.journal.len() >= self.limit as usize {
            return Err(Refused::Fault(EditFault::JournalFull(self.limit)));
        }
        record(alloc, &mut self.tables, &mut self.journal, edit)?;
        Ok(Version(self.journal.len() as u64))
    }

    /// How many edits were accepted.
    pub fn version(&self) -> Version
        ensures value { result ≡ length self.now.journal }
        ensures within { length self.now.journal ≤ self.now.limit }
        ensures few { self.now.limit ≤ 131072 }
        ensures accepted { IsAccepted self.now.realms self.now.limit self.now.journal }
    {
        Version(self.journal.len() as u64)
    }

    /// The last edit that was accepted.
    pub fn last(&self) -> Option<&Edit>
        ensures { option_copied result ≡ slice_get self.now.journal (length self.now.journal - 1) }
    {
        self.journal.last()
    }

    /// Whether an edit after that version changes one of the places.
    pub fn touched_since(&self, v: Version, deps: &Deps) -> bool
        requires { v ≤ length self.now.journal }
        ensures { result ≡ touched_since self.now.journal v deps.now }
    {
        any_later(&self.tables, v.0, deps)
    }
}

impl RowSource for Tables {
    ghost rows = { λ t r n. row (texts_of t.realms) t.journal r n };

    fn row_now(&self, realm: &Name, name: &Name) -> Option<&Row> {
        row_of(&self.tables, realm, name)
    }

    fn row_shared(&self, realm: &Name, name: &Name) -> Result<Option<SharedRow>, NoMemory> {
        row_shared(&self.tables, realm, name)
    }
}
