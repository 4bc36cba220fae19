//! Rows that several hold at once, and whoever has rows to share.

ghost use Rattle.std.specs.Prelude.{◌≡◌, ◌↔◌, ℕ, List, Option, IsTrue, IfOk};
ghost use Rattle.std.specs.Option.{option_copied};
ghost use Rattle.ely_row.specs.Rows.{Row};

use crate::row::Row;
use ely_base::{Name, NoMemory};
use std::alloc::Global;
use std::marker::Model;
use std::sync::Arc;

/// A row that isn't changed any more and may be held by many, seen as the row.
#[derive(Drop)]
pub struct SharedRow {
    row: Arc<Row>,
}

impl Model for SharedRow {
    ghost use Rattle.ely_row.specs.Rows.{Row};
    ghost use Rattle.std.specs.Arc.{arc_value};

    ghost Value = { Row };

    ghost view = { λ s. arc_value s.row };
}

impl SharedRow {
    /// The row, to be shared from now on.
    pub fn new(alloc: Global, row: Row) -> Result<SharedRow, NoMemory>
        ensures { IfOk result (λ shared. shared ≡ row) }
    {
        Ok(SharedRow {
            row: Arc::new(alloc, row)?,
        })
    }

    /// The same row, held once more. It can be refused as a copy of an `Arc` can, and copies nothing of the row.
    pub fn share(&self) -> Result<SharedRow, NoMemory>
        ensures { IfOk result (λ shared. shared ≡ self.now) }
    {
        Ok(SharedRow {
            row: Arc::try_clone(&self.row)?,
        })
    }

    /// The row.
    pub fn row(&self) -> &Row
        ensures { result.now ≡ self.now }
    {
        &self.row
    }

    /// Whether both are equal rows.
    pub fn same(&self, other: &SharedRow) -> bool
        ensures { IsTrue result ↔ (self.now ≡ other.now) }
    {
        self.row.same(&other.row)
    }
}

/// Whoever has rows by their realm and their name.
pub trait RowSource {
    /// The row of a name in a realm, where there is one.
    ghost rows: { Self → List ℕ → List ℕ → Option Row };

    /// The row of the name in the realm.
    fn row_now(&self, realm: &Name, name: &Name) -> Option<&Row>
        ensures { option_copied result ≡ rows self.now realm.now name.now };

    /// The same row, to be kept.
    fn row_shared(&self, realm: &Name, name: &Name) -> Result<Option<SharedRow>, NoMemory>
        ensures { IfOk result (λ row. row ≡ rows self.now realm.now name.now) };
}
