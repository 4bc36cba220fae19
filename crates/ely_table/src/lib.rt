//! The rows that the accepted edits made, as ordered maps beside the journal of those edits, so that no look-up walks the
//! journal. It stands on `ely_row`, on `ely_propfile` for the texts of a reload, and on `ely_base`; its definitions say which
//! edits a journal takes, and which of them touch what an answer rests on.
#![tactic(auto)]

mod class;
mod journal;
mod laws;
mod reload;
mod table;
mod tables;

pub use class::RealmClass;
pub use laws::rows_are_counted;
pub use tables::Tables;
