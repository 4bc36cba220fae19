//! The texts of a properties realm: its users, each with the hash of a password or the password itself, and their groups.
//! It reads each text to its pairs or to its first faulty line, and makes the rows of both. It stands on `ely_row` for
//! credentials, values and rows, on `ely_hash` for the type of a digest, and on `ely_base`. It knows no realm and no journal.
#![tactic(auto)]

mod blank;
mod groups;
mod key;
mod laws;
mod lines;
mod pair;
mod part;
mod parts;
mod realm;
mod rows;
mod seen;
mod users;

pub use groups::read_groups;
pub use laws::{names_are_as_written, rows_are_by_name};
pub use rows::rows_of;
pub use users::read_users;
