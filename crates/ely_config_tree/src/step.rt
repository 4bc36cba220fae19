//! The steps of a path, and the kinds of a fault.

use ely_base::Bytes;

/// One level of a path.
#[derive(Debug, Drop)]
pub enum Step {
    /// The member of that name.
    Member(Bytes),
    /// The item of that index, counted from 0.
    Index(u64),
}

/// What is wrong with a value.
#[derive(Clone, Copy, Debug, PartialEq, Eq)]
pub enum FaultKind {
    /// A member that must be there isn't.
    Missing,
    /// The value has another JSON type, or is a number that isn't held as a whole number of 64 bits.
    Kind,
    /// A number, a length or a text is out of its range, or rules nest too deep.
    Range,
    /// The object has no member of this name.
    Unknown,
}
