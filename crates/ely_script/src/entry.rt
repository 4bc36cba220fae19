//! The entries of a history.

use ely_login::{CacheWord, Outcome, StepWord};

/// A step that was made: whose it is, of which of that actor's lines, counted from 1, and what it answered.
#[derive(Debug, Drop)]
pub struct Entry {
    /// Whose line it is.
    pub actor: u32,
    /// The number of the line among the actor's lines, from 1.
    pub line: u64,
    /// Which step it is.
    pub word: StepWord,
    /// What it answered.
    pub outcome: Outcome,
    /// What a cache had to do with it.
    pub cache: CacheWord,
}
