//! The top call of the program: its words are read, and the mode that they ask for is run over any source and
//! sink.
#![tactic(auto)]

mod program;

pub use program::run;
