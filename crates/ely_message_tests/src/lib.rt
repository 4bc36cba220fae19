//! Tests of the crates below the identities: names, bytes and texts, streams and hashes, the messages of the mechanisms, and the lines of
//! a script.
#![tactic(auto)]

#[cfg(test)]
mod base;
#[cfg(test)]
mod digest;
#[cfg(test)]
mod digest_msg;
#[cfg(test)]
mod hash;
#[cfg(test)]
mod io;
#[cfg(test)]
mod plain;
#[cfg(test)]
mod scram;
#[cfg(test)]
mod scram_msg;
#[cfg(test)]
mod script;
