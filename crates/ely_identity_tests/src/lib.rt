//! Tests of the crates of identities: rows and their edits, keys, tables, properties files, and realms that are made of others.
#![tactic(auto)]

#[cfg(test)]
mod aggregate;
#[cfg(test)]
mod cred;
#[cfg(test)]
mod propfile;
#[cfg(test)]
mod row;
#[cfg(test)]
mod table;
