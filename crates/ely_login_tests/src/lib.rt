//! Tests of the crates of logins: caches, the logins that are open, and the work that is done outside the domain.
#![tactic(auto)]

#[cfg(test)]
mod cache;
#[cfg(test)]
mod context;
#[cfg(test)]
mod job;
