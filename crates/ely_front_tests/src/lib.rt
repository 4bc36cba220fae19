//! Tests of the whole below the program: scripts as the program reads them, and scripts and steps under configurations of every
//! kind.
#![tactic(auto)]

#[cfg(test)]
mod caching;
#[cfg(test)]
mod config;
#[cfg(test)]
mod making;
#[cfg(test)]
mod rules;
#[cfg(test)]
mod scripts;
