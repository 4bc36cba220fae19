//! Tests of the crates of rules: what a name stands for, roles, permissions, and the configuration that holds them.
#![tactic(auto)]

#[cfg(test)]
mod config;
#[cfg(test)]
mod perm;
#[cfg(test)]
mod pipeline;
#[cfg(test)]
mod roles;
