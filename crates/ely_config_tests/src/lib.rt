//! Tests of the crates that read a configuration: the first fault of a tree, the parts that are built of JSON, and whole lines.
#![tactic(auto)]

#[cfg(test)]
mod json;
#[cfg(test)]
mod lines;
#[cfg(test)]
mod tree;
