//! Conditions: Boolean functions of a fixed number of variables, kept as reduced ordered binary
//! decision diagrams, so that equal functions are one node.
#![tactic(auto)]

mod complements;
mod conditions;
mod connectives;
mod joins;
mod meetings;
mod nodes;
mod orders;
mod paths;
mod places;
mod results;
mod stores;

pub use conditions::{Cond, Node};
pub use stores::Store;

#[cfg(test)]
mod tests;
