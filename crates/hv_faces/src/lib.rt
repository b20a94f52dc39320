//! The configurations of a condition, gathered into classes that have one face: one run for each.
#![tactic(auto)]

mod class;
mod classes;
mod runs;

pub use class::{Class, ClassesFault};
pub use classes::find_classes;
pub use runs::Runs;

#[cfg(test)]
mod tests;
