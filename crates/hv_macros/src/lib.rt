//! What each name means to the preprocessor under all configurations.
#![tactic(auto)]

mod alternatives;
mod beginnings;
mod tables;

pub use alternatives::Alternative;
pub use hv_toks::{Body, Meaning};
pub use tables::MacroTable;

#[cfg(test)]
mod tests;
