//! Translation phases 6 and 7 (ISO/IEC 9899:1999, 5.1.1.2) under all configurations: what episodes
//! give becomes a stream of tokens of C, and adjacent string literals are joined.
#![tactic(auto)]

mod conversion;
mod joining;
mod literal;

pub use conversion::convert_all;
pub use joining::join_strings;

#[cfg(test)]
mod tests;
