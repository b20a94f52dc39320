//! The definitions that the promises of Hercules are stated by, for controlling expressions, small
//! sources and small programs, and the plain functions that compute them.
#![tactic(auto)]

mod controlling;
mod episode;
mod gathering;
mod numeral;
mod small;

pub use controlling::{Operand, Symbol, Unary};
pub use episode::{RunEnd, face_decides};
pub use gathering::builtin_header;
pub use numeral::byte_of;
pub use small::small_run;

#[cfg(test)]
mod tests;
