//! The expansion of macros under all configurations: one episode (ISO/IEC 9899:1999, 6.10.3), with
//! an outcome for each face of it.
#![tactic(auto)]

mod episodes;
mod expand;
mod lone;
mod moves;
mod outcome;
mod plain;
mod questions;

pub use expand::expand_episode;
pub use hv_plain::RunEnd;
pub use outcome::{Ending, ExpandFault, Expanded, Outcome};
pub use plain::{Entry, plain_episode};
