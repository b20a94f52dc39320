//! The lines of one file as pieces, which directive a line is, and what `#define`, `#undef` and
//! `#include` lines say (ISO/IEC 9899:1999, 6.10).
#![tactic(auto)]

mod definition;
mod directive;
mod header;
mod name;
mod parameter_set;
mod parameters;
mod piece;
mod replacement;

pub use definition::{Definition, definition_on};
pub use directive::{Action, Conditional, Directive, Question, directive_on};
pub use header::{Header, header_on};
pub use name::undefined_name;
pub use piece::{Piece, pieces};

#[cfg(test)]
mod tests;
