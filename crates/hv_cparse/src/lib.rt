//! The parsing machine in code: its control, which says what a token does, and whether tokens are
//! an expression.
#![tactic(auto)]

mod class;
mod control;
mod declaration;
mod declarator;
mod expression;
mod fault;
mod frame;
mod frames;
mod initializer;
mod limits;
mod machine;
mod operand;
mod operator;
mod parameter;
mod part;
mod specifier;
mod statement;

pub use class::{Class, class_of};
pub use control::Control;
pub use expression::check_expression;
pub use fault::ParseFault;
pub use frame::{At, Frame, Mode, Owner};
pub use frames::Frames;
pub use limits::Limits;
pub use part::{Clause, Fixed, Part, Setting, Standing};

#[cfg(test)]
mod element_tests;
#[cfg(test)]
mod tests;
