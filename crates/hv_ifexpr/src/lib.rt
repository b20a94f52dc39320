//! The value of the controlling expression of `#if` and `#elif` (ISO/IEC 9899:1999, 6.10.1).
#![tactic(auto)]

mod constant;
mod expression;
mod fault;
mod frame;
mod machine;
mod reduce;
mod symbol;
mod values;

pub use expression::evaluate;
pub use fault::IfFault;

#[cfg(test)]
mod tests;
