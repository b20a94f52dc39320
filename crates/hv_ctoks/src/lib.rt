//! One preprocessing token to a C token, and a C token to its spelling.
#![tactic(auto)]

mod conversion;
mod fault;
mod floating;
mod literal;
mod reserved;
mod spelling;

pub use conversion::convert;
pub use fault::TokenFault;
pub use reserved::ReservedNames;
pub use spelling::spell;

#[cfg(test)]
mod tests;
