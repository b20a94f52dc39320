//! Trees and tokens of C as text: each token in its spelling by value, then a newline after `;`,
//! `{` and `}`, else one space.
#![tactic(auto)]

mod declaration;
mod declarator;
mod expr;
mod laws;
mod program;
mod specifier;
mod stmt;
mod token;
mod word;

pub use laws::keeps_tokens;
pub use program::print;
pub use token::print_tokens;

#[cfg(test)]
mod tests;
