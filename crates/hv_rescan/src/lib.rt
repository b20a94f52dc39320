//! The machine of macro expansion, which is told what the names mean that it meets.
#![tactic(auto)]

mod arguments;
mod deeds;
mod draft;
mod front;
mod hides;
mod machine;
mod part;
mod paste;
mod pending;
mod scan;
mod shared;
mod spelling;
mod start;
mod states;
mod substitution;
mod token;

pub use machine::{Expansion, Machine, Run};
pub use pending::{Following, Pending};

#[cfg(test)]
mod tests;
