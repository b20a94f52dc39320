//! What the words of a call mean: the command, its files, folders and configuration.
#![tactic(auto)]

mod command;
mod description;
mod folders;
mod words;

pub use command::{Command, Sources};
pub use words::read_words;

#[cfg(test)]
mod tests;
