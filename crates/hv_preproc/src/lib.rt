//! Preprocessing of a bundle (ISO/IEC 9899:1999, 6.10; 5.1.1.2, phases 1 to 7) under all
//! configurations.
#![tactic(auto)]

mod action;
mod candidate;
mod conditional;
mod fault;
mod groups;
mod headers;
mod open_file;
mod page;
mod question;
mod refusal;
mod source;
mod stream;
mod unit;
mod walk;

pub use fault::PreFault;
pub use headers::header_name;
pub use refusal::preprocess;
pub use stream::{preprocess_all, preprocess_parts};

#[cfg(test)]
mod tests;
