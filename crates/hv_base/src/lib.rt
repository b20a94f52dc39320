//! What every crate of Hercules speaks of: lists, texts, places in sources, tokens and operators of
//! C, configurations and the causes of refusals.
#![tactic(auto)]

mod ascii;
mod bundle;
mod config;
mod held;
mod keyword;
mod limits;
mod list;
mod memory;
mod operator;
mod place;
mod punct;
mod refusal;
mod stack;
mod status;
mod token;
mod why;

pub use ascii::{
    is_among, is_blank, is_digit, is_identifier_byte, is_letter, is_line_space, is_nondigit,
    is_printable,
};
pub use bundle::Bundle;
pub use config::Config;
pub use held::Held;
pub use keyword::Keyword;
pub use limits::{
    FIRST_HEADER_FILE, MOST_BRACKETS, MOST_BUNDLE_BYTES, MOST_EVENTS, MOST_FACES, MOST_FILE_BYTES,
    MOST_FOLDERS, MOST_GROUPS, MOST_INCLUDES, MOST_NAMES, MOST_OBJECT_BYTES, MOST_OPERATORS,
    MOST_OPTIONS, MOST_STATEMENTS, OPTIONS_FILE, PREDEFINED_FILE,
};
pub use list::{List, Text};
pub use memory::Memory;
pub use operator::BinaryOperator;
pub use place::{Place, Span, Start};
pub use punct::Punct;
pub use refusal::Refusal;
pub use stack::Stack;
pub use status::Status;
pub use token::{CTok, IntType};
pub use why::Why;

#[cfg(test)]
mod tests;
