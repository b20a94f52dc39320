//! Preprocessing tokens, the definition of how a source file is cut into them, and the tokens of a
//! translation unit under all configurations.
#![tactic(auto)]

mod characters;
mod constants;
mod macros;
mod parted;
mod prefix;
mod stream;
mod token;

pub use characters::{character, read_char_constant};
pub use constants::{Integer, Rank, is_hexadecimal, is_octal, read_int_constant, read_integer};
pub use hv_base::{CTok, IntType, Keyword, Punct};
pub use macros::{Body, Meaning};
pub use parted::{Failing, Parted};
pub use prefix::{LinePrefix, Match, Prefix};
pub use stream::{Classified, Stream, StreamTok, project};
pub use token::{PpKind, PpTok};

#[cfg(test)]
mod tests;
