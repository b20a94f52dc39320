//! What the tokens of a line before a place are.
use crate::PpKind;

/// What stands on a line before the next token, as far as the cutting asks for it.
#[derive(Clone, Copy, Debug, PartialEq, Eq)]
pub enum LinePrefix {
    /// No token yet.
    Start,
    /// Only `#`.
    Hash,
    /// Only `#` and `include`.
    Include,
    /// Other tokens.
    Rest,
}

/// A token that a text begins with.
#[derive(Clone, Copy, Debug, PartialEq, Eq)]
pub struct Match {
    pub kind: PpKind,
    /// The number of its bytes.
    pub len: usize,
}

/// What a text begins with.
#[derive(Clone, Copy, Debug, PartialEq, Eq)]
pub enum Prefix {
    /// Nothing: the text is empty.
    End,
    /// A byte of white space that is no newline.
    WhiteSpace,
    Newline,
    /// A comment of this many bytes.
    Comment(usize),
    /// A comment that is not closed.
    OpenComment,
    Token(Match),
}
