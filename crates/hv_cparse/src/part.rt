//! Where the machine is in an element's own production, outside the phrases that it has frames for.
ghost use Rattle.std.specs.Prelude.{◌≡◌};
ghost use Rattle.hv_cparse.specs.working.Parts as parts;

use crate::class::Class;
use hv_base::{Keyword, Punct};

/// Where an element stands: in a translation unit (6.9), among a block's items (6.8.2), or in
/// another statement.
#[derive(Clone, Copy, Debug, PartialEq, Eq)]
pub enum Standing {
    External,
    Item,
    Nested,
}

/// Where a declaration stands: only in a file a function's body may follow it.
#[derive(Clone, Copy, Debug, PartialEq, Eq)]
pub enum Setting {
    File,
    Block,
    /// The first clause of a `for`.
    For,
}

/// An expression that may be missing.
#[derive(Clone, Copy, Debug, PartialEq, Eq)]
pub enum Clause {
    ForFirst,
    ForSecond,
    ForThird,
    Return,
}

/// An expression of a statement.
#[derive(Clone, Copy, Debug, PartialEq, Eq)]
pub enum Part {
    Case,
    Expression,
    If,
    Switch,
    While,
    Do,
    Optional(Clause),
}

/// A terminal that an element fixes.
#[derive(Clone, Copy, Debug, PartialEq, Eq)]
pub enum Fixed {
    /// A nested statement, or a block's items.
    Hole,
    Colon,
    Semicolon,
    /// `(`
    Opening,
    /// `)`
    Closing,
    RightBrace,
    While,
    Else,
}

impl Fixed {
    /// Whether a token of the class is the terminal.
    pub(crate) fn meets(self, class: Class) -> bool
        ensures { result ≡ parts.meets self class }
    {
        match self {
            Fixed::Hole => matches!(class, Class::Hole),
            Fixed::Colon => matches!(class, Class::Sign(Punct::Colon)),
            Fixed::Semicolon => matches!(class, Class::Sign(Punct::Semicolon)),
            Fixed::Opening => matches!(class, Class::Sign(Punct::LeftParenthesis)),
            Fixed::Closing => matches!(class, Class::Sign(Punct::RightParenthesis)),
            Fixed::RightBrace => matches!(class, Class::Sign(Punct::RightBrace)),
            Fixed::While => matches!(class, Class::Keyword(Keyword::While)),
            Fixed::Else => matches!(class, Class::Keyword(Keyword::Else)),
        }
    }
}

impl Clause {
    /// What stands after it.
    pub(crate) fn closer(self) -> Fixed
        ensures { result ≡ parts.clause_closer self }
    {
        match self {
            Clause::ForThird => Fixed::Closing,
            _ => Fixed::Semicolon,
        }
    }
}

impl Part {
    /// The level that is wanted of the expression.
    pub(crate) fn wanted(self) -> u16
        ensures { result ≡ parts.wanted self }
    {
        match self {
            Part::Case => 2,
            _ => 0,
        }
    }

    /// What stands after the expression.
    pub(crate) fn closer(self) -> Fixed
        ensures { result ≡ parts.closer self }
    {
        match self {
            Part::Case => Fixed::Colon,
            Part::Expression => Fixed::Semicolon,
            Part::Optional(clause) => clause.closer(),
            _ => Fixed::Closing,
        }
    }
}
