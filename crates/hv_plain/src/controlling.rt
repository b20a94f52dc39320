//! What controlling expressions are made of (ISO/IEC 9899:1999, 6.6, 6.10.1).

use hv_base::BinaryOperator;

/// A unary operator of a controlling expression, in which `&` and `*` stand before no operand
/// (ISO/IEC 9899:1999, 6.5.3.3).
#[derive(Clone, Copy, Debug, PartialEq, Eq)]
pub enum Unary {
    /// `+`
    Plus,
    /// `-`
    Minus,
    /// `~`
    Complement,
    /// `!`
    Not,
}

/// What an expression of a controlling expression comes to.
#[derive(Clone, Copy, Debug, PartialEq, Eq)]
pub struct Operand {
    /// Whether its type is unsigned.
    pub is_unsigned: bool,
    /// Its 64 bits, or `None` where evaluating it has no value.
    pub bits: Option<u64>,
}

/// What a token is to the grammar of controlling expressions.
#[derive(Clone, Copy, Debug, PartialEq, Eq)]
pub enum Symbol {
    /// A constant or an identifier, and its value.
    Number(Operand),
    /// A binary operator; two of them are unary operators too.
    Operator(BinaryOperator),
    /// `~`
    Complement,
    /// `!`
    Not,
    /// `(`
    Open,
    /// `)`
    Close,
    /// `?`
    Question,
    /// `:`
    Colon,
    /// What stands in no expression.
    Other,
}
