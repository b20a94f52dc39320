//! What a token is to the grammar of controlling expressions.
ghost use Rattle.std.specs.Prelude.{◌≡◌};
ghost use Rattle.hv_plain.specs.controlling.Symbols as symbols;

use crate::constant::{char_constant, integer_constant};
use hv_base::BinaryOperator;
use hv_plain::{Operand, Symbol};
use hv_toks::{PpKind, PpTok};

/// A name that isn't a macro's: it is replaced by 0, but `defined` stands in no expression.
fn identifier(name: &[u8]) -> Symbol
    ensures { result ≡ symbols.identifier name.now }
{
    if name == "defined".as_bytes() {
        return Symbol::Other;
    }
    Symbol::Number(Operand {
        is_unsigned: false,
        bits: Some(0),
    })
}

/// A constant by what it comes to.
fn constant(value: Option<Operand>) -> Symbol
    ensures { result ≡ symbols.constant value }
{
    match value {
        Some(operand) => Symbol::Number(operand),
        None => Symbol::Other,
    }
}

/// A punctuator of one byte.
fn single(byte: u8) -> Symbol
    ensures { result ≡ symbols.single byte }
{
    match byte {
        b'*' => Symbol::Operator(BinaryOperator::Multiply),
        b'/' => Symbol::Operator(BinaryOperator::Divide),
        b'%' => Symbol::Operator(BinaryOperator::Remainder),
        b'+' => Symbol::Operator(BinaryOperator::Add),
        b'-' => Symbol::Operator(BinaryOperator::Subtract),
        b'<' => Symbol::Operator(BinaryOperator::Less),
        b'>' => Symbol::Operator(BinaryOperator::Greater),
        b'&' => Symbol::Operator(BinaryOperator::And),
        b'^' => Symbol::Operator(BinaryOperator::ExclusiveOr),
        b'|' => Symbol::Operator(BinaryOperator::Or),
        b'~' => Symbol::Complement,
        b'!' => Symbol::Not,
        b'(' => Symbol::Open,
        b')' => Symbol::Close,
        b'?' => Symbol::Question,
        b':' => Symbol::Colon,
        _ => Symbol::Other,
    }
}

/// A punctuator that is a byte twice.
fn doubled(byte: u8) -> Symbol
    ensures { result ≡ symbols.doubled byte }
{
    match byte {
        b'<' => Symbol::Operator(BinaryOperator::ShiftLeft),
        b'>' => Symbol::Operator(BinaryOperator::ShiftRight),
        b'=' => Symbol::Operator(BinaryOperator::Equal),
        b'&' => Symbol::Operator(BinaryOperator::LogicalAnd),
        b'|' => Symbol::Operator(BinaryOperator::LogicalOr),
        _ => Symbol::Other,
    }
}

/// A punctuator that is another byte and `=`.
fn with_equals(byte: u8) -> Symbol
    ensures { result ≡ symbols.with_equals byte }
{
    match byte {
        b'<' => Symbol::Operator(BinaryOperator::LessEqual),
        b'>' => Symbol::Operator(BinaryOperator::GreaterEqual),
        b'!' => Symbol::Operator(BinaryOperator::NotEqual),
        _ => Symbol::Other,
    }
}

/// A punctuator of two bytes.
fn double(first: u8, second: u8) -> Symbol
    ensures { result ≡ symbols.double first second }
{
    if first == second {
        doubled(first)
    } else if second == b'=' {
        with_equals(first)
    } else {
        Symbol::Other
    }
}

/// A punctuator by its spelling.
fn punctuator(text: &[u8]) -> Symbol
    ensures { result ≡ symbols.punctuator text.now }
{
    match text {
        [byte] => single(*byte),
        [first, second] => double(*first, *second),
        _ => Symbol::Other,
    }
}

/// What the token is to the grammar.
pub(crate) fn classify(token: &PpTok) -> Symbol
    ensures { result ≡ symbols.symbol_of token.now }
{
    let text = token.text.as_slice();
    match token.kind {
        PpKind::Identifier => identifier(text),
        PpKind::Number => constant(integer_constant(text)),
        PpKind::CharConstant => constant(char_constant(text)),
        PpKind::Punctuator => punctuator(text),
        _ => Symbol::Other,
    }
}
