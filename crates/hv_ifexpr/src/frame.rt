//! What stands open before an operand.
ghost use Rattle.std.specs.Prelude.{◌≡◌};
ghost use Rattle.hv_plain.specs.controlling.Grammar as grammar;
ghost use Rattle.hv_ifexpr.specs.working.Machine as machine;

use crate::values::{apply_binary, apply_conditional, apply_unary};
use hv_base::BinaryOperator;
use hv_plain::{Operand, Unary};

/// What stands open before an operand.
#[derive(Clone, Copy, Debug, PartialEq, Eq)]
pub(crate) enum Frame {
    /// `(`
    Parenthesis,
    /// A unary operator.
    Unary(Unary),
    /// A binary operator and its left side.
    Binary(BinaryOperator, Operand),
    /// A condition and `?`.
    Then(Operand),
    /// A condition, `?`, what follows it, and `:`.
    Else(Operand, Operand),
}

/// The level of the expressions that the operator makes.
pub(crate) fn level(op: BinaryOperator) -> u8
    ensures { result ≡ grammar.level op }
{
    match op {
        BinaryOperator::Multiply | BinaryOperator::Divide | BinaryOperator::Remainder => 10,
        BinaryOperator::Add | BinaryOperator::Subtract => 9,
        BinaryOperator::ShiftLeft | BinaryOperator::ShiftRight => 8,
        BinaryOperator::Less
        | BinaryOperator::Greater
        | BinaryOperator::LessEqual
        | BinaryOperator::GreaterEqual => 7,
        BinaryOperator::Equal | BinaryOperator::NotEqual => 6,
        BinaryOperator::And => 5,
        BinaryOperator::ExclusiveOr => 4,
        BinaryOperator::Or => 3,
        BinaryOperator::LogicalAnd => 2,
        BinaryOperator::LogicalOr => 1,
    }
}

impl Frame {
    /// Whether it ends before a symbol that makes expressions of this level.
    pub(crate) fn ends(self, level_before: u8) -> bool
        ensures { result ≡ machine.ends level_before self }
    {
        match self {
            Frame::Parenthesis | Frame::Then(_) => false,
            Frame::Unary(_) => true,
            Frame::Binary(op, _) => level_before <= level(op),
            Frame::Else(_, _) => level_before == 0,
        }
    }

    /// The value of what it makes with the operand after it.
    pub(crate) fn apply(self, operand: Operand) -> Operand
        ensures { result ≡ machine.applied self operand }
    {
        match self {
            Frame::Parenthesis | Frame::Then(_) => operand,
            Frame::Unary(op) => apply_unary(op, operand),
            Frame::Binary(op, left) => apply_binary(op, left, operand),
            Frame::Else(condition, left) => apply_conditional(condition, left, operand),
        }
    }
}
