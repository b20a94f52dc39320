//! The values of operators.
ghost use Rattle.std.specs.Prelude.{◌≡◌, ◌||◌, ◌<◌};
ghost use Rattle.hv_plain.specs.controlling.Values as values;

use hv_base::BinaryOperator;
use hv_plain::{Operand, Unary};

/// 1 for what is true, 0 for what isn't.
fn bit(truth: bool) -> u64
    ensures { result ≡ values.bit_of truth }
{
    u64::from(truth)
}

/// Whether x is less than y, as unsigned or as signed numbers.
fn less(is_unsigned: bool, x: u64, y: u64) -> bool
    ensures { result ≡ values.less is_unsigned x y }
{
    if is_unsigned {
        x < y
    } else {
        x.cast_signed() < y.cast_signed()
    }
}

/// `/`, or `None` where the divisor is zero.
fn divide(is_unsigned: bool, x: u64, y: u64) -> Option<u64>
    ensures { result ≡ values.quotient is_unsigned x y }
{
    if y == 0 {
        None
    } else if is_unsigned {
        Some(x / y)
    } else {
        Some(
            x.cast_signed()
                .wrapping_div(y.cast_signed())
                .cast_unsigned(),
        )
    }
}

/// `%`, or `None` where the divisor is zero.
fn remainder(is_unsigned: bool, x: u64, y: u64) -> Option<u64>
    ensures { result ≡ values.remainder is_unsigned x y }
{
    if y == 0 {
        None
    } else if is_unsigned {
        Some(x % y)
    } else {
        Some(
            x.cast_signed()
                .wrapping_rem(y.cast_signed())
                .cast_unsigned(),
        )
    }
}

/// `<<`, or `None` where the amount is 64 or more.
fn shift_left(x: u64, y: u64) -> Option<u64>
    ensures { result ≡ values.left_shifted x y }
{
    if y < 64 {
        Some(x.wrapping_shl(y as u32))
    } else {
        None
    }
}

/// `>>`, or `None` where the amount is 64 or more.
fn shift_right(is_unsigned: bool, x: u64, y: u64) -> Option<u64>
    ensures { result ≡ values.right_shifted is_unsigned x y }
{
    if y >= 64 {
        None
    } else if is_unsigned {
        Some(x >> y)
    } else {
        Some(x.cast_signed().wrapping_shr(y as u32).cast_unsigned())
    }
}

/// The bits that an operator other than `&&` and `||` gives for operands of a common type.
fn bits(op: BinaryOperator, is_unsigned: bool, x: u64, y: u64) -> Option<u64>
    ensures { result ≡ values.bits_of op is_unsigned x y }
{
    match op {
        BinaryOperator::Multiply => Some(x.wrapping_mul(y)),
        BinaryOperator::Divide => divide(is_unsigned, x, y),
        BinaryOperator::Remainder => remainder(is_unsigned, x, y),
        BinaryOperator::Add => Some(x.wrapping_add(y)),
        BinaryOperator::Subtract => Some(x.wrapping_sub(y)),
        BinaryOperator::ShiftLeft => shift_left(x, y),
        BinaryOperator::ShiftRight => shift_right(is_unsigned, x, y),
        BinaryOperator::Less => Some(bit(less(is_unsigned, x, y))),
        BinaryOperator::Greater => Some(bit(less(is_unsigned, y, x))),
        BinaryOperator::LessEqual => Some(bit(!less(is_unsigned, y, x))),
        BinaryOperator::GreaterEqual => Some(bit(!less(is_unsigned, x, y))),
        BinaryOperator::Equal => Some(bit(x == y)),
        BinaryOperator::NotEqual => Some(bit(x != y)),
        BinaryOperator::And => Some(x & y),
        BinaryOperator::ExclusiveOr => Some(x ^ y),
        BinaryOperator::Or => Some(x | y),
        BinaryOperator::LogicalAnd | BinaryOperator::LogicalOr => None,
    }
}

/// Whether the operands are converted to an unsigned type.
fn is_unsigned_at(op: BinaryOperator, a: Operand, b: Operand) -> bool
    ensures { result ≡ values.is_unsigned_at op a b }
{
    match op {
        BinaryOperator::ShiftLeft | BinaryOperator::ShiftRight => a.is_unsigned,
        _ => a.is_unsigned || b.is_unsigned,
    }
}

/// Whether the operator's result is 0 or 1.
fn is_truth(op: BinaryOperator) -> bool
    ensures { result ≡ values.is_truth op }
{
    matches!(
        op,
        BinaryOperator::Less
            | BinaryOperator::Greater
            | BinaryOperator::LessEqual
            | BinaryOperator::GreaterEqual
            | BinaryOperator::Equal
            | BinaryOperator::NotEqual
            | BinaryOperator::LogicalAnd
            | BinaryOperator::LogicalOr
    )
}

/// The bits of an operator whose operands are both evaluated.
fn evaluated(op: BinaryOperator, a: Operand, b: Operand) -> Option<u64>
    ensures { result ≡ values.both op a b }
{
    match (a.bits, b.bits) {
        (Some(x), Some(y)) => bits(op, is_unsigned_at(op, a, b), x, y),
        _ => None,
    }
}

/// The second where the first is not zero, and the third where it is.
fn choose(condition: Option<u64>, a: Option<u64>, b: Option<u64>) -> Option<u64>
    ensures { result ≡ values.chosen condition a b }
{
    match condition {
        None => None,
        Some(0) => b,
        Some(_) => a,
    }
}

/// 1 for the bits of a number that is true, 0 for those of zero.
fn truth(bits: Option<u64>) -> Option<u64>
    ensures { result ≡ values.truth bits }
{
    match bits {
        None => None,
        Some(x) => Some(bit(x != 0)),
    }
}

/// The value of a binary operator.
pub(crate) fn apply_binary(op: BinaryOperator, a: Operand, b: Operand) -> Operand
    ensures { result ≡ values.binary_value op a b }
{
    let is_unsigned = !is_truth(op) && is_unsigned_at(op, a, b);
    let bits = match op {
        BinaryOperator::LogicalAnd => choose(a.bits, truth(b.bits), Some(0)),
        BinaryOperator::LogicalOr => choose(a.bits, Some(1), truth(b.bits)),
        _ => evaluated(op, a, b),
    };
    Operand { is_unsigned, bits }
}

/// The bits that a unary operator gives.
fn unary(op: Unary, x: u64) -> u64
    ensures { result ≡ values.unary_bits op x }
{
    match op {
        Unary::Plus => x,
        Unary::Minus => 0u64.wrapping_sub(x),
        Unary::Complement => !x,
        Unary::Not => bit(x == 0),
    }
}

/// The value of a unary operator.
pub(crate) fn apply_unary(op: Unary, a: Operand) -> Operand
    ensures { result ≡ values.unary_value op a }
{
    let is_not = matches!(op, Unary::Not);
    let bits = match a.bits {
        None => None,
        Some(x) => Some(unary(op, x)),
    };
    Operand {
        is_unsigned: !is_not && a.is_unsigned,
        bits,
    }
}

/// The value of `condition ? a : b`.
pub(crate) fn apply_conditional(condition: Operand, a: Operand, b: Operand) -> Operand
    ensures { result ≡ values.conditional_value condition a b }
{
    Operand {
        is_unsigned: a.is_unsigned || b.is_unsigned,
        bits: choose(condition.bits, a.bits, b.bits),
    }
}
