//! Operators between and before operands (6.5.3, 6.5.5 to 6.5.14, 6.5.16).
use super::built::{name, place};
use super::expressions::is_printed;
use hv_base::{BinaryOperator, Memory, Place};
use hv_ctree::{AssignmentOperator, Expr, UnaryOperator};
use std::alloc::Global;
use std::rc::Rc;
use std::test::Fail;

/// Two operands with the operator between them.
fn infix(place: Place, left: Rc<Expr>, operator: BinaryOperator, right: Rc<Expr>) -> Expr {
    match operator {
        BinaryOperator::Multiply => Expr::Multiply { place, left, right },
        BinaryOperator::Divide => Expr::Divide { place, left, right },
        BinaryOperator::Remainder => Expr::Remainder { place, left, right },
        BinaryOperator::Add => Expr::Add { place, left, right },
        BinaryOperator::Subtract => Expr::Subtract { place, left, right },
        BinaryOperator::ShiftLeft => Expr::ShiftLeft { place, left, right },
        BinaryOperator::ShiftRight => Expr::ShiftRight { place, left, right },
        BinaryOperator::Less => Expr::Less { place, left, right },
        BinaryOperator::Greater => Expr::Greater { place, left, right },
        BinaryOperator::LessEqual => Expr::LessEqual { place, left, right },
        BinaryOperator::GreaterEqual => Expr::GreaterEqual { place, left, right },
        BinaryOperator::Equal => Expr::Equal { place, left, right },
        BinaryOperator::NotEqual => Expr::NotEqual { place, left, right },
        BinaryOperator::And => Expr::And { place, left, right },
        BinaryOperator::ExclusiveOr => Expr::ExclusiveOr { place, left, right },
        BinaryOperator::Or => Expr::Or { place, left, right },
        BinaryOperator::LogicalAnd => Expr::LogicalAnd { place, left, right },
        BinaryOperator::LogicalOr => Expr::LogicalOr { place, left, right },
    }
}

/// `a` and `b` with the operator between them.
fn infix_of(alloc: Global, operator: BinaryOperator) -> Result<Expr, Memory> {
    let left = name(alloc, "a")?;
    let right = name(alloc, "b")?;
    Ok(infix(place(alloc), left, operator, right))
}

#[test]
fn operators_stand_between_their_operands(rt: HostRuntime) -> Result<(), Fail> {
    let rows = [
        (BinaryOperator::Multiply, "a * b "),
        (BinaryOperator::Divide, "a / b "),
        (BinaryOperator::Remainder, "a % b "),
        (BinaryOperator::Add, "a + b "),
        (BinaryOperator::Subtract, "a - b "),
        (BinaryOperator::ShiftLeft, "a << b "),
        (BinaryOperator::ShiftRight, "a >> b "),
        (BinaryOperator::Less, "a < b "),
        (BinaryOperator::Greater, "a > b "),
        (BinaryOperator::LessEqual, "a <= b "),
        (BinaryOperator::GreaterEqual, "a >= b "),
        (BinaryOperator::Equal, "a == b "),
        (BinaryOperator::NotEqual, "a != b "),
        (BinaryOperator::And, "a & b "),
        (BinaryOperator::ExclusiveOr, "a ^ b "),
        (BinaryOperator::Or, "a | b "),
        (BinaryOperator::LogicalAnd, "a && b "),
        (BinaryOperator::LogicalOr, "a || b "),
    ];
    for (operator, shown) in rows {
        let expr = infix_of(rt.alloc(), operator)?;
        assert!(rt; is_printed(rt.alloc(), &expr, shown)?, "{shown}");
    }
    Ok(())
}

/// `a` and `b` with the assignment between them.
fn assignment(alloc: Global, operator: AssignmentOperator) -> Result<Expr, Memory> {
    let left = name(alloc, "a")?;
    let right = name(alloc, "b")?;
    let place = place(alloc);
    Ok(Expr::Assign {
        place,
        left,
        operator,
        right,
    })
}

#[test]
fn assignments_stand_between_their_sides(rt: HostRuntime) -> Result<(), Fail> {
    let rows = [
        (AssignmentOperator::Plain, "a = b "),
        (AssignmentOperator::Multiply, "a *= b "),
        (AssignmentOperator::Divide, "a /= b "),
        (AssignmentOperator::Remainder, "a %= b "),
        (AssignmentOperator::Add, "a += b "),
        (AssignmentOperator::Subtract, "a -= b "),
        (AssignmentOperator::ShiftLeft, "a <<= b "),
        (AssignmentOperator::ShiftRight, "a >>= b "),
        (AssignmentOperator::And, "a &= b "),
        (AssignmentOperator::ExclusiveOr, "a ^= b "),
        (AssignmentOperator::Or, "a |= b "),
    ];
    for (operator, shown) in rows {
        let expr = assignment(rt.alloc(), operator)?;
        assert!(rt; is_printed(rt.alloc(), &expr, shown)?, "{shown}");
    }
    Ok(())
}

/// The operator before `a`.
fn unary(alloc: Global, operator: UnaryOperator) -> Result<Expr, Memory> {
    let operand = name(alloc, "a")?;
    let place = place(alloc);
    Ok(Expr::Unary {
        place,
        operator,
        operand,
    })
}

#[test]
fn unary_operators_stand_before_their_operands(rt: HostRuntime) -> Result<(), Fail> {
    let rows = [
        (UnaryOperator::Address, "& a "),
        (UnaryOperator::Indirection, "* a "),
        (UnaryOperator::Plus, "+ a "),
        (UnaryOperator::Minus, "- a "),
        (UnaryOperator::Complement, "~ a "),
        (UnaryOperator::Not, "! a "),
    ];
    for (operator, shown) in rows {
        let expr = unary(rt.alloc(), operator)?;
        assert!(rt; is_printed(rt.alloc(), &expr, shown)?, "{shown}");
    }
    Ok(())
}
