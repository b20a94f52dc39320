//! Primary and postfix expressions, casts, choices and commas (6.5.1 to 6.5.4, 6.5.15, 6.5.17).
use super::built::{char_name, expr, list_of, name, one, place, text};
use crate::expr::print_expr;
use hv_base::{List, Memory};
use hv_ctree::Expr;
use std::alloc::Global;
use std::rc::Rc;
use std::test::Fail;

/// Whether the expression is printed so.
pub(super) fn is_printed(alloc: Global, expr: &Expr, shown: &str) -> Result<bool, Memory> {
    let mut out = List::new(alloc);
    print_expr(alloc, &mut out, expr)?;
    Ok(out.is_text(shown.as_bytes()))
}

fn group(alloc: Global, inner: Rc<Expr>) -> Result<Rc<Expr>, Memory> {
    let place = place(alloc);
    expr(alloc, Expr::Parenthesized { place, inner })
}

/// `.. [ 1 ]`
fn subscript(alloc: Global, array: Rc<Expr>) -> Result<Rc<Expr>, Memory> {
    let index = one(alloc)?;
    let place = place(alloc);
    expr(
        alloc,
        Expr::Subscript {
            place,
            array,
            index,
        },
    )
}

/// `.. ( )`
fn call(alloc: Global, function: Rc<Expr>) -> Result<Rc<Expr>, Memory> {
    let place = place(alloc);
    let arguments = List::new(alloc);
    expr(
        alloc,
        Expr::Call {
            place,
            function,
            arguments,
        },
    )
}

/// `.. ( "s" , 1 )`
fn call_with_two(alloc: Global, function: Rc<Expr>) -> Result<Rc<Expr>, Memory> {
    let arguments = two_arguments(alloc)?;
    let place = place(alloc);
    expr(
        alloc,
        Expr::Call {
            place,
            function,
            arguments,
        },
    )
}

/// `"s" , 1`, as arguments.
fn two_arguments(alloc: Global) -> Result<List<Rc<Expr>>, Memory> {
    let mut arguments = list_of(alloc, string(alloc)?)?;
    arguments.add(one(alloc)?)?;
    Ok(arguments)
}

/// `"s"`
fn string(alloc: Global) -> Result<Rc<Expr>, Memory> {
    let bytes = text(alloc, "s")?;
    let place = place(alloc);
    expr(alloc, Expr::StringLiteral { place, bytes })
}

/// `.. . m`
fn member(alloc: Global, object: Rc<Expr>) -> Result<Rc<Expr>, Memory> {
    let name = text(alloc, "m")?;
    let place = place(alloc);
    expr(
        alloc,
        Expr::Member {
            place,
            object,
            name,
        },
    )
}

/// `.. -> n`
fn arrow(alloc: Global, pointer: Rc<Expr>) -> Result<Rc<Expr>, Memory> {
    let name = text(alloc, "n")?;
    let place = place(alloc);
    expr(
        alloc,
        Expr::Arrow {
            place,
            pointer,
            name,
        },
    )
}

fn incremented(alloc: Global, operand: Rc<Expr>) -> Result<Rc<Expr>, Memory> {
    let place = place(alloc);
    expr(alloc, Expr::PostIncrement { place, operand })
}

fn decremented(alloc: Global, operand: Rc<Expr>) -> Result<Rc<Expr>, Memory> {
    let place = place(alloc);
    expr(alloc, Expr::PostDecrement { place, operand })
}

/// Each primary and postfix expression in the one after it.
fn postfix(alloc: Global) -> Result<Rc<Expr>, Memory> {
    let expr = group(alloc, name(alloc, "a")?)?;
    let expr = call_with_two(alloc, call(alloc, subscript(alloc, expr)?)?)?;
    let expr = arrow(alloc, member(alloc, expr)?)?;
    decremented(alloc, incremented(alloc, expr)?)
}

#[test]
fn postfix_operators_stand_after_their_operands(rt: HostRuntime) -> Result<(), Fail> {
    let expr = postfix(rt.alloc())?;
    let shown = "( a ) [ 1 ] ( ) ( \"s\" , 1 ) . m -> n ++ -- ";
    assert!(rt; is_printed(rt.alloc(), &expr, shown)?);
    Ok(())
}

/// `sizeof ( char )`
fn size_of_type(alloc: Global) -> Result<Rc<Expr>, Memory> {
    let of = char_name(alloc)?;
    let place = place(alloc);
    expr(alloc, Expr::SizeofType { place, of })
}

fn size_of(alloc: Global, operand: Rc<Expr>) -> Result<Rc<Expr>, Memory> {
    let place = place(alloc);
    expr(alloc, Expr::SizeofExpr { place, operand })
}

fn increment(alloc: Global, operand: Rc<Expr>) -> Result<Rc<Expr>, Memory> {
    let place = place(alloc);
    expr(alloc, Expr::PreIncrement { place, operand })
}

fn decrement(alloc: Global, operand: Rc<Expr>) -> Result<Rc<Expr>, Memory> {
    let place = place(alloc);
    expr(alloc, Expr::PreDecrement { place, operand })
}

/// `( char ) ..`
fn cast(alloc: Global, operand: Rc<Expr>) -> Result<Rc<Expr>, Memory> {
    let to = char_name(alloc)?;
    let place = place(alloc);
    expr(alloc, Expr::Cast { place, to, operand })
}

/// Each other prefix in the one after it.
fn prefix(alloc: Global) -> Result<Rc<Expr>, Memory> {
    let expr = size_of(alloc, size_of_type(alloc)?)?;
    let expr = increment(alloc, decrement(alloc, expr)?)?;
    cast(alloc, expr)
}

#[test]
fn types_stand_in_parentheses(rt: HostRuntime) -> Result<(), Fail> {
    let expr = prefix(rt.alloc())?;
    let shown = "( char ) ++ -- sizeof sizeof ( char ) ";
    assert!(rt; is_printed(rt.alloc(), &expr, shown)?);
    Ok(())
}

/// `a ? b : 1`
fn choice(alloc: Global) -> Result<Rc<Expr>, Memory> {
    let test = name(alloc, "a")?;
    let first = name(alloc, "b")?;
    let second = one(alloc)?;
    let place = place(alloc);
    let choice = Expr::Conditional {
        place,
        test,
        first,
        second,
    };
    expr(alloc, choice)
}

/// `a ? b : 1 , c`
fn pair(alloc: Global) -> Result<Expr, Memory> {
    let left = choice(alloc)?;
    let right = name(alloc, "c")?;
    let place = place(alloc);
    Ok(Expr::Comma { place, left, right })
}

#[test]
fn choices_and_commas_have_their_signs(rt: HostRuntime) -> Result<(), Fail> {
    let expr = pair(rt.alloc())?;
    assert!(rt; is_printed(rt.alloc(), &expr, "a ? b : 1 , c ")?);
    Ok(())
}
