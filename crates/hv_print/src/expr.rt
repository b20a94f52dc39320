//! Expressions and type names as text (6.5, 6.7.6).
#![tactic(auto, using(crate::proofs::PhraseSteps::phrase_steps))]

ghost use Rattle.std.specs.Prelude.{◌≡◌, [], ◌∷◌, ◌++◌, OnOk};
ghost use Rattle.hv_ctree.specs.tree.Erase.{expr_of, arguments_of, type_name_of};
ghost use Rattle.hv_grammar.specs.Symbols as symbols;
ghost use Rattle.hv_grammar.specs.Tokens.{tokens_of, arguments_tokens, type_name_tokens};
ghost use Rattle.hv_print.specs.working.Phrases as phrases;
ghost use Rattle.hv_print.specs.working.Printed.{printed};

use crate::declarator::print_may_abstract;
use crate::specifier::print_type_words;
use crate::token::{put_comma_before, put_constant, put_keyword, put_name, put_punct, put_string};
use crate::word::{assignment_sign, unary_sign};
use hv_base::{Keyword, List, Memory, Punct, Text};
use hv_ctree::{Expr, TypeName};
use std::alloc::Global;
use std::rc::Rc;

/// Adds an expression (6.5).
#[cycle(phrase)]
pub(crate) fn print_expr(alloc: Global, out: &mut Text, expr: &Expr) -> Result<(), Memory>
    ensures { OnOk result (out.new ≡ out.old ++ printed (tokens_of (expr_of expr.now))) }
{
    match expr {
        Expr::Identifier { name, .. } => put_name(out, name),
        Expr::Constant { value, .. } => put_constant(out, *value),
        Expr::StringLiteral { bytes, .. } => put_string(alloc, out, bytes),
        Expr::Parenthesized { inner, .. } => {
            put_punct(out, Punct::LeftParenthesis)?;
            print_expr(alloc, out, inner)?;
            put_punct(out, Punct::RightParenthesis)
        }
        Expr::Subscript { array, index, .. } => {
            print_expr(alloc, out, array)?;
            put_punct(out, Punct::LeftBracket)?;
            print_expr(alloc, out, index)?;
            put_punct(out, Punct::RightBracket)
        }
        Expr::Call {
            function,
            arguments,
            ..
        } => {
            print_expr(alloc, out, function)?;
            put_punct(out, Punct::LeftParenthesis)?;
            print_arguments(alloc, out, arguments)?;
            put_punct(out, Punct::RightParenthesis)
        }
        Expr::Member { object, name, .. } => print_member(alloc, out, object, Punct::Dot, name),
        Expr::Arrow { pointer, name, .. } => {
            print_member(alloc, out, pointer, Punct::Arrow, name)
        }
        Expr::PostIncrement { operand, .. } => {
            print_before(alloc, out, operand, Punct::PlusPlus)
        }
        Expr::PostDecrement { operand, .. } => {
            print_before(alloc, out, operand, Punct::MinusMinus)
        }
        Expr::PreIncrement { operand, .. } => print_after(alloc, out, Punct::PlusPlus, operand),
        Expr::PreDecrement { operand, .. } => print_after(alloc, out, Punct::MinusMinus, operand),
        Expr::Unary {
            operator,
            operand,
            ..
        } => print_after(alloc, out, unary_sign(*operator), operand),
        Expr::SizeofExpr { operand, .. } => {
            put_keyword(out, Keyword::Sizeof)?;
            print_expr(alloc, out, operand)
        }
        Expr::SizeofType { of, .. } => {
            put_keyword(out, Keyword::Sizeof)?;
            print_type_name(alloc, out, of)
        }
        Expr::Cast { to, operand, .. } => {
            print_type_name(alloc, out, to)?;
            print_expr(alloc, out, operand)
        }
        Expr::Conditional {
            test,
            first,
            second,
            ..
        } => {
            print_before(alloc, out, test, Punct::Question)?;
            print_before(alloc, out, first, Punct::Colon)?;
            print_expr(alloc, out, second)
        }
        Expr::Multiply { left, right, .. }
        | Expr::Divide { left, right, .. }
        | Expr::Remainder { left, right, .. }
        | Expr::Add { left, right, .. }
        | Expr::Subtract { left, right, .. }
        | Expr::ShiftLeft { left, right, .. }
        | Expr::ShiftRight { left, right, .. }
        | Expr::Less { left, right, .. }
        | Expr::Greater { left, right, .. }
        | Expr::LessEqual { left, right, .. }
        | Expr::GreaterEqual { left, right, .. }
        | Expr::Equal { left, right, .. }
        | Expr::NotEqual { left, right, .. }
        | Expr::And { left, right, .. }
        | Expr::ExclusiveOr { left, right, .. }
        | Expr::Or { left, right, .. }
        | Expr::LogicalAnd { left, right, .. }
        | Expr::LogicalOr { left, right, .. }
        | Expr::Assign { left, right, .. }
        | Expr::Comma { left, right, .. } => {
            print_before(alloc, out, left, infix_sign(expr))?;
            print_expr(alloc, out, right)
        }
    }
}

/// Adds an expression and a sign after it.
#[cycle(phrase)]
pub(crate) fn print_before(
    alloc: Global,
    out: &mut Text,
    operand: &Expr,
    sign: Punct,
) -> Result<(), Memory>
    ensures { OnOk result
        (out.new ≡ out.old ++ printed (tokens_of (expr_of operand.now) ++ symbols.sign sign ∷ [])) }
{
    print_expr(alloc, out, operand)?;
    put_punct(out, sign)
}

/// Adds an operator and the expression after it (6.5.3).
#[cycle(phrase)]
fn print_after(alloc: Global, out: &mut Text, sign: Punct, operand: &Expr) -> Result<(), Memory>
    ensures { OnOk result
        (out.new ≡ out.old ++ printed (symbols.sign sign ∷ tokens_of (expr_of operand.now))) }
{
    put_punct(out, sign)?;
    print_expr(alloc, out, operand)
}

/// Adds an expression and its member (6.5.2.3).
#[cycle(phrase)]
fn print_member(
    alloc: Global,
    out: &mut Text,
    object: &Expr,
    sign: Punct,
    name: &Text,
) -> Result<(), Memory>
    ensures { OnOk result
        (out.new ≡ out.old
        ++ printed (tokens_of (expr_of object.now) ++ symbols.sign sign
        ∷ symbols.name name.now ∷ [])) }
{
    print_expr(alloc, out, object)?;
    put_punct(out, sign)?;
    put_name(out, name)
}

/// The operator between two operands (6.5.5 to 6.5.14, 6.5.16, 6.5.17); of another expression a
/// comma.
fn infix_sign(expr: &Expr) -> Punct
    ensures { symbols.sign result ≡ phrases.infix_sign (expr_of expr.now) }
{
    match expr {
        Expr::Multiply { .. } => Punct::Star,
        Expr::Divide { .. } => Punct::Slash,
        Expr::Remainder { .. } => Punct::Percent,
        Expr::Add { .. } => Punct::Plus,
        Expr::Subtract { .. } => Punct::Minus,
        Expr::ShiftLeft { .. } => Punct::LeftShift,
        Expr::ShiftRight { .. } => Punct::RightShift,
        Expr::Less { .. } => Punct::Less,
        Expr::Greater { .. } => Punct::Greater,
        Expr::LessEqual { .. } => Punct::LessEqual,
        Expr::GreaterEqual { .. } => Punct::GreaterEqual,
        Expr::Equal { .. } => Punct::EqualEqual,
        Expr::NotEqual { .. } => Punct::NotEqual,
        Expr::And { .. } => Punct::And,
        Expr::ExclusiveOr { .. } => Punct::Caret,
        Expr::Or { .. } => Punct::Or,
        Expr::LogicalAnd { .. } => Punct::AndAnd,
        Expr::LogicalOr { .. } => Punct::OrOr,
        Expr::Assign { operator, .. } => assignment_sign(*operator),
        Expr::Comma { .. }
        | Expr::Identifier { .. }
        | Expr::Constant { .. }
        | Expr::StringLiteral { .. }
        | Expr::Parenthesized { .. }
        | Expr::Subscript { .. }
        | Expr::Call { .. }
        | Expr::Member { .. }
        | Expr::Arrow { .. }
        | Expr::PostIncrement { .. }
        | Expr::PostDecrement { .. }
        | Expr::PreIncrement { .. }
        | Expr::PreDecrement { .. }
        | Expr::Unary { .. }
        | Expr::SizeofExpr { .. }
        | Expr::SizeofType { .. }
        | Expr::Cast { .. }
        | Expr::Conditional { .. } => Punct::Comma,
    }
}

/// Adds the arguments of a call, with commas between them (6.5.2).
#[cycle(phrase)]
fn print_arguments(alloc: Global, out: &mut Text, arguments: &List<Rc<Expr>>) -> Result<(), Memory>
    ensures { OnOk result
        (out.new ≡ out.old ++ printed (arguments_tokens (arguments_of arguments.now))) }
{
    for (index, argument) in arguments.as_slice().iter().enumerate() {
        put_comma_before(out, index)?;
        print_expr(alloc, out, argument)?;
    }
    Ok(())
}

/// Adds a type name in its parentheses (6.7.6).
#[cycle(phrase)]
fn print_type_name(alloc: Global, out: &mut Text, name: &TypeName) -> Result<(), Memory>
    ensures { OnOk result
        (out.new ≡ out.old
        ++ printed (symbols.left_paren ∷ (type_name_tokens (type_name_of name.now)
        ++ symbols.right_paren ∷ []))) }
{
    match name {
        TypeName::Of {
            specifiers,
            declarator,
            ..
        } => {
            put_punct(out, Punct::LeftParenthesis)?;
            print_type_words(alloc, out, specifiers)?;
            print_may_abstract(alloc, out, declarator)?;
            put_punct(out, Punct::RightParenthesis)
        }
    }
}
