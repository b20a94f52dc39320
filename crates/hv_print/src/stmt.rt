//! Statements as text (6.8).
#![tactic(auto, using(crate::proofs::StatementSteps::statement_steps))]

ghost use Rattle.std.specs.Prelude.{◌≡◌, [], ◌∷◌, ◌++◌, OnOk};
ghost use Rattle.hv_base.specs.declared.keyword.Keyword.TheVariants as keywords;
ghost use Rattle.hv_ctree.specs.tree.Erase.{expr_of};
ghost use Rattle.hv_ctree.specs.tree.EraseStatements.{declaration_of, may_expr_of, stmt_of, item_of, items_of};
ghost use Rattle.hv_grammar.specs.Symbols as symbols;
ghost use Rattle.hv_grammar.specs.Tokens.{tokens_of, option_tokens, declaration_tokens};
ghost use Rattle.hv_print.specs.ProgramTokens.{statement_tokens, items_tokens, item_tokens};
ghost use Rattle.hv_print.specs.working.Printed.{printed};

use crate::declaration::print_declaration;
use crate::expr::print_before;
use crate::token::{put_keyword, put_punct};
use hv_base::{Keyword, List, Memory, Punct, Text};
use hv_ctree::{BlockItem, Declaration, Expr, Stmt};
use std::alloc::Global;
use std::rc::Rc;

/// Adds a statement (6.8).
#[cycle(stmt)]
pub(crate) fn print_stmt(alloc: Global, out: &mut Text, stmt: &Stmt) -> Result<(), Memory>
    ensures { OnOk result (out.new ≡ out.old ++ printed (statement_tokens (stmt_of stmt.now))) }
{
    match stmt {
        Stmt::Case { value, body, .. } => {
            put_keyword(out, Keyword::Case)?;
            print_before(alloc, out, value, Punct::Colon)?;
            print_stmt(alloc, out, body)
        }
        Stmt::Default { body, .. } => {
            put_keyword(out, Keyword::Default)?;
            put_punct(out, Punct::Colon)?;
            print_stmt(alloc, out, body)
        }
        Stmt::Compound { items, .. } => {
            put_punct(out, Punct::LeftBrace)?;
            print_items(alloc, out, items)?;
            put_punct(out, Punct::RightBrace)
        }
        Stmt::Expression { value, .. } => print_part(alloc, out, value, Punct::Semicolon),
        Stmt::If { test, body, .. } => {
            print_head(alloc, out, Keyword::If, test)?;
            print_stmt(alloc, out, body)
        }
        Stmt::IfElse {
            test,
            body,
            other,
            ..
        } => {
            print_head(alloc, out, Keyword::If, test)?;
            print_stmt(alloc, out, body)?;
            put_keyword(out, Keyword::Else)?;
            print_stmt(alloc, out, other)
        }
        Stmt::Switch { value, body, .. } => {
            print_head(alloc, out, Keyword::Switch, value)?;
            print_stmt(alloc, out, body)
        }
        Stmt::While { test, body, .. } => {
            print_head(alloc, out, Keyword::While, test)?;
            print_stmt(alloc, out, body)
        }
        Stmt::DoWhile { body, test, .. } => {
            put_keyword(out, Keyword::Do)?;
            print_stmt(alloc, out, body)?;
            print_head(alloc, out, Keyword::While, test)?;
            put_punct(out, Punct::Semicolon)
        }
        Stmt::For {
            first,
            test,
            step,
            body,
            ..
        } => {
            print_for(alloc, out, first, test, step)?;
            print_stmt(alloc, out, body)
        }
        Stmt::ForDeclaration {
            first,
            test,
            step,
            body,
            ..
        } => {
            print_for_declaration(alloc, out, first, test, step)?;
            print_stmt(alloc, out, body)
        }
        Stmt::Continue { .. } => put_jump(out, Keyword::Continue),
        Stmt::Break { .. } => put_jump(out, Keyword::Break),
        Stmt::Return { value, .. } => {
            put_keyword(out, Keyword::Return)?;
            print_part(alloc, out, value, Punct::Semicolon)
        }
    }
}

/// Adds the word of a statement and the expression after it in parentheses (6.8.4, 6.8.5).
fn print_head(alloc: Global, out: &mut Text, word: Keyword, test: &Expr) -> Result<(), Memory>
    ensures { OnOk result
        (out.new ≡ out.old
        ++ printed (symbols.keyword word ∷ symbols.left_paren
        ∷ (tokens_of (expr_of test.now) ++ symbols.right_paren ∷ []))) }
{
    put_keyword(out, word)?;
    put_punct(out, Punct::LeftParenthesis)?;
    print_before(alloc, out, test, Punct::RightParenthesis)
}

/// Adds what stands before the body of a `for` statement without a declaration (6.8.5.3).
fn print_for(
    alloc: Global,
    out: &mut Text,
    first: &Option<Rc<Expr>>,
    test: &Option<Rc<Expr>>,
    step: &Option<Rc<Expr>>,
) -> Result<(), Memory>
    ensures { OnOk result
        (out.new ≡ out.old
        ++ printed (symbols.keyword keywords.For ∷ symbols.left_paren
        ∷ (option_tokens (may_expr_of first.now) ++ symbols.semicolon
        ∷ (option_tokens (may_expr_of test.now) ++ symbols.semicolon
        ∷ (option_tokens (may_expr_of step.now) ++ symbols.right_paren ∷ []))))) }
{
    put_keyword(out, Keyword::For)?;
    put_punct(out, Punct::LeftParenthesis)?;
    print_part(alloc, out, first, Punct::Semicolon)?;
    print_turns(alloc, out, test, step)
}

/// Adds what stands before the body of a `for` statement with a declaration (6.8.5.3).
fn print_for_declaration(
    alloc: Global,
    out: &mut Text,
    first: &Declaration,
    test: &Option<Rc<Expr>>,
    step: &Option<Rc<Expr>>,
) -> Result<(), Memory>
    ensures { OnOk result
        (out.new ≡ out.old
        ++ printed (symbols.keyword keywords.For ∷ symbols.left_paren
        ∷ (declaration_tokens (declaration_of first.now)
        ++ (option_tokens (may_expr_of test.now) ++ symbols.semicolon
        ∷ (option_tokens (may_expr_of step.now) ++ symbols.right_paren ∷ []))))) }
{
    put_keyword(out, Keyword::For)?;
    put_punct(out, Punct::LeftParenthesis)?;
    print_declaration(alloc, out, first)?;
    print_turns(alloc, out, test, step)
}

/// Adds the second and the third part of a `for` statement, with its `)`.
fn print_turns(
    alloc: Global,
    out: &mut Text,
    test: &Option<Rc<Expr>>,
    step: &Option<Rc<Expr>>,
) -> Result<(), Memory>
    ensures { OnOk result
        (out.new ≡ out.old
        ++ printed (option_tokens (may_expr_of test.now) ++ symbols.semicolon
        ∷ (option_tokens (may_expr_of step.now) ++ symbols.right_paren ∷ []))) }
{
    print_part(alloc, out, test, Punct::Semicolon)?;
    print_part(alloc, out, step, Punct::RightParenthesis)
}

/// Adds an expression, if there is one, and the sign that ends it.
fn print_part(
    alloc: Global,
    out: &mut Text,
    part: &Option<Rc<Expr>>,
    end: Punct,
) -> Result<(), Memory>
    ensures { OnOk result
        (out.new ≡ out.old
        ++ printed (option_tokens (may_expr_of part.now) ++ symbols.sign end ∷ [])) }
{
    match part {
        Some(expr) => print_before(alloc, out, expr, end),
        None => put_punct(out, end),
    }
}

/// Adds a jump statement that is a word (6.8.6).
fn put_jump(out: &mut Text, word: Keyword) -> Result<(), Memory>
    ensures { OnOk result
        (out.new ≡ out.old ++ printed (symbols.keyword word ∷ symbols.semicolon ∷ [])) }
{
    put_keyword(out, word)?;
    put_punct(out, Punct::Semicolon)
}

/// Adds the items of a block (6.8.2).
#[cycle(stmt)]
fn print_items(alloc: Global, out: &mut Text, items: &List<Rc<BlockItem>>) -> Result<(), Memory>
    ensures { OnOk result (out.new ≡ out.old ++ printed (items_tokens (items_of items.now))) }
{
    for item in items.as_slice() {
        print_item(alloc, out, item)?;
    }
    Ok(())
}

/// Adds an item of a block (6.8.2).
#[cycle(stmt)]
fn print_item(alloc: Global, out: &mut Text, item: &BlockItem) -> Result<(), Memory>
    ensures { OnOk result (out.new ≡ out.old ++ printed (item_tokens (item_of item.now))) }
{
    match item {
        BlockItem::Declaration { declaration, .. } => print_declaration(alloc, out, declaration),
        BlockItem::Statement { statement, .. } => print_stmt(alloc, out, statement),
    }
}
