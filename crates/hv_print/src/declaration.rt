//! Declarations and initialisers as text (6.7, 6.7.8).
#![tactic(auto, using(crate::proofs::StatementSteps::statement_steps))]

ghost use Rattle.std.specs.Prelude.{◌≡◌, ◌++◌, OnOk};
ghost use Rattle.hv_ctree.specs.tree.EraseStatements.{declaration_of, init_declarator_of, init_declarators_after, initializer_of, initializers_of, item_after, designation_of};
ghost use Rattle.hv_ctree.specs.tree.Statements as plain;
ghost use Rattle.hv_grammar.specs.Tokens.{declaration_tokens, init_declarators_tokens, init_declarator_tokens, initializer_tokens, initializers_tokens, designation_tokens};
ghost use Rattle.hv_print.specs.working.Printed.{printed};

use crate::declarator::print_declarator;
use crate::expr::print_expr;
use crate::specifier::print_declared_words;
use crate::token::{put_comma_before, put_name, put_punct};
use hv_base::{List, Memory, Punct, Text};
use hv_ctree::{Declaration, Designator, InitDeclarator, Initializer, InitializerItem};
use std::alloc::Global;
use std::rc::Rc;

/// Adds a declaration with its `;` (6.7).
pub(crate) fn print_declaration(
    alloc: Global,
    out: &mut Text,
    declaration: &Declaration,
) -> Result<(), Memory>
    ensures { OnOk result
        (out.new ≡ out.old ++ printed (declaration_tokens (declaration_of declaration.now))) }
{
    print_declared_words(alloc, out, &declaration.specifiers)?;
    print_init_declarators(alloc, out, &declaration.declarators)?;
    put_punct(out, Punct::Semicolon)
}

/// Adds declarators with their initialisers, with commas between them (6.7).
fn print_init_declarators(
    alloc: Global,
    out: &mut Text,
    declarators: &List<Rc<InitDeclarator>>,
) -> Result<(), Memory>
    ensures { OnOk result
        (out.new ≡ out.old
        ++ printed (init_declarators_tokens
        (init_declarators_after plain.no_init_declarators declarators.now))) }
{
    for (index, declarator) in declarators.as_slice().iter().enumerate() {
        put_comma_before(out, index)?;
        print_init_declarator(alloc, out, declarator)?;
    }
    Ok(())
}

/// Adds a declarator with its initialiser, if it has one (6.7).
fn print_init_declarator(
    alloc: Global,
    out: &mut Text,
    declarator: &InitDeclarator,
) -> Result<(), Memory>
    ensures { OnOk result
        (out.new ≡ out.old
        ++ printed (init_declarator_tokens (init_declarator_of declarator.now))) }
{
    match declarator {
        InitDeclarator::Plain { declarator, .. } => print_declarator(alloc, out, declarator),
        InitDeclarator::Initialized {
            declarator,
            initializer,
            ..
        } => {
            print_declarator(alloc, out, declarator)?;
            put_punct(out, Punct::Equal)?;
            print_initializer(alloc, out, initializer)
        }
    }
}

/// Adds an initialiser (6.7.8).
#[cycle(initializer)]
fn print_initializer(alloc: Global, out: &mut Text, initializer: &Initializer) -> Result<(), Memory>
    ensures { OnOk result
        (out.new ≡ out.old ++ printed (initializer_tokens (initializer_of initializer.now))) }
{
    match initializer {
        Initializer::Expression { value, .. } => print_expr(alloc, out, value),
        Initializer::List { items, .. } => {
            put_punct(out, Punct::LeftBrace)?;
            print_initializers(alloc, out, items)?;
            put_punct(out, Punct::RightBrace)
        }
        Initializer::ListComma { items, .. } => {
            put_punct(out, Punct::LeftBrace)?;
            print_initializers(alloc, out, items)?;
            put_punct(out, Punct::Comma)?;
            put_punct(out, Punct::RightBrace)
        }
    }
}

/// Adds the entries of an initialiser in braces, with commas between them (6.7.8).
#[cycle(initializer)]
fn print_initializers(
    alloc: Global,
    out: &mut Text,
    items: &List<Rc<InitializerItem>>,
) -> Result<(), Memory>
    ensures { OnOk result
        (out.new ≡ out.old ++ printed (initializers_tokens (initializers_of items.now))) }
{
    for (index, item) in items.as_slice().iter().enumerate() {
        put_comma_before(out, index)?;
        print_item(alloc, out, item)?;
    }
    Ok(())
}

/// Adds an entry of an initialiser in braces (6.7.8).
#[cycle(initializer)]
fn print_item(alloc: Global, out: &mut Text, item: &InitializerItem) -> Result<(), Memory>
    ensures { OnOk result
        (out.new ≡ out.old
        ++ printed (initializers_tokens (item_after plain.no_initializers item.now))) }
{
    match item {
        InitializerItem::Plain { initializer, .. } => print_initializer(alloc, out, initializer),
        InitializerItem::Designated {
            designator,
            initializer,
            ..
        } => {
            print_designation(alloc, out, designator)?;
            print_initializer(alloc, out, initializer)
        }
    }
}

/// Adds what an initialiser is for, with its `=` (6.7.8).
fn print_designation(alloc: Global, out: &mut Text, designator: &Designator) -> Result<(), Memory>
    ensures { OnOk result
        (out.new ≡ out.old ++ printed (designation_tokens (designation_of designator.now))) }
{
    match designator {
        Designator::Index { index, .. } => {
            put_punct(out, Punct::LeftBracket)?;
            print_expr(alloc, out, index)?;
            put_punct(out, Punct::RightBracket)?;
            put_punct(out, Punct::Equal)
        }
        Designator::Member { name, .. } => {
            put_punct(out, Punct::Dot)?;
            put_name(out, name)?;
            put_punct(out, Punct::Equal)
        }
    }
}
