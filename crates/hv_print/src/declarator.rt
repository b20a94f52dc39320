//! Declarators and parameters as text (6.7.5, 6.7.6).
#![tactic(auto, using(crate::proofs::PhraseSteps::phrase_steps))]

ghost use Rattle.std.specs.Prelude.{◌≡◌, ◌++◌, OnOk};
ghost use Rattle.hv_ctree.specs.tree.Erase.{pointers_of, qualifiers_of, declarator_of, core_of, abstract_of, abstract_core_of, may_abstract_of, may_abstract_core_of, suffixes_of, suffix_of, parameter_types_of, parameters_of, parameter_of};
ghost use Rattle.hv_grammar.specs.Tokens.{pointers_tokens, qualifiers_tokens, declarator_tokens, core_tokens, may_declarator_tokens, suffixes_tokens, suffix_tokens, parameter_types_tokens, parameters_tokens, parameter_tokens};
ghost use Rattle.hv_print.specs.working.Printed.{printed};

use crate::expr::print_expr;
use crate::specifier::print_declared_words;
use crate::token::{put_comma_before, put_keyword, put_name, put_punct};
use crate::word::qualifier_word;
use hv_base::{List, Memory, Punct, Text};
use hv_ctree::{
    AbstractDeclarator, Declarator, DirectAbstractDeclarator, DirectDeclarator,
    ParameterDeclaration, ParameterTypeList, Pointer, Suffix, TypeQualifier,
};
use std::alloc::Global;
use std::rc::Rc;

/// Adds the `*`s of a declarator with their qualifiers (6.7.5).
pub(crate) fn put_pointers(out: &mut Text, pointers: &List<Pointer>) -> Result<(), Memory>
    ensures { OnOk result
        (out.new ≡ out.old ++ printed (pointers_tokens (pointers_of pointers.now))) }
{
    for pointer in pointers.as_slice() {
        put_punct(out, Punct::Star)?;
        put_qualifiers(out, &pointer.qualifiers)?;
    }
    Ok(())
}

/// Adds type qualifiers (6.7.3).
fn put_qualifiers(out: &mut Text, qualifiers: &List<TypeQualifier>) -> Result<(), Memory>
    ensures { OnOk result
        (out.new ≡ out.old ++ printed (qualifiers_tokens (qualifiers_of qualifiers.now))) }
{
    for qualifier in qualifiers.as_slice() {
        put_keyword(out, qualifier_word(*qualifier))?;
    }
    Ok(())
}

/// Adds a declarator (6.7.5).
#[cycle(phrase)]
pub(crate) fn print_declarator(
    alloc: Global,
    out: &mut Text,
    declarator: &Declarator,
) -> Result<(), Memory>
    ensures { OnOk result
        (out.new ≡ out.old ++ printed (declarator_tokens (declarator_of declarator.now))) }
{
    match declarator {
        Declarator::Of {
            pointers,
            direct,
            suffixes,
            ..
        } => {
            put_pointers(out, pointers)?;
            print_direct(alloc, out, direct)?;
            print_suffixes(alloc, out, suffixes)
        }
    }
}

/// Adds what a direct declarator begins with (6.7.5).
#[cycle(phrase)]
fn print_direct(alloc: Global, out: &mut Text, direct: &DirectDeclarator) -> Result<(), Memory>
    ensures { OnOk result (out.new ≡ out.old ++ printed (core_tokens (core_of direct.now))) }
{
    match direct {
        DirectDeclarator::Name { name, .. } => put_name(out, name),
        DirectDeclarator::Group { inner, .. } => {
            put_punct(out, Punct::LeftParenthesis)?;
            print_declarator(alloc, out, inner)?;
            put_punct(out, Punct::RightParenthesis)
        }
    }
}

/// Adds an abstract declarator, if there is one (6.7.6).
#[cycle(phrase)]
pub(crate) fn print_may_abstract(
    alloc: Global,
    out: &mut Text,
    declarator: &Option<Rc<AbstractDeclarator>>,
) -> Result<(), Memory>
    ensures { OnOk result
        (out.new ≡ out.old ++ printed (may_declarator_tokens (may_abstract_of declarator.now))) }
{
    match declarator {
        Some(declarator) => print_abstract(alloc, out, declarator),
        None => Ok(()),
    }
}

/// Adds an abstract declarator (6.7.6).
#[cycle(phrase)]
fn print_abstract(
    alloc: Global,
    out: &mut Text,
    declarator: &AbstractDeclarator,
) -> Result<(), Memory>
    ensures { OnOk result
        (out.new ≡ out.old ++ printed (declarator_tokens (abstract_of declarator.now))) }
{
    match declarator {
        AbstractDeclarator::Of {
            pointers,
            direct,
            suffixes,
            ..
        } => {
            put_pointers(out, pointers)?;
            print_may_direct(alloc, out, direct)?;
            print_suffixes(alloc, out, suffixes)
        }
    }
}

/// Adds what a direct abstract declarator begins with, if it is anything (6.7.6).
#[cycle(phrase)]
fn print_may_direct(
    alloc: Global,
    out: &mut Text,
    direct: &Option<Rc<DirectAbstractDeclarator>>,
) -> Result<(), Memory>
    ensures { OnOk result
        (out.new ≡ out.old ++ printed (core_tokens (may_abstract_core_of direct.now))) }
{
    match direct {
        Some(direct) => print_direct_abstract(alloc, out, direct),
        None => Ok(()),
    }
}

/// Adds what a direct abstract declarator begins with (6.7.6).
#[cycle(phrase)]
fn print_direct_abstract(
    alloc: Global,
    out: &mut Text,
    direct: &DirectAbstractDeclarator,
) -> Result<(), Memory>
    ensures { OnOk result
        (out.new ≡ out.old ++ printed (core_tokens (abstract_core_of direct.now))) }
{
    match direct {
        DirectAbstractDeclarator::Group { inner, .. } => {
            put_punct(out, Punct::LeftParenthesis)?;
            print_abstract(alloc, out, inner)?;
            put_punct(out, Punct::RightParenthesis)
        }
    }
}

/// Adds what stands after a direct declarator (6.7.5).
#[cycle(phrase)]
fn print_suffixes(alloc: Global, out: &mut Text, suffixes: &List<Rc<Suffix>>) -> Result<(), Memory>
    ensures { OnOk result
        (out.new ≡ out.old ++ printed (suffixes_tokens (suffixes_of suffixes.now))) }
{
    for suffix in suffixes.as_slice() {
        print_suffix(alloc, out, suffix)?;
    }
    Ok(())
}

/// Adds brackets or parentheses of a declarator (6.7.5.2, 6.7.5.3).
#[cycle(phrase)]
fn print_suffix(alloc: Global, out: &mut Text, suffix: &Suffix) -> Result<(), Memory>
    ensures { OnOk result (out.new ≡ out.old ++ printed (suffix_tokens (suffix_of suffix.now))) }
{
    match suffix {
        Suffix::Unsized { qualifiers, .. } => {
            put_punct(out, Punct::LeftBracket)?;
            put_qualifiers(out, qualifiers)?;
            put_punct(out, Punct::RightBracket)
        }
        Suffix::Sized {
            qualifiers,
            length,
            ..
        } => {
            put_punct(out, Punct::LeftBracket)?;
            put_qualifiers(out, qualifiers)?;
            print_expr(alloc, out, length)?;
            put_punct(out, Punct::RightBracket)
        }
        Suffix::Function { parameters, .. } => {
            put_punct(out, Punct::LeftParenthesis)?;
            print_parameter_types(alloc, out, parameters)?;
            put_punct(out, Punct::RightParenthesis)
        }
        Suffix::Unprototyped { .. } => {
            put_punct(out, Punct::LeftParenthesis)?;
            put_punct(out, Punct::RightParenthesis)
        }
    }
}

/// Adds the parameters of a function, with `, ...` where they end so (6.7.5).
#[cycle(phrase)]
fn print_parameter_types(
    alloc: Global,
    out: &mut Text,
    types: &ParameterTypeList,
) -> Result<(), Memory>
    ensures { OnOk result
        (out.new ≡ out.old ++ printed (parameter_types_tokens (parameter_types_of types.now))) }
{
    match types {
        ParameterTypeList::Fixed { parameters, .. } => print_parameters(alloc, out, parameters),
        ParameterTypeList::Variadic { parameters, .. } => {
            print_parameters(alloc, out, parameters)?;
            put_punct(out, Punct::Comma)?;
            put_punct(out, Punct::Ellipsis)
        }
    }
}

/// Adds parameters, with commas between them (6.7.5).
#[cycle(phrase)]
fn print_parameters(
    alloc: Global,
    out: &mut Text,
    parameters: &List<Rc<ParameterDeclaration>>,
) -> Result<(), Memory>
    ensures { OnOk result
        (out.new ≡ out.old ++ printed (parameters_tokens (parameters_of parameters.now))) }
{
    for (index, parameter) in parameters.as_slice().iter().enumerate() {
        put_comma_before(out, index)?;
        print_parameter(alloc, out, parameter)?;
    }
    Ok(())
}

/// Adds a parameter (6.7.5).
#[cycle(phrase)]
fn print_parameter(
    alloc: Global,
    out: &mut Text,
    parameter: &ParameterDeclaration,
) -> Result<(), Memory>
    ensures { OnOk result
        (out.new ≡ out.old ++ printed (parameter_tokens (parameter_of parameter.now))) }
{
    match parameter {
        ParameterDeclaration::Named {
            specifiers,
            declarator,
            ..
        } => {
            print_declared_words(alloc, out, specifiers)?;
            print_declarator(alloc, out, declarator)
        }
        ParameterDeclaration::Abstract {
            specifiers,
            declarator,
            ..
        } => {
            print_declared_words(alloc, out, specifiers)?;
            print_may_abstract(alloc, out, declarator)
        }
    }
}
