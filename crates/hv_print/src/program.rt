//! Programs as text (6.9).
#![tactic(auto, using(crate::proofs::StatementSteps::statement_steps))]

ghost use Rattle.std.specs.Prelude.{◌≡◌, ◌++◌, IfOk, OnOk};
ghost use Rattle.hv_ctree.specs.tree.EraseStatements.{external_of, function_of, program_of};
ghost use Rattle.hv_print.specs.ProgramTokens.{external_tokens, function_tokens, program_tokens};
ghost use Rattle.hv_print.specs.Shown.{c_tokens, shown};
ghost use Rattle.hv_print.specs.working.Printed.{printed};

use crate::declaration::print_declaration;
use crate::declarator::print_declarator;
use crate::specifier::print_declared_words;
use crate::stmt::print_stmt;
use crate::token::put_punct;
use hv_base::{List, Memory, Punct, Text};
use hv_ctree::{ExternalDeclaration, FunctionDefinition, Program};
use std::alloc::Global;

/// The printed form of a program: that of the tokens of its tree (6.9).
pub fn print(alloc: Global, program: &Program) -> Result<Text, Memory>
    ensures { IfOk result
        (λ text. text ≡ shown (c_tokens (program_tokens (program_of program.now)))) }
{
    let mut text = List::new(alloc);
    for external in program.externals.as_slice() {
        print_external(alloc, &mut text, external)?;
    }
    Ok(text)
}

/// Adds an external declaration (6.9).
fn print_external(
    alloc: Global,
    out: &mut Text,
    external: &ExternalDeclaration,
) -> Result<(), Memory>
    ensures { OnOk result
        (out.new ≡ out.old ++ printed (external_tokens (external_of external.now))) }
{
    match external {
        ExternalDeclaration::Function { definition, .. } => print_function(alloc, out, definition),
        ExternalDeclaration::Declaration { declaration, .. } => {
            print_declaration(alloc, out, declaration)
        }
        ExternalDeclaration::Empty { .. } => put_punct(out, Punct::Semicolon),
    }
}

/// Adds a function's definition (6.9.1).
fn print_function(
    alloc: Global,
    out: &mut Text,
    function: &FunctionDefinition,
) -> Result<(), Memory>
    ensures { OnOk result
        (out.new ≡ out.old ++ printed (function_tokens (function_of function.now))) }
{
    print_declared_words(alloc, out, &function.specifiers)?;
    print_declarator(alloc, out, &function.declarator)?;
    print_stmt(alloc, out, &function.body)
}
