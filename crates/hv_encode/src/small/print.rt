//! The printed form of a metaproduct.
ghost use Rattle.std.specs.Prelude.{◌≡◌, ◌<◌, ◌++◌, [], List, ℕ, length, map, IfOk, OnOk, cond, codes};
ghost use Rattle.std.specs.List.{All, flat_map};
ghost use Rattle.hv_model.specs.Name.{AllOptionNames};
ghost use Rattle.hv_plain.specs.Program.{shown, literal_tokens, statement_tokens, call_tokens, declaration_tokens, program_tokens};
ghost use Rattle.hv_plain.specs.Run.{variable_of, variables_of};
ghost use Rattle.hv_encode.specs.working.Lift.{HasOptions, literal_of, program_of, statements_of, test_text};

use crate::small::program::{Block, Metaproduct, OptionTest};
use hv_base::{Memory, Text};
use hv_model::Model;
use std::alloc::Global;

/// What stands before the name in a literal.
fn sign(negated: bool) -> &'static [u8]
    ensures { result.now ≡ cond negated (codes "! hv_opt_") (codes "hv_opt_") }
{
    if negated { b"! hv_opt_" } else { b"hv_opt_" }
}

/// Writes the literal of a test.
fn write_literal(text: &mut Text, model: &Model, test: OptionTest) -> Result<(), Memory>
    requires { test.option < length model.now.names }
    ensures { OnOk result
        (text.new ≡ text.old ++ shown (literal_tokens (literal_of model.now.names test))) }
{
    text.extend_from_slice(sign(test.negated))?;
    text.extend_from_slice(model.name(test.option).as_bytes())?;
    text.extend_from_slice(b" ")
}

/// What stands before a literal in a test of which there is a part already if `tested`.
fn opening(tested: bool) -> &'static [u8]
    ensures { result.now ≡ cond tested (codes "&& ") (codes "if ( ") }
{
    if tested { b"&& " } else { b"if ( " }
}

/// What stands after a test.
fn closing(tested: bool) -> &'static [u8]
    ensures { result.now ≡ cond tested (codes ") ") [] }
{
    if tested { b") " } else { b"" }
}

/// Writes the tests with their parentheses, and nothing where there is none.
fn write_test(text: &mut Text, model: &Model, tests: &[OptionTest]) -> Result<(), Memory>
    requires { All (λ test. test.option < length model.now.names) tests.now }
    ensures { OnOk result
        (text.new ≡ text.old ++ test_text (map (literal_of model.now.names) tests.now)) }
{
    let mut tested = false;
    for test in tests {
        text.extend_from_slice(opening(tested))?;
        write_literal(text, model, *test)?;
        tested = true;
    }
    text.extend_from_slice(closing(tested))
}

/// Writes the call that writes the byte.
fn write_call(text: &mut Text, byte: u8) -> Result<(), Memory>
    ensures { OnOk result (text.new ≡ text.old ++ shown (call_tokens byte)) }
{
    let mut buffer = itoa::Buffer::new();
    text.extend_from_slice(b"putchar ( ")?;
    text.extend_from_slice(buffer.format(byte).as_bytes())?;
    text.extend_from_slice(b" ) ;\n")
}

/// Writes the statements of a block, each with its test.
fn write_block(alloc: Global, text: &mut Text, model: &Model, block: &Block) -> Result<(), Memory>
    requires { HasOptions model.now.names block.now }
    ensures { OnOk result (text.new
        ≡ text.old ++ shown (flat_map statement_tokens (statements_of model.now.names block.now))) }
{
    let mut test = Text::new(alloc);
    write_test(&mut test, model, block.test.as_slice())?;
    let bytes = block.bytes.as_slice();
    for byte in bytes {
        text.extend_from_slice(test.as_slice())?;
        write_call(text, *byte)?;
    }
    Ok(())
}

/// Writes the declaration of an option's variable.
fn write_declaration(text: &mut Text, name: &str) -> Result<(), Memory>
    ensures { OnOk result
        (text.new ≡ text.old ++ shown (declaration_tokens (variable_of name.now))) }
{
    text.extend_from_slice(b"extern int hv_opt_")?;
    text.extend_from_slice(name.as_bytes())?;
    text.extend_from_slice(b" ;\n")
}

/// Writes the declarations of the variables of a model's options.
fn write_declarations(text: &mut Text, model: &Model) -> Result<(), Memory>
    ensures text { OnOk result (text.new
        ≡ text.old ++ shown (flat_map declaration_tokens (variables_of model.now.names))) }
    ensures names { AllOptionNames model.now.names }
{
    for option in 0..model.options() {
        write_declaration(text, model.name(option))?;
    }
    Ok(())
}

/// The printed metaproduct.
pub fn print(alloc: Global, model: &Model, product: &Metaproduct) -> Result<Text, Memory>
    requires { All (HasOptions model.now.names) product.now.blocks }
    ensures text { IfOk result
        (λ text. text ≡ shown (program_tokens (program_of model.now.names product.now))) }
    ensures names { AllOptionNames model.now.names }
{
    let mut text = Text::new(alloc);
    write_declarations(&mut text, model)?;
    text.extend_from_slice(b"int putchar ( int ) ;\nint main ( void ) {\n")?;
    let blocks = product.blocks.as_slice();
    for block in blocks {
        write_block(alloc, &mut text, model, block)?;
    }
    text.extend_from_slice(b"}\n")?;
    Ok(text)
}
