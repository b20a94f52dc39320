//! Reading and running a small program, token by token.
ghost use Rattle.std.specs.Prelude.{◌≡◌, length, map, IfOk, OnOk};
ghost use Rattle.std.specs.Option.{option_map};
ghost use Rattle.hv_plain.specs.Bytes.{is_gap};
ghost use Rattle.hv_plain.specs.declared.small.reader.Action.TheVariants.{Nothing};
ghost use Rattle.hv_plain.specs.working.SmallReader.{IsWithin, answer, after_argument, after_negated, byte_of, declared, known_value, is_done, known_after, next, next_at_operand, next_after_operand, next_in, next_in_body, next_in_declarations, option_number, output_after, reading, reading_of, wanted_of};

use crate::numeral::read_digits;
use hv_base::{Config, Memory, Text};
use hv_model::Model;
use std::alloc::Global;

/// The tokens from the declaration of `putchar` to the brace that opens `main`, but for the first.
const REST_OF_HEAD: [&str; 11] = [
    "putchar", "(", "int", ")", ";", "int", "main", "(", "void", ")", "{",
];

/// Where a small program goes on. A `bool` says whether the literals of the test that have been
/// read all hold.
#[derive(Clone, Copy)]
enum State {
    /// At a declaration.
    Declarations,
    /// At the name in the declaration of an option variable.
    Variable,
    /// At a statement, or at the end of `main`.
    Body,
    /// At a literal.
    Operand(bool),
    /// At the variable of a negated literal.
    Negated(bool),
    /// After a literal.
    AfterOperand(bool),
    /// At the argument of `putchar`.
    Byte(bool),
    /// After the program.
    End,
}

/// What has to follow in a text: these words, and then what the state says.
#[derive(Clone, Copy)]
struct Due {
    words: &'static [&'static str],
    state: State,
}

/// What is to be done at a token.
#[derive(Clone, Copy)]
enum Action {
    Nothing,
    /// The variable of the option of this number is declared.
    Declare(usize),
    /// This byte is written.
    Write(u8),
}

/// The reading of a token: what is due after it, and what is to be done.
#[derive(Clone, Copy)]
struct TokenReading {
    due: Due,
    action: Action,
}

impl TokenReading {
    /// The reading of a token at which nothing is to be done.
    fn to(words: &'static [&'static str], state: State) -> TokenReading
        ensures { reading_of result ≡ reading (map (λ word. word.now) words.now) state Nothing }
    {
        TokenReading {
            due: Due { words, state },
            action: Action::Nothing,
        }
    }
}

/// Whether the byte may stand between two tokens.
fn is_gap(byte: u8) -> bool
    ensures { result ≡ is_gap byte }
{
    byte == b' ' || byte == b'\t' || byte == b'\n'
}

/// The number of the option that the variable `token` stands for.
fn option_number(model: &Model, token: &[u8]) -> Option<usize>
    ensures { result ≡ option_number model.now.names token.now }
{
    model.position(token.strip_prefix(b"hv_opt_")?)
}

/// The value of the variable `token`, if it is declared.
fn known_value(model: &Model, known: &[Option<bool>], token: &[u8]) -> Option<bool>
    requires { length known.now ≡ length model.now.names }
    ensures { result ≡ known_value model.now.names known.now token.now }
{
    known[option_number(model, token)?]
}

/// Reads the first token of a declaration, or that of the declaration of `putchar`.
fn next_in_declarations(token: &[u8]) -> Option<TokenReading>
    ensures { option_map reading_of result ≡ next_in_declarations token.now }
{
    match token {
        b"extern" => Some(TokenReading::to(&["int"], State::Variable)),
        b"int" => Some(TokenReading::to(&REST_OF_HEAD, State::Body)),
        _ => None,
    }
}

/// Reads the first token of a statement, or the brace after the last.
fn next_in_body(token: &[u8]) -> Option<TokenReading>
    ensures { option_map reading_of result ≡ next_in_body token.now }
{
    match token {
        b"putchar" => Some(TokenReading::to(&["("], State::Byte(true))),
        b"if" => Some(TokenReading::to(&["("], State::Operand(true))),
        // The gap after the last token ends in an empty part of the text.
        b"}" => Some(TokenReading::to(&[""], State::End)),
        _ => None,
    }
}

/// Reads what stands after a literal.
fn next_after_operand(holds: bool, token: &[u8]) -> Option<TokenReading>
    ensures { option_map reading_of result ≡ next_after_operand holds token.now }
{
    match token {
        b"&&" => Some(TokenReading::to(&[], State::Operand(holds))),
        b")" => Some(TokenReading::to(&["putchar", "("], State::Byte(holds))),
        _ => None,
    }
}

/// Reads the `!` or the variable at which a literal begins.
fn next_at_operand(
    holds: bool,
    model: &Model,
    known: &[Option<bool>],
    token: &[u8],
) -> Option<TokenReading>
    requires { length known.now ≡ length model.now.names }
    ensures { option_map reading_of result
        ≡ next_at_operand holds (known_value model.now.names known.now token.now) token.now }
{
    if token == b"!".as_slice() {
        Some(TokenReading::to(&[], State::Negated(holds)))
    } else {
        let value = known_value(model, known, token)?;
        Some(TokenReading::to(&[], State::AfterOperand(holds && value)))
    }
}

/// Reads the variable of a negated literal.
fn next_at_negated(
    holds: bool,
    model: &Model,
    known: &[Option<bool>],
    token: &[u8],
) -> Option<TokenReading>
    requires { length known.now ≡ length model.now.names }
    ensures { option_map reading_of result
        ≡ after_negated holds (known_value model.now.names known.now token.now) }
{
    let value = known_value(model, known, token)?;
    Some(TokenReading::to(&[], State::AfterOperand(holds && !value)))
}

/// Reads the argument of `putchar`, which is written where the test holds.
fn next_at_byte(holds: bool, token: &[u8]) -> Option<TokenReading>
    ensures { option_map reading_of result ≡ after_argument holds (byte_of token.now) }
{
    let byte = read_digits(token)?;
    Some(TokenReading {
        due: Due {
            words: &[")", ";"],
            state: State::Body,
        },
        action: if holds {
            Action::Write(byte)
        } else {
            Action::Nothing
        },
    })
}

/// Reads the name of a variable that is declared.
fn next_at_variable(model: &Model, token: &[u8]) -> Option<TokenReading>
    ensures { option_map reading_of result ≡ declared (option_number model.now.names token.now) }
{
    let option = option_number(model, token)?;
    Some(TokenReading {
        due: Due {
            words: &[";"],
            state: State::Declarations,
        },
        action: Action::Declare(option),
    })
}

impl State {
    /// Reads the token at which this state is.
    fn next(self, model: &Model, known: &[Option<bool>], token: &[u8]) -> Option<TokenReading>
        requires { length known.now ≡ length model.now.names }
        ensures { option_map reading_of result ≡ next_in model.now.names known.now self token.now }
    {
        match self {
            State::Declarations => next_in_declarations(token),
            State::Variable => next_at_variable(model, token),
            State::Body => next_in_body(token),
            State::Operand(holds) => next_at_operand(holds, model, known, token),
            State::Negated(holds) => next_at_negated(holds, model, known, token),
            State::AfterOperand(holds) => next_after_operand(holds, token),
            State::Byte(holds) => next_at_byte(holds, token),
            State::End => None,
        }
    }
}

impl Due {
    /// Reads the token at which this is due.
    fn next(self, model: &Model, known: &[Option<bool>], token: &[u8]) -> Option<TokenReading>
        requires { length known.now ≡ length model.now.names }
        ensures { option_map reading_of result
            ≡ next model.now.names known.now (wanted_of self) token.now }
    {
        match self.words {
            [] => self.state.next(model, known, token),
            [word, words @ ..] => {
                if token == word.as_bytes() {
                    Some(TokenReading::to(words, self.state))
                } else {
                    None
                }
            }
        }
    }

    /// Whether nothing more is due.
    fn is_done(self) -> bool
        ensures { result ≡ is_done (wanted_of self) }
    {
        self.words.is_empty() && matches!(self.state, State::End)
    }
}

/// Does what is to be done at a token: `known` has the values of the variables declared so far, by
/// the numbers of their options.
fn perform(
    action: Action,
    config: &Config,
    known: &mut Vec<Option<bool>>,
    output: &mut Text,
) -> Result<(), Memory>
    requires { IsWithin (length known.old.items) action }
    ensures known { known.new.items ≡ known_after config.now.on action known.old.items }
    ensures output { OnOk result (output.new ≡ output_after action output.old) }
{
    match action {
        Action::Nothing => Ok(()),
        Action::Declare(option) => {
            known[option] = config.on.get(option).copied();
            Ok(())
        }
        Action::Write(byte) => output.push(byte).map_err(|_| Memory),
    }
}

/// The output of the small program that `text` is, or `None` where it isn't one.
pub(super) fn read(
    alloc: Global,
    text: &[u8],
    model: &Model,
    config: &Config,
) -> Result<Option<Text>, Memory>
    ensures { IfOk result (λ output. output ≡ answer model.now.names config.now.on text.now) }
{
    let mut known = vec![in alloc; None; model.options()]?;
    let mut output = Text::new(alloc);
    let mut due = Due {
        words: &[],
        state: State::Declarations,
    };
    for token in text.split(|byte| is_gap(*byte)) {
        match due.next(model, known.as_slice(), token) {
            Some(step) => {
                perform(step.action, config, &mut known, &mut output)?;
                due = step.due;
            }
            None => return Ok(None),
        }
    }
    if due.is_done() {
        Ok(Some(output))
    } else {
        Ok(None)
    }
}
