//! Tokens as text.
ghost use Rattle.std.specs.Prelude.{◌≡◌, ◌++◌, cond, IfOk, OnOk};
ghost use Rattle.hv_base.specs.Ascii.{newline, space};
ghost use Rattle.hv_grammar.specs.Symbols as symbols;
ghost use Rattle.hv_print.specs.Shown.{ends_line, shown, shown_token};
ghost use Rattle.hv_print.specs.working.Printed.{comma_before, printed, shown_symbol};

use hv_base::{CTok, Keyword, List, Memory, Punct, Text};
use hv_ctoks::spell;
use hv_ctree::Constant;
use std::alloc::Global;

/// The printed form of tokens: each in its spelling, then a newline after `;`, `{` and `}`, else
/// one space.
pub fn print_tokens(alloc: Global, tokens: &[CTok]) -> Result<Text, Memory>
    ensures { IfOk result (λ text. text ≡ shown tokens.now) }
{
    let mut text = List::new(alloc);
    for token in tokens {
        put_token(&mut text, token)?;
    }
    Ok(text)
}

/// Adds a token as it is printed.
fn put_token(out: &mut Text, token: &CTok) -> Result<(), Memory>
    ensures { OnOk result (out.new ≡ out.old ++ shown_token token.now) }
{
    spell(out, token)?;
    out.add(byte_after(token))
}

/// What stands after a token: a newline or a space.
fn byte_after(token: &CTok) -> u8
    ensures { result ≡ cond (ends_line token.now) newline space }
{
    match token {
        CTok::Punct(Punct::Semicolon | Punct::LeftBrace | Punct::RightBrace) => b'\n',
        _ => b' ',
    }
}

/// Adds a punctuator.
#[tactic(auto, unfolding(crate::specs::working::Printed::shown_symbol))]
pub(crate) fn put_punct(out: &mut Text, punct: Punct) -> Result<(), Memory>
    ensures { OnOk result (out.new ≡ out.old ++ shown_symbol (symbols.sign punct)) }
{
    put_token(out, &CTok::Punct(punct))
}

/// Adds a keyword.
#[tactic(auto, unfolding(crate::specs::working::Printed::shown_symbol))]
pub(crate) fn put_keyword(out: &mut Text, word: Keyword) -> Result<(), Memory>
    ensures { OnOk result (out.new ≡ out.old ++ shown_symbol (symbols.keyword word)) }
{
    put_token(out, &CTok::Keyword(word))
}

/// Adds a constant.
#[tactic(auto, unfolding(crate::specs::working::Printed::shown_symbol))]
pub(crate) fn put_constant(out: &mut Text, value: Constant) -> Result<(), Memory>
    ensures { OnOk result (out.new ≡ out.old ++ shown_symbol (symbols.number value)) }
{
    match value {
        Constant::Integer { value, kind } => put_token(out, &CTok::Int { value, kind }),
        Constant::Character { value } => put_token(out, &CTok::Char(value)),
    }
}

/// Adds a name.
#[tactic(auto, unfolding(crate::specs::working::Printed::shown_symbol))]
pub(crate) fn put_name(out: &mut Text, text: &Text) -> Result<(), Memory>
    ensures { OnOk result (out.new ≡ out.old ++ shown_symbol (symbols.name text.now)) }
{
    out.extend_from_slice(text.as_slice())?;
    out.add(b' ')
}

/// Adds the name of a type, which is printed as any name is.
#[tactic(auto, unfolding(crate::specs::working::Printed::shown_symbol))]
pub(crate) fn put_typedef_name(out: &mut Text, text: &Text) -> Result<(), Memory>
    ensures { OnOk result (out.new ≡ out.old ++ shown_symbol (symbols.marked text.now)) }
{
    put_name(out, text)
}

/// Adds a string literal.
#[tactic(auto, unfolding(crate::specs::working::Printed::shown_symbol))]
pub(crate) fn put_string(alloc: Global, out: &mut Text, bytes: &Text) -> Result<(), Memory>
    ensures { OnOk result (out.new ≡ out.old ++ shown_symbol (symbols.text bytes.now)) }
{
    put_token(out, &CTok::Str(bytes.copy(alloc)?))
}

/// Adds the comma before the phrase of this index in a list.
pub(crate) fn put_comma_before(out: &mut Text, index: usize) -> Result<(), Memory>
    ensures { OnOk result (out.new ≡ out.old ++ printed (comma_before index)) }
{
    if index == 0 {
        Ok(())
    } else {
        put_punct(out, Punct::Comma)
    }
}
