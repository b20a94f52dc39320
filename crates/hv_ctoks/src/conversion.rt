//! A preprocessing token becomes a C token, translation phase 7 (ISO/IEC 9899:1999, 5.1.1.2, 6.4).
ghost use Rattle.std.specs.Prelude.{◌≡◌, ℕ, List, Ok, Err, None, IfOk, IfErr, IsTrue};
ghost use Rattle.std.specs.List.{list_all};
ghost use Rattle.hv_ctoks.specs.Conversion as conversion;
ghost use Rattle.hv_ctoks.specs.Conversion.{IsFaultOf};
ghost use Rattle.hv_ctoks.specs.working.Kinds.{is_string_kind};
ghost use Rattle.hv_ctoks.specs.ReadBack.{BecomesToken};
ghost use Rattle.hv_ctoks.specs.Tokens.{is_byte};
ghost use Rattle.hv_lexer.specs.Printed.{is_spelling};
ghost use Rattle.hv_toks.specs.Lexical as lexical;
ghost use Rattle.hv_toks.specs.declared.token.PpKind.{PpKind as PpKindOf};

use crate::floating::is_floating;
use crate::literal::read_string_literal;
use crate::{ReservedNames, TokenFault};
use hv_base::{CTok, Keyword, Memory, Punct, Text, Why, is_among};
use hv_lexer::whole_token;
use hv_toks::{PpKind, PpTok, read_char_constant, read_int_constant};
use std::alloc::Global;

/// Whether the text is a keyword of 6.4.1 or a name that the profile leaves out.
fn is_left_out(text: &[u8]) -> bool
    ensures { result ≡ conversion.is_left_out text.now }
{
    is_among(
        text,
        &[
            "goto",
            "float",
            "double",
            "volatile",
            "_Complex",
            "_Imaginary",
            "__func__",
            "asm",
            "__FILE__",
            "__LINE__",
            "__DATE__",
            "__TIME__",
            "_Pragma",
        ],
    )
}

/// Whether the name is one that Hercules keeps for itself, where it is refused.
fn is_refused(reserved: ReservedNames, text: &[u8]) -> bool
    ensures { result ≡ conversion.is_refused reserved text.now }
{
    match reserved {
        ReservedNames::Allowed => false,
        ReservedNames::Refused => text.starts_with(b"hv_"),
    }
}

/// A name, or why it is refused.
fn name(alloc: Global, reserved: ReservedNames, text: &[u8]) -> Result<CTok, TokenFault>
    ensures ok { IfOk result (λ tok. conversion.name reserved text.now ≡ Ok tok) }
    ensures refused { IfErr result (IsFaultOf (conversion.name reserved text.now)) }
{
    if is_left_out(text) {
        return Err(TokenFault::Plain(Why::LeftOut));
    }
    if is_refused(reserved, text) {
        return Err(TokenFault::Plain(Why::Reserved));
    }
    match Text::from_slice(alloc, text) {
        Ok(copy) => Ok(CTok::Name(copy)),
        Err(_) => Err(TokenFault::Memory),
    }
}

/// An identifier becomes a keyword or a name (6.4.1, 6.4.2).
fn identifier(alloc: Global, reserved: ReservedNames, text: &[u8]) -> Result<CTok, TokenFault>
    ensures ok { IfOk result (λ tok. conversion.identifier reserved text.now ≡ Ok tok) }
    ensures refused { IfErr result (IsFaultOf (conversion.identifier reserved text.now)) }
{
    match Keyword::from_spelling(text) {
        Some(word) => Ok(CTok::Keyword(word)),
        None => name(alloc, reserved, text),
    }
}

/// Why what is no constant of the profile is refused.
fn no_constant(left_out: bool) -> Why
    ensures { result ≡ conversion.no_constant left_out }
{
    if left_out {
        Why::LeftOut
    } else {
        Why::BadConstant
    }
}

/// A preprocessing number becomes an integer constant (6.4.4.1).
fn number(text: &[u8]) -> Result<CTok, TokenFault>
    ensures ok { IfOk result (λ tok. conversion.number text.now ≡ Ok tok) }
    ensures refused { IfErr result (IsFaultOf (conversion.number text.now)) }
{
    match read_int_constant(text) {
        Some((value, kind)) => Ok(CTok::Int { value, kind }),
        None => Err(TokenFault::Plain(no_constant(is_floating(text)))),
    }
}

/// The value of a byte of type `char`.
fn char_value(byte: u8) -> i32
    ensures { result ≡ conversion.char_value byte }
{
    if byte < 128 {
        i32::from(byte)
    } else {
        i32::from(byte) - 256
    }
}

/// Whether the text is a wide character constant of one character.
fn is_wide_character(text: &[u8]) -> bool
    ensures { result ≡ conversion.wide conversion.is_character text.now }
{
    match text {
        [b'L', rest @ ..] => read_char_constant(rest).is_some(),
        _ => false,
    }
}

/// A character constant (6.4.4.4).
fn character(text: &[u8]) -> Result<CTok, TokenFault>
    ensures ok { IfOk result (λ tok. conversion.character text.now ≡ Ok tok) }
    ensures refused { IfErr result (IsFaultOf (conversion.character text.now)) }
{
    match read_char_constant(text) {
        Some(byte) => Ok(CTok::Char(char_value(byte))),
        None => Err(TokenFault::Plain(no_constant(is_wide_character(text)))),
    }
}

/// Whether this is the kind of string literals.
fn is_string_kind(kind: Option<PpKind>) -> bool
    ensures { result ≡ is_string_kind kind }
{
    matches!(kind, Some(PpKind::StringLiteral))
}

/// Whether the text is a string literal of the cutting, whatever its escapes.
fn is_string_literal(text: &[u8]) -> bool
    ensures { result ≡ lexical.is_string_literal text.now }
{
    is_string_kind(whole_token(text))
}

/// Whether the text is a wide string literal.
fn is_wide_string(alloc: Global, text: &[u8]) -> Result<bool, Memory>
    ensures { IfOk result (λ wide. wide ≡ conversion.wide conversion.is_string text.now) }
{
    match text {
        [b'L', rest @ ..] => match read_string_literal(alloc, rest) {
            Ok(bytes) => Ok(bytes.is_some()),
            Err(memory) => Err(memory),
        },
        _ => Ok(false),
    }
}

/// Why a string literal that has no bytes is refused.
fn no_string(alloc: Global, text: &[u8]) -> TokenFault
    ensures { IsFaultOf
        (conversion.string_from (conversion.wide conversion.is_string text.now) None) result }
{
    match is_wide_string(alloc, text) {
        Ok(left_out) => TokenFault::Plain(no_constant(left_out)),
        Err(_) => TokenFault::Memory,
    }
}

/// A string literal (6.4.5).
fn string(alloc: Global, text: &[u8]) -> Result<CTok, TokenFault>
    ensures ok { IfOk result (λ tok. conversion.string text.now ≡ Ok tok) }
    ensures refused { IfErr result (IsFaultOf (conversion.string text.now)) }
{
    if !is_string_literal(text) {
        return Err(TokenFault::Plain(Why::Syntax));
    }
    match read_string_literal(alloc, text) {
        Ok(Some(bytes)) => Ok(CTok::Str(bytes)),
        Ok(None) => Err(no_string(alloc, text)),
        Err(_) => Err(TokenFault::Memory),
    }
}

/// A punctuator (6.4.6).
fn punctuator(text: &[u8]) -> Result<CTok, TokenFault>
    ensures ok { IfOk result (λ tok. conversion.punctuator text.now ≡ Ok tok) }
    ensures refused { IfErr result (IsFaultOf (conversion.punctuator text.now)) }
{
    match Punct::from_spelling(text) {
        Some(sign) => Ok(CTok::Punct(sign)),
        None => Err(TokenFault::Plain(Why::Syntax)),
    }
}

/// What a preprocessing token of this kind and spelling becomes.
fn convert_text(
    alloc: Global,
    reserved: ReservedNames,
    kind: PpKind,
    text: &[u8],
) -> Result<CTok, TokenFault>
    ensures ok { IfOk result (λ tok. conversion.converted reserved kind text.now ≡ Ok tok) }
    ensures refused { IfErr result (IsFaultOf (conversion.converted reserved kind text.now)) }
{
    match kind {
        PpKind::Identifier => identifier(alloc, reserved, text),
        PpKind::Number => number(text),
        PpKind::CharConstant => character(text),
        PpKind::StringLiteral => string(alloc, text),
        PpKind::Punctuator => punctuator(text),
        PpKind::HeaderName | PpKind::Other => Err(TokenFault::Plain(Why::Syntax)),
    }
}

/// The C token that a preprocessing token becomes (5.1.1.2, phase 7), or why the source is refused.
/// Linear in the length of its spelling.
pub fn convert(alloc: Global, token: &PpTok, reserved: ReservedNames) -> Result<CTok, TokenFault>
    ensures ok { IfOk result (λ tok.
        conversion.converted reserved token.now.kind token.now.text ≡ Ok tok) }
    // the source is refused so; want of memory alone may be answered at any token
    ensures refused { IfErr result
        (IsFaultOf (conversion.converted reserved token.now.kind token.now.text)) }
    // a spelling of its kind becomes no other C tokens than those of the profile
    ensures token { (kind : PpKindOf) (text : List ℕ) → IsTrue (is_spelling kind text)
        → IsTrue (list_all is_byte text) → BecomesToken reserved kind text }
{
    convert_text(alloc, reserved, token.kind, token.text.as_slice())
}
