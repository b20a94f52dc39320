//! String literals: which bytes they mean (ISO/IEC 9899:1999, 6.4.5).
ghost use Rattle.std.specs.Prelude.{◌≡◌, ◌≤◌, ◌<◌, ◌+◌, length, IfOk};
ghost use Rattle.std.specs.List.{prefix_len};
ghost use Rattle.hv_toks.specs.Constants as constants;

use hv_base::{List, Memory, Text};
use hv_toks::{character, is_hexadecimal, is_octal};
use std::alloc::Global;

/// How many hexadecimal digits the text begins with.
fn hexadecimal_len(text: &[u8]) -> usize
    ensures value { result ≡ prefix_len constants.is_hexadecimal text.now }
    ensures within { result ≤ length text.now }
{
    text.iter()
        .take_while(|byte| is_hexadecimal(**byte))
        .count()
}

/// How many octal digits the text begins with.
fn octal_len(text: &[u8]) -> usize
    ensures value { result ≡ prefix_len constants.is_octal text.now }
    ensures within { result ≤ length text.now }
{
    text.iter().take_while(|byte| is_octal(**byte)).count()
}

/// How many bytes go with a backslash that stands before this text (6.4.4.4, paragraph 7).
fn escape_len(text: &[u8]) -> usize
    ensures value { result ≡ constants.escape_len text.now }
    ensures within { result ≤ length text.now }
{
    match text {
        [] => 0,
        [b'x', digits @ ..] => 1 + hexadecimal_len(digits),
        [first, ..] if is_octal(*first) => octal_len(text).min(3),
        _ => 1,
    }
}

/// How many bytes the first character of a literal has after its first byte.
fn more_len(text: &[u8]) -> usize
    ensures value { result ≡ constants.more_len text.now }
    ensures within { 0 < length text.now → result < length text.now }
{
    match text {
        [b'\\', rest @ ..] => escape_len(rest),
        _ => 0,
    }
}

/// How many bytes the first character of a literal has.
fn first_len(text: &[u8]) -> usize
    requires { 0 < length text.now }
    ensures value { result ≡ 1 + constants.more_len text.now }
    ensures within { result ≤ length text.now }
{
    1 + more_len(text)
}

/// The bytes that the characters of a literal mean, or `None` where one is no character.
fn read_characters(alloc: Global, quote: u8, text: &[u8]) -> Result<Option<Text>, Memory>
    ensures { IfOk result (λ bytes. bytes ≡ constants.characters quote 0 text.now) }
{
    let mut bytes = List::new(alloc);
    let mut rest = text;
    while !rest.is_empty() {
        let (first, after) = rest.split_at(first_len(rest));
        let Some(byte) = character(quote, first) else {
            return Ok(None);
        };
        bytes.add(byte)?;
        rest = after;
    }
    Ok(Some(bytes))
}

/// The bytes of a string literal, without the zero at its end, or `None` where the text is none or
/// a wide one.
pub(crate) fn read_string_literal(alloc: Global, text: &[u8]) -> Result<Option<Text>, Memory>
    ensures { IfOk result (λ bytes. bytes ≡ constants.string_literal text.now) }
{
    match text {
        [b'"', middle @ .., b'"'] => read_characters(alloc, b'"', middle),
        _ => Ok(None),
    }
}
