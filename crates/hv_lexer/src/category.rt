//! How long the longest prefix of a text is that is of some category of tokens; 0 where there is
//! none.

ghost use Rattle.std.specs.Prelude.{◌≡◌, ◌≤◌, ◌<◌, ◌-◌, ◌^◌, ◌||◌, ◌==◌, ◌&&◌, length, not, false};
ghost use Rattle.std.specs.List.{prefix_len, list_any};
ghost use Rattle.std.specs.Str.{bytes_eq};
ghost use Rattle.hv_lexer.specs.working.Cursors.{text_of, text_from};
ghost use Rattle.hv_lexer.specs.working.Lengths.{IsLongest, one_more};
ghost use Rattle.hv_base.specs.Ascii.{is_digit, is_identifier_byte, is_nondigit};
ghost use Rattle.hv_toks.specs.Lexical.{longest, continues_number, optional, is_identifier, is_exponent, is_sign, is_number, begins_with_digit, closes, is_quoted, is_char_constant, is_string_literal, is_enclosed, is_header_name, is_punctuator};

use crate::cursor::{Cursor, Next};
use hv_base::{is_identifier_byte, is_nondigit};

fn is_exponent(byte: u8) -> bool
    ensures { result ≡ is_exponent byte }
{
    matches!(byte, b'e' | b'E' | b'p' | b'P')
}

fn is_sign(byte: u8) -> bool
    ensures { result ≡ is_sign byte }
{
    matches!(byte, b'+' | b'-')
}

/// How many bytes the text begins with that may stand in an identifier after its first.
fn word_len(text: Cursor) -> usize
    ensures value { result ≡ prefix_len is_identifier_byte (text_of text.entry) }
    ensures within { result ≤ length (text_of text.entry) }
{
    let mut rest = text;
    let mut len = 0;
    while let Some(next) = rest.next() {
        if !is_identifier_byte(next.byte) {
            return len;
        }
        rest = next.rest;
        len += 1;
    }
    len
}

pub(crate) fn identifier_len(first: Next) -> usize
    ensures value { result ≡ longest is_identifier (text_from first.entry) }
    ensures greatest { IsLongest is_identifier (text_from first.entry) result }
    ensures within { result ≤ length (text_from first.entry) }
{
    if is_nondigit(first.byte) {
        1 + word_len(first.rest)
    } else {
        0
    }
}

/// Whether the byte may stand in a number after its start.
fn continues_number(exponent: bool, byte: u8) -> bool
    ensures { result ≡ (is_identifier_byte byte || byte == 46 || (exponent && is_sign byte)) }
{
    is_identifier_byte(byte) || byte == b'.' || (exponent && is_sign(byte))
}

/// How many bytes the text begins with that go on with a number.
fn number_rest_len(text: Cursor) -> usize
    ensures value { result ≡ longest (continues_number false) (text_of text.entry) }
    ensures within { result ≤ length (text_of text.entry) }
{
    let mut rest = text;
    let mut len = 0;
    let mut exponent = false;
    while let Some(next) = rest.next() {
        if !continues_number(exponent, next.byte) {
            return len;
        }
        exponent = is_exponent(next.byte);
        rest = next.rest;
        len += 1;
    }
    len
}

// Inlined, since a call would hand `first` on through memory.
#[inline(always)]
fn digits_len(first: Next) -> usize
    ensures value { result ≡ longest begins_with_digit (text_from first.entry) }
    ensures within { result ≤ length (text_from first.entry) }
{
    if first.byte.is_ascii_digit() {
        1 + number_rest_len(first.rest)
    } else {
        0
    }
}

/// One byte more than the prefix after it, if there is such a prefix.
fn after_byte(len: usize) -> usize
    requires { len < 2 ^ 64 - 1 }
    ensures { result ≡ one_more len }
{
    if len == 0 { 0 } else { len + 1 }
}

pub(crate) fn number_len(first: Next) -> usize
    ensures value { result ≡ longest is_number (text_from first.entry) }
    ensures greatest { IsLongest is_number (text_from first.entry) result }
    ensures within { result ≤ length (text_from first.entry) }
{
    if first.byte != b'.' {
        return digits_len(first);
    }
    match first.rest.next() {
        Some(second) => after_byte(digits_len(second)),
        None => 0,
    }
}

/// Whether the byte is the closing quote.
fn is_closing(escaped: bool, quote: u8, byte: u8) -> bool
    ensures { result ≡ (not escaped && byte == quote) }
{
    !escaped && byte == quote
}

/// Whether the byte takes the next one along.
fn is_escape(escaped: bool, escapes: bool, byte: u8) -> bool
    ensures { result ≡ (not escaped && (escapes && byte == 92)) }
{
    !escaped && escapes && byte == b'\\'
}

/// How many bytes there are up to and with the closing quote; 0 where there is none on the line.
fn closing_len(text: Cursor, escapes: bool, quote: u8) -> usize
    ensures value { result ≡ longest (closes escapes quote false) (text_of text.entry) }
    ensures within { result ≤ length (text_of text.entry) }
{
    let mut rest = text;
    let mut len = 0;
    let mut escaped = false;
    while let Some(next) = rest.next() {
        if next.byte == b'\n' {
            return 0;
        }
        if is_closing(escaped, quote, next.byte) {
            return len + 1;
        }
        escaped = is_escape(escaped, escapes, next.byte);
        rest = next.rest;
        len += 1;
    }
    0
}

fn quoted_len(first: Next, quote: u8) -> usize
    ensures value { result ≡ longest (is_quoted quote) (text_from first.entry) }
    ensures within { result ≤ length (text_from first.entry) }
{
    if first.byte == quote {
        after_byte(closing_len(first.rest, true, quote))
    } else {
        0
    }
}

// Inlined, since a call would hand `first` on through memory.
#[inline(always)]
fn wide_quoted_len(first: Next, quote: u8) -> usize
    requires { (quote ≡ 76) → ⊥ }
    ensures value { result ≡ longest (optional 76 (is_quoted quote)) (text_from first.entry) }
    ensures within { result ≤ length (text_from first.entry) }
{
    if first.byte != b'L' {
        return quoted_len(first, quote);
    }
    match first.rest.next() {
        Some(second) => after_byte(quoted_len(second, quote)),
        None => 0,
    }
}

pub(crate) fn char_constant_len(first: Next) -> usize
    ensures value { result ≡ longest is_char_constant (text_from first.entry) }
    ensures greatest { IsLongest is_char_constant (text_from first.entry) result }
    ensures within { result ≤ length (text_from first.entry) }
{
    wide_quoted_len(first, b'\'')
}

pub(crate) fn string_literal_len(first: Next) -> usize
    ensures value { result ≡ longest is_string_literal (text_from first.entry) }
    ensures greatest { IsLongest is_string_literal (text_from first.entry) result }
    ensures within { result ≤ length (text_from first.entry) }
{
    wide_quoted_len(first, b'"')
}

fn enclosed_len(text: Cursor, closing: u8) -> usize
    ensures value { result ≡ longest (is_enclosed closing) (text_of text.entry) }
    ensures within { result ≤ length (text_of text.entry) }
{
    match text.next() {
        Some(next) if next.byte != closing => closing_len(text, false, closing),
        _ => 0,
    }
}

pub(crate) fn header_name_len(first: Next) -> usize
    ensures value { result ≡ longest is_header_name (text_from first.entry) }
    ensures greatest { IsLongest is_header_name (text_from first.entry) result }
    ensures within { result ≤ length (text_from first.entry) }
{
    if first.byte == b'<' {
        after_byte(enclosed_len(first.rest, b'>'))
    } else if first.byte == b'"' {
        after_byte(enclosed_len(first.rest, b'"'))
    } else {
        0
    }
}
