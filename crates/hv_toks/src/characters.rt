//! Reading character constants: what their spellings mean (ISO/IEC 9899:1999, 6.4.4.4).
ghost use Rattle.std.specs.Prelude.{◌≡◌};
ghost use Rattle.hv_toks.specs.Constants as constants;

use crate::constants::{digit, number};

/// The byte of a simple escape sequence.
fn simple_escape(byte: u8) -> Option<u64>
    ensures { result ≡ constants.simple_escape byte }
{
    match byte {
        b'\'' | b'"' | b'?' | b'\\' => Some(u64::from(byte)),
        b'a' => Some(7),
        b'b' => Some(8),
        b'f' => Some(12),
        b'n' => Some(10),
        b'r' => Some(13),
        b't' => Some(9),
        b'v' => Some(11),
        _ => None,
    }
}

/// The value of a simple escape, or of one to three octal digits.
fn simple_or_octal(text: &[u8]) -> Option<u64>
    ensures { result ≡ constants.simple_or_octal text.now }
{
    match text {
        [byte] if digit(*byte) < 8 => Some(digit(*byte)),
        [byte] => simple_escape(*byte),
        _ if text.len() <= 3 => number(8, text),
        _ => None,
    }
}

/// The value of an escape sequence, without its backslash.
fn escape(text: &[u8]) -> Option<u64>
    ensures { result ≡ constants.escape text.now }
{
    match text {
        [] => None,
        [b'x', digits @ ..] => number(16, digits),
        _ => simple_or_octal(text),
    }
}

/// The value, if it fits a byte.
fn as_byte(value: u64) -> Option<u8>
    ensures { result ≡ constants.as_byte value }
{
    if value < 256 { Some(value as u8) } else { None }
}

/// The byte that one character between quotes means (6.4.4.4, 6.4.5), or `None` where the text is
/// no such character.
pub fn character(quote: u8, text: &[u8]) -> Option<u8>
    ensures { result ≡ constants.character quote text.now }
{
    match text {
        [] => None,
        [b'\\', rest @ ..] => as_byte(escape(rest)?),
        [byte] if *byte != quote && *byte != b'\n' => Some(*byte),
        _ => None,
    }
}

/// The byte of a character constant of one character (6.4.4.4), or `None` where the text is none.
pub fn read_char_constant(text: &[u8]) -> Option<u8>
    ensures { result ≡ constants.char_constant text.now }
{
    match text {
        [b'\'', middle @ .., b'\''] => character(b'\'', middle),
        _ => None,
    }
}
