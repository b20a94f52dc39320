//! Classes of bytes, and whether a text is one of several words.
ghost use Rattle.std.specs.Prelude.{◌≡◌, map};
ghost use Rattle.std.specs.List.{list_any};
ghost use Rattle.std.specs.Str.{bytes_eq};
ghost use Rattle.hv_base.specs.Ascii as ascii;

/// Whether the byte is a letter from `A` to `Z` or from `a` to `z` (5.2.1).
#[inline]
pub fn is_letter(byte: u8) -> bool
    ensures { result ≡ ascii.is_letter byte }
{
    matches!(byte, b'A'..=b'Z' | b'a'..=b'z')
}

/// Whether an identifier may begin with the byte: a letter or `_` (6.4.2.1).
#[inline]
pub fn is_nondigit(byte: u8) -> bool
    ensures { result ≡ ascii.is_nondigit byte }
{
    matches!(byte, b'A'..=b'Z' | b'a'..=b'z' | b'_')
}

/// Whether the byte is a digit from `0` to `9` (6.4.2.1).
#[inline]
pub fn is_digit(byte: u8) -> bool
    ensures { result ≡ ascii.is_digit byte }
{
    byte.is_ascii_digit()
}

/// Whether the byte may follow in an identifier (6.4.2.1).
#[inline]
pub fn is_identifier_byte(byte: u8) -> bool
    ensures { result ≡ ascii.is_identifier_byte byte }
{
    is_nondigit(byte) || is_digit(byte)
}

/// Whether the byte is a space or a tab.
#[inline]
pub fn is_blank(byte: u8) -> bool
    ensures { result ≡ ascii.is_blank byte }
{
    byte == b' ' || byte == b'\t'
}

/// Whether the byte is white space within a line (6.4): a space, a tab, a vertical tab, a form feed
/// or a carriage return.
#[inline]
pub fn is_line_space(byte: u8) -> bool
    ensures { result ≡ ascii.is_line_space byte }
{
    matches!(byte, b' ' | b'\t' | 11 | 12 | b'\r')
}

/// Whether the byte prints as one character, from space to `~`.
#[inline]
pub fn is_printable(byte: u8) -> bool
    ensures { result ≡ ascii.is_printable byte }
{
    matches!(byte, b' '..=b'~')
}

/// Whether the text is one of the words.
fn is_one_of(text: &[u8], words: &[&str]) -> bool
    ensures { result ≡ list_any (λ word. bytes_eq text.now word.now) words.now }
{
    words.iter().any(|word| text == word.as_bytes())
}

/// Whether the text is one of the words.
pub fn is_among(text: &[u8], words: &[&str]) -> bool
    ensures { result ≡ ascii.is_among text.now (map (λ word. word.now) words.now) }
{
    is_one_of(text, words)
}
