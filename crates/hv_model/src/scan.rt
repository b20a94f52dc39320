//! Cutting a line into tokens.
ghost use Rattle.std.specs.Prelude.{◌≡◌, ◌<◌, ◌≤◌, [], ◌∷◌, false, true, length, slice_index, IfNone, IfSome};
ghost use Rattle.std.specs.List.{prefix_len};
ghost use Rattle.std.specs.Option.{option_map};
ghost use Rattle.hv_base.specs.Ascii as ascii;
ghost use Rattle.hv_model.specs.Bytes.{without_leading_blanks};
ghost use Rattle.hv_model.specs.working.Said.{said};
ghost use Rattle.hv_model.specs.Token.{tokens, pair_of, single as single_of};

use hv_base::{is_blank, is_identifier_byte};

/// A token of a line.
#[derive(Clone, Copy)]
pub(crate) enum Token<'a> {
    Implies,
    Either,
    Both,
    Negate,
    Open,
    Close,
    /// Letters, digits and `_`, as many as stand side by side.
    Word(&'a [u8]),
    /// A byte that begins no token.
    Other,
}

/// How many blanks the text begins with.
fn blank_len(text: &[u8]) -> usize
    ensures value { result ≡ prefix_len ascii.is_blank text.now }
    ensures within { result ≤ length text.now }
{
    text.iter().take_while(|byte| is_blank(**byte)).count()
}

/// How many bytes of a word the text begins with.
fn word_len(text: &[u8]) -> usize
    ensures value { result ≡ prefix_len ascii.is_identifier_byte text.now }
    ensures within { result ≤ length text.now }
{
    text.iter()
        .take_while(|byte| is_identifier_byte(**byte))
        .count()
}

/// The text after its first blanks.
pub fn skip_blanks(text: &[u8]) -> &[u8]
    ensures value { result.now ≡ without_leading_blanks text.now }
    ensures same { tokens result.now ≡ tokens text.now }
    ensures shorter { length result.now ≤ length text.now }
    ensures first { prefix_len ascii.is_blank result.now ≡ 0 }
{
    &text[blank_len(text)..]
}

/// The token of two bytes, if these are one.
fn pair(first: u8, second: u8) -> Option<Token<'static>>
    ensures { option_map said result ≡ pair_of first second }
{
    match (first, second) {
        (b'=', b'>') => Some(Token::Implies),
        (b'|', b'|') => Some(Token::Either),
        (b'&', b'&') => Some(Token::Both),
        _ => None,
    }
}

/// The token of one byte.
fn single(byte: u8) -> Token<'static>
    ensures { said result ≡ single_of byte }
{
    match byte {
        b'!' => Token::Negate,
        b'(' => Token::Open,
        b')' => Token::Close,
        _ => Token::Other,
    }
}

/// The word that the text begins with, and what follows it.
fn word(text: &[u8]) -> (Token<'_>, &[u8])
    requires some { 0 < length text.now }
    requires word { ascii.is_identifier_byte (slice_index text.now 0) ≡ true }
    ensures cut { tokens text.now ≡ said result.0 ∷ tokens result.1.now }
    ensures shorter { length result.1.now < length text.now }
{
    let end = word_len(text);
    (Token::Word(&text[..end]), &text[end..])
}

/// The token that the text begins with, where it is no word, and what follows it.
fn symbol(text: &[u8]) -> (Token<'_>, &[u8])
    requires some { 0 < length text.now }
    requires no_blank { ascii.is_blank (slice_index text.now 0) ≡ false }
    requires no_word { ascii.is_identifier_byte (slice_index text.now 0) ≡ false }
    ensures cut { tokens text.now ≡ said result.0 ∷ tokens result.1.now }
    ensures shorter { length result.1.now < length text.now }
{
    if text.len() > 1 {
        if let Some(token) = pair(text[0], text[1]) {
            return (token, &text[2..]);
        }
    }
    (single(text[0]), &text[1..])
}

/// The first token and what follows it.
pub(crate) fn next_token(text: &[u8]) -> Option<(Token<'_>, &[u8])>
    ensures none { IfNone result (tokens text.now ≡ []) }
    ensures some { IfSome result (λ parts. tokens text.now ≡ said parts.0 ∷ tokens parts.1.now) }
    ensures shorter { IfSome result (λ parts. length parts.1.now < length text.now) }
{
    let rest = skip_blanks(text);
    if rest.is_empty() {
        return None;
    }
    if is_identifier_byte(rest[0]) {
        Some(word(rest))
    } else {
        Some(symbol(rest))
    }
}
