//! How long the longest punctuator is that a text begins with.

ghost use Rattle.std.specs.Prelude.{◌≡◌, ◌≤◌, ◌<◌, length, take, [], ◌∷◌, MatchOption};
ghost use Rattle.std.specs.List.{list_any};
ghost use Rattle.std.specs.Str.{bytes_eq};
ghost use Rattle.hv_lexer.specs.working.Cursors.{text_from};
ghost use Rattle.hv_lexer.specs.working.Lengths.{IsLongest, begins_with_punctuator};
ghost use Rattle.hv_toks.specs.Lexical.{longest, is_punctuator};

use crate::cursor::Next;

/// The punctuators of two bytes.
const PAIRS: [&str; 20] = [
    "->", "++", "--", "<<", ">>", "<=", ">=", "==", "!=", "&&", "||", "*=", "/=", "%=", "+=", "-=",
    "&=", "^=", "|=", "##",
];

/// The punctuators of three bytes.
const TRIPLES: [&str; 3] = ["...", "<<=", ">>="];

/// Whether the text is one of the words.
fn is_among(text: &[u8], words: &[&str]) -> bool
    ensures { result ≡ list_any (λ word. bytes_eq text.now word.now) words.now }
{
    words.iter().any(|word| text == word.as_bytes())
}

/// Whether the byte is a punctuator.
fn is_single(byte: u8) -> bool
    ensures { result ≡ is_punctuator (byte ∷ []) }
{
    matches!(
        byte,
        b'[' | b']'
            | b'('
            | b')'
            | b'{'
            | b'}'
            | b'.'
            | b'&'
            | b'*'
            | b'+'
            | b'-'
            | b'~'
            | b'!'
            | b'/'
            | b'%'
            | b'<'
            | b'>'
            | b'^'
            | b'|'
            | b'?'
            | b':'
            | b';'
            | b'='
            | b','
            | b'#'
    )
}

/// The first two bytes, or `None` where there is but one.
fn first_two(first: Next) -> Option<[u8; 2]>
    ensures { MatchOption result (length (text_from first.entry) < 2)
        (λ pair. (2 ≤ length (text_from first.entry)) × (pair ≡ take 2 (text_from first.entry))) }
{
    let second = first.rest.next()?;
    Some([first.byte, second.byte])
}

/// The first three bytes, or `None` where there are fewer.
fn first_three(first: Next) -> Option<[u8; 3]>
    ensures { MatchOption result (length (text_from first.entry) < 3)
        (λ triple. (3 ≤ length (text_from first.entry))
        × (triple ≡ take 3 (text_from first.entry))) }
{
    let second = first.rest.next()?;
    let third = second.rest.next()?;
    Some([first.byte, second.byte, third.byte])
}

fn is_pair(text: &[u8]) -> bool
    requires { length text.now ≡ 2 }
    ensures { result ≡ is_punctuator text.now }
{
    is_among(text, &PAIRS)
}

/// Whether the first two bytes are a punctuator.
fn begins_with_pair(first: Next) -> bool
    ensures { result ≡ begins_with_punctuator 2 (text_from first.entry) }
{
    match first_two(first) {
        Some(pair) => is_pair(&pair),
        None => false,
    }
}

fn is_triple(text: &[u8]) -> bool
    requires { length text.now ≡ 3 }
    ensures { result ≡ is_punctuator text.now }
{
    is_among(text, &TRIPLES)
}

/// Whether the first three bytes are a punctuator.
fn begins_with_triple(first: Next) -> bool
    ensures { result ≡ begins_with_punctuator 3 (text_from first.entry) }
{
    match first_three(first) {
        Some(triple) => is_triple(&triple),
        None => false,
    }
}

/// The length of the longest punctuator that comes first, 0 where there is none.
pub(crate) fn punctuator_len(first: Next) -> usize
    ensures value { result ≡ longest is_punctuator (text_from first.entry) }
    ensures greatest { IsLongest is_punctuator (text_from first.entry) result }
    ensures within { result ≤ length (text_from first.entry) }
{
    // Each punctuator begins with one of one byte, and most tokens don't.
    if !is_single(first.byte) {
        0
    } else if begins_with_triple(first) {
        3
    } else if begins_with_pair(first) {
        2
    } else {
        1
    }
}
