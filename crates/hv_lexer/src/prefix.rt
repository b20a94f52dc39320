//! What a text begins with.

ghost use Rattle.std.specs.Prelude.{◌≡◌, ◌≤◌, ◌<◌, length, IsTrue, codes, nat_eq};
ghost use Rattle.std.specs.List.{starts_with};
ghost use Rattle.hv_lexer.specs.working.Cursors.{text_of, text_from};
ghost use Rattle.hv_lexer.specs.working.Prefixes.{len_of, IsSome};
ghost use Rattle.hv_toks.specs.Cutting.{longer, longest_token, other, token_at, block_comment, prefix};

use crate::category::{
    char_constant_len, header_name_len, identifier_len, number_len, string_literal_len,
};
use crate::cursor::{Cursor, Next};
use crate::gap::{closing_len, line_len};
use crate::punctuator::punctuator_len;
use hv_base::is_line_space;
use hv_toks::{LinePrefix, Match, PpKind, Prefix};

fn longer(a: Match, b: Match) -> Match
    ensures { result ≡ longer a b }
{
    if a.len < b.len { b } else { a }
}

/// The longest token, whatever stands before it.
fn longest_token(first: Next) -> Match
    ensures value { result ≡ longest_token (text_from first.entry) }
    ensures within { result.len ≤ length (text_from first.entry) }
{
    let identifier = Match {
        kind: PpKind::Identifier,
        len: identifier_len(first),
    };
    let number = Match {
        kind: PpKind::Number,
        len: number_len(first),
    };
    let char_constant = Match {
        kind: PpKind::CharConstant,
        len: char_constant_len(first),
    };
    let string_literal = Match {
        kind: PpKind::StringLiteral,
        len: string_literal_len(first),
    };
    let punctuator = Match {
        kind: PpKind::Punctuator,
        len: punctuator_len(first),
    };
    longer(
        identifier,
        longer(
            number,
            longer(char_constant, longer(string_literal, punctuator)),
        ),
    )
}

/// What fits nothing: an unclosed quote with all its line, or one byte.
fn other(first: Next) -> Match
    ensures value { result ≡ other (text_from first.entry) }
    ensures within { result.len ≤ length (text_from first.entry) }
    ensures some { 0 < result.len }
{
    let len = match first.byte {
        b'\'' | b'"' => 1 + line_len(first.rest),
        _ => 1,
    };
    Match {
        kind: PpKind::Other,
        len,
    }
}

fn token_at(line: LinePrefix, first: Next) -> Match
    ensures value { result ≡ token_at line (text_from first.entry) }
    ensures within { result.len ≤ length (text_from first.entry) }
    ensures some { 0 < result.len }
{
    if let LinePrefix::Include = line {
        let len = header_name_len(first);
        if 0 < len {
            return Match {
                kind: PpKind::HeaderName,
                len,
            };
        }
    }
    let found = longest_token(first);
    if 0 < found.len { found } else { other(first) }
}

/// The comment that the text begins with.
fn block_comment(text: Cursor) -> Prefix
    requires { 2 ≤ length (text_of text) }
    ensures value { result ≡ block_comment (text_of text.entry) }
    ensures within { len_of result ≤ length (text_of text.entry) }
    ensures some { 0 < len_of result }
{
    let len = closing_len(text.skip(2));
    if len == 0 {
        Prefix::OpenComment
    } else {
        Prefix::Comment(2 + len)
    }
}

/// What the text begins with.
pub(crate) fn prefix(line: LinePrefix, text: Cursor) -> Prefix
    ensures value { result ≡ prefix line (text_of text.entry) }
    ensures within { len_of result ≤ length (text_of text.entry) }
    ensures some { IsSome result }
{
    let Some(first) = text.next() else {
        return Prefix::End;
    };
    if first.byte == b'\n' {
        Prefix::Newline
    } else if is_line_space(first.byte) {
        Prefix::WhiteSpace
    } else if first.begins(b'/', b'/') {
        Prefix::Comment(line_len(text))
    } else if first.begins(b'/', b'*') {
        block_comment(text)
    } else {
        Prefix::Token(token_at(line, first))
    }
}
