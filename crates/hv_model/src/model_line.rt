//! The lines of a model file.
ghost use Rattle.std.specs.Prelude.{◌≡◌, ◌<◌, ◌≤◌, [], ◌∷◌, length, IfNone, IfSome};
ghost use Rattle.std.specs.List.{slice_split, position_or_len};
ghost use Rattle.hv_base.specs.Ascii.{is_newline};
ghost use Rattle.hv_model.specs.Bytes.{counted_lines, without_leading_blanks, without_return};
ghost use Rattle.hv_model.specs.working.ModelLine.{IsLine};
ghost use Rattle.hv_model.specs.Lines.{begins_comment, line_of, line_of_tokens, option_of};
ghost use Rattle.hv_model.specs.Token.{tokens, word as word_token};

use crate::name::is_option_name;
use crate::scan::{Token, next_token, skip_blanks};

/// What a line says.
#[derive(Clone, Copy)]
pub(crate) enum ModelLine<'a> {
    /// There are only blanks, or a comment.
    Nothing,
    /// There is a new option of this name.
    Option(&'a [u8]),
    /// There is a rule with this text.
    Rule(&'a [u8]),
    /// It is none of these.
    Bad,
}

/// Whether the line is a comment.
fn is_comment(line: &[u8]) -> bool
    ensures { result ≡ begins_comment (without_leading_blanks line.now) }
{
    matches!(skip_blanks(line), [b'#', ..])
}

/// The option that stands after `option`.
fn read_option(text: &[u8]) -> ModelLine<'_>
    ensures { IsLine (option_of (tokens text.now)) result }
{
    let Some((Token::Word(name), rest)) = next_token(text) else {
        return ModelLine::Bad;
    };
    if next_token(rest).is_none() && is_option_name(name) {
        ModelLine::Option(name)
    } else {
        ModelLine::Bad
    }
}

/// What a line says that begins with this word.
fn read_words<'a>(word: &[u8], rest: &'a [u8]) -> ModelLine<'a>
    ensures { IsLine (line_of_tokens (word_token word.now ∷ tokens rest.now)) result }
{
    if word == b"rule".as_slice() {
        ModelLine::Rule(rest)
    } else if word == b"option".as_slice() {
        read_option(rest)
    } else {
        ModelLine::Bad
    }
}

/// What the tokens of a line say.
fn read_tokens(line: &[u8]) -> ModelLine<'_>
    ensures { IsLine (line_of_tokens (tokens line.now)) result }
{
    let Some((token, rest)) = next_token(line) else {
        return ModelLine::Nothing;
    };
    match token {
        Token::Word(word) => read_words(word, rest),
        _ => ModelLine::Bad,
    }
}

/// What a line says.
pub(crate) fn read_line(line: &[u8]) -> ModelLine<'_>
    ensures { IsLine (line_of line.now) result }
{
    if is_comment(line) {
        ModelLine::Nothing
    } else {
        read_tokens(line)
    }
}

/// How many bytes stand before the first newline, or in all.
fn line_len(bytes: &[u8]) -> usize
    ensures value { result ≡ position_or_len is_newline bytes.now }
    ensures within { result ≤ length bytes.now }
{
    bytes.iter().take_while(|byte| **byte != b'\n').count()
}

/// The first line, without its newline, and what follows it. A last part that is empty is no line.
pub(crate) fn next_line(bytes: &[u8]) -> Option<(&[u8], &[u8])>
    ensures none { IfNone result (bytes.now ≡ []) }
    ensures some { IfSome result (λ parts. counted_lines (slice_split is_newline bytes.now)
        ≡ without_return parts.0.now ∷ counted_lines (slice_split is_newline parts.1.now)) }
    ensures shorter { IfSome result (λ parts. length parts.1.now < length bytes.now) }
{
    if bytes.is_empty() {
        return None;
    }
    let end = line_len(bytes);
    if end < bytes.len() {
        Some((&bytes[..end], &bytes[end + 1..]))
    } else {
        Some((bytes, &bytes[end..]))
    }
}

/// The line without its carriage return: one at a line's end is no part of it.
pub(crate) fn strip_return(line: &[u8]) -> &[u8]
    ensures { result.now ≡ without_return line.now }
{
    line.strip_suffix(b"\r").unwrap_or(line)
}
