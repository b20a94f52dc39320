//! A file as text and directives.
ghost use Rattle.std.specs.Prelude.{◌≡◌, ◌∷◌, ◌<◌, [], IfNone, IfOk, IfSome, length, map};
ghost use Rattle.std.specs.List.{position_or_len};
ghost use Rattle.hv_plainpp.specs.Lines as lines;
ghost use Rattle.hv_directives.specs.Values.{piece_of};
ghost use Rattle.hv_directives.specs.working.Steps as steps;

use hv_base::Memory;
use hv_plain::RunEnd;
use hv_toks::PpTok;
use std::alloc::Global;

/// A directive of a file, or the text between two directives that are neighbours in it, or before
/// the first or after the last one (ISO/IEC 9899:1999, 6.10).
#[derive(Clone, Copy, Debug)]
pub enum Piece<'a> {
    /// The tokens of text lines, of which there is one at least, and what follows them.
    Text { run: &'a [PpTok], ends: RunEnd },
    /// The `#` of a directive, and what follows it on its line.
    Directive { hash: &'a PpTok, line: &'a [PpTok] },
}

/// Whether a line that begins with this token is a directive (6.10, paragraph 2).
fn begins_directive(token: &PpTok) -> bool
    ensures { result ≡ lines.begins_directive token.now }
{
    token.first && token.text.as_slice() == b"#".as_slice()
}

/// How many of the tokens belong to the line before them.
fn line_len(tokens: &[PpTok]) -> usize
    ensures { result ≡ position_or_len (λ token. token.first) tokens.now }
{
    tokens
        .iter()
        .position(|token| token.first)
        .unwrap_or(tokens.len())
}

/// How many tokens there are before the next directive.
fn text_len(tokens: &[PpTok]) -> usize
    ensures { result ≡ position_or_len lines.begins_directive tokens.now }
{
    tokens
        .iter()
        .position(begins_directive)
        .unwrap_or(tokens.len())
}

/// What ends a text, by the tokens after it.
fn end_before(after: &[PpTok]) -> RunEnd
    ensures { result ≡ steps.end_before after.now }
{
    match after {
        [] => RunEnd::FileEnd,
        [_, ..] => RunEnd::Directive,
    }
}

/// The first piece of these tokens, and the tokens after it; `None` where there is no token.
fn first_piece(tokens: &[PpTok]) -> Option<(Piece<'_>, &[PpTok])>
    ensures none { IfNone result (tokens.now ≡ []) }
    ensures some { IfSome result (λ first. lines.pieces_of (lines.lines_of tokens.now)
        ≡ piece_of first.0 ∷ lines.pieces_of (lines.lines_of first.1.now)) }
    ensures fewer { IfSome result (λ first. length first.1.now < length tokens.now) }
{
    let [token, after @ ..] = tokens else {
        return None;
    };
    if begins_directive(token) {
        let (line, others) = after.split_at(line_len(after));
        return Some((Piece::Directive { hash: token, line }, others));
    }
    let (run, others) = tokens.split_at(text_len(tokens));
    let ends = end_before(others);
    Some((Piece::Text { run, ends }, others))
}

/// The tokens of a file as its pieces, in order.
pub fn pieces<'a>(alloc: Global, tokens: &'a [PpTok]) -> Result<Vec<Piece<'a>>, Memory>
    ensures meaning { IfOk result
        (λ pieces. map piece_of pieces.items ≡ lines.pieces_of (lines.lines_of tokens.now)) }
{
    let mut pieces = Vec::new(alloc);
    let mut rest = tokens;
    while let Some((piece, others)) = first_piece(rest) {
        pieces.push(piece)?;
        rest = others;
    }
    Ok(pieces)
}
