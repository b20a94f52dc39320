//! Cutting a file, from the left.

ghost use Rattle.std.specs.Prelude.{◌≡◌, ◌≤◌, ◌<◌, [], ◌∷◌, ◌++◌, length, take, drop, IfOk, IfErr, OnOk, false};
ghost use Rattle.hv_lexer.specs.working.Cursors.{text_of, places_of};
ghost use Rattle.hv_lexer.specs.Refusal.{IsRefusalOf};
ghost use Rattle.hv_toks.specs.Cutting.{Cuts, line_after, is_start, token, tokens};

use crate::LexRefusal;
use crate::cursor::Cursor;
use crate::prefix::prefix;
use hv_base::{List, Span};
use hv_toks::{LinePrefix, Match, PpTok, Prefix};
use std::alloc::Global;

/// What stands before a token.
#[derive(Clone, Copy)]
struct Before {
    file: u32,
    line: LinePrefix,
    /// Whether white space stands directly before it.
    space: bool,
}

/// What is left after a token.
#[derive(Clone, Copy)]
struct After<'a> {
    line: LinePrefix,
    rest: Cursor<'a>,
}

fn is_start(line: LinePrefix) -> bool
    ensures { result ≡ is_start line }
{
    matches!(line, LinePrefix::Start)
}

/// What stands on the line after a token of this spelling.
fn line_after(line: LinePrefix, spelling: &[u8]) -> LinePrefix
    ensures { result ≡ line_after line spelling.now }
{
    match line {
        LinePrefix::Start if spelling == b"#".as_slice() => LinePrefix::Hash,
        LinePrefix::Hash if spelling == b"include".as_slice() => LinePrefix::Include,
        _ => LinePrefix::Rest,
    }
}

/// Takes the token that was found off the text, and adds it.
fn add<'a>(
    tokens: &mut List<PpTok>,
    alloc: Global,
    before: Before,
    found: Match,
    text: Cursor<'a>,
) -> Result<After<'a>, LexRefusal>
    requires some { 0 < found.len }
    requires within { found.len ≤ length (text_of text) }
    ensures ok { OnOk result (tokens.new ≡ tokens.old
        ++ token before.file before.line before.space found.kind
        (take found.len (text_of text.entry)) (take found.len (places_of text.entry)) ∷ []) }
    ensures line { IfOk result (λ after. after.line ≡ line_after before.line
        (take found.len (text_of text.entry))) }
    ensures text { IfOk result (λ after. text_of after.rest ≡ drop found.len (text_of text.entry)) }
    ensures places { IfOk result (λ after. places_of after.rest ≡ drop found.len
        (places_of text.entry)) }
    ensures memory { IfErr result (λ refusal. refusal ≡ LexRefusal.Memory) }
{
    let Ok(taken) = text.take(alloc, found.len) else {
        return Err(LexRefusal::Memory);
    };
    let after = After {
        line: line_after(before.line, taken.text.as_slice()),
        rest: taken.rest,
    };
    let span = Span {
        file: before.file,
        start: taken.start,
        end: taken.end,
    };
    let token = PpTok {
        kind: found.kind,
        span,
        text: taken.text,
        space: before.space,
        first: is_start(before.line),
    };
    match tokens.push(token) {
        Ok(()) => Ok(after),
        Err(_) => Err(LexRefusal::Memory),
    }
}

/// Cuts what is left of a file.
pub(crate) fn cut(alloc: Global, file: u32, text: Cursor) -> Result<List<PpTok>, LexRefusal>
    ensures ok { IfOk result (λ list. Cuts file LinePrefix.Start false (text_of text.entry)
        (places_of text.entry) (tokens list)) }
    ensures refused { IfErr result (IsRefusalOf
        (Cuts file LinePrefix.Start false (text_of text.entry) (places_of text.entry))) }
{
    let mut tokens = List::new(alloc);
    let mut line = LinePrefix::Start;
    let mut space = false;
    let mut rest = text;
    loop {
        match prefix(line, rest) {
            Prefix::End => return Ok(tokens),
            Prefix::WhiteSpace => {
                space = true;
                rest = rest.skip(1);
            }
            Prefix::Newline => {
                line = LinePrefix::Start;
                space = false;
                rest = rest.skip(1);
            }
            Prefix::Comment(len) => {
                space = true;
                rest = rest.skip(len);
            }
            Prefix::OpenComment => {
                let offset = rest.offset();
                return Err(LexRefusal::OpenComment { offset });
            }
            Prefix::Token(found) => {
                let before = Before { file, line, space };
                let after = add(&mut tokens, alloc, before, found, rest)?;
                line = after.line;
                space = false;
                rest = after.rest;
            }
        }
    }
}
