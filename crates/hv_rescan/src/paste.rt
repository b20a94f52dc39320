//! `#` (ISO/IEC 9899:1999, 6.10.3.2) and `##` (6.10.3.3).
ghost use Rattle.std.specs.Prelude.{◌≡◌, ◌∷◌, ◌++◌, [], ℕ, List, Bool, Option, IfOk, OnOk};
ghost use Rattle.std.specs.Option.{option_map};
ghost use Rattle.hv_toks.specs.Macro.{Macro};
ghost use Rattle.hv_plain.specs.episode.Substitution.{join, more_quoted, paste, string_token};
ghost use Rattle.hv_rescan.specs.Values.{token_of, tokens_of};
ghost use Rattle.hv_rescan.specs.working.Drafts.{draft_of};
ghost use Rattle.hv_rescan.specs.working.Steps.{is_quoted as is_quoted', joined_of, spelled_at};

use crate::draft::Draft;
use crate::hides::Hides;
use crate::token::Token;
use hv_base::Memory;
use hv_toks::PpKind;
use std::alloc::Global;

/// Whether `"` and `\` in a token of this kind are escaped within a string literal.
fn is_quoted(kind: PpKind) -> bool
    ensures { result ≡ is_quoted' kind }
{
    matches!(kind, PpKind::CharConstant | PpKind::StringLiteral)
}

/// Adds the spelling of a token of an argument, after a blank where white space stands before it
/// and it isn't the first.
fn add_token(alloc: Global, draft: &mut Draft, token: &Token, is_first: bool) -> Result<(), Memory>
    ensures { OnOk result ((macros : List ℕ → Macro) → draft_of macros draft.new
        ≡ draft_of macros draft.old ++ spelled_at is_first (token_of macros token.now)) }
{
    if token.space && !is_first {
        draft.add(b" ".as_slice(), false)?;
    }
    draft.add_spelling(alloc, &token.spelling, is_quoted(token.kind))?;
    Ok(())
}

/// The string literal of an argument.
pub(crate) fn string_token(alloc: Global, tokens: &[Token], space: bool) -> Result<Token, Memory>
    ensures { IfOk result (λ t. (macros : List ℕ → Macro)
        → token_of macros t ≡ string_token (tokens_of macros tokens.now) space) }
{
    let mut draft = Draft::new(alloc);
    draft.add(b"\"".as_slice(), false)?;
    let mut is_first = true;
    for token in tokens {
        add_token(alloc, &mut draft, token, is_first)?;
        is_first = false;
    }
    draft.add(b"\"".as_slice(), false)?;
    Ok(Token {
        kind: PpKind::StringLiteral,
        spelling: draft.finish(alloc)?,
        space,
        hides: Hides::none(),
    })
}

/// Two tokens as one, which hides what both hide; `None` where they are not one token.
fn paste(alloc: Global, left: &Token, right: &Token) -> Result<Option<Token>, Memory>
    ensures { IfOk result (λ pasted. (macros : List ℕ → Macro)
        → option_map (token_of macros) pasted
        ≡ paste (token_of macros left.now) (token_of macros right.now)) }
{
    let mut draft = Draft::new(alloc);
    draft.add_spelling(alloc, &left.spelling, false)?;
    draft.add_spelling(alloc, &right.spelling, false)?;
    let Some(kind) = draft.kind(alloc)? else {
        return Ok(None);
    };
    Ok(Some(Token {
        kind,
        spelling: draft.finish(alloc)?,
        space: left.space,
        hides: left.hides.both(alloc, &right.hides)?,
    }))
}

/// The tokens on the left, the last of which is joined with the first of those on the right; `None`
/// where the two are not one token.
pub(crate) fn join(
    alloc: Global,
    mut left: Vec<Token>,
    mut right: Vec<Token>,
) -> Result<Option<Vec<Token>>, Memory>
    ensures { IfOk result (λ joined. (macros : List ℕ → Macro)
        → joined_of macros joined
        ≡ join (tokens_of macros left.items) (tokens_of macros right.items)) }
{
    let Some(last) = left.pop() else {
        return Ok(Some(right));
    };
    if right.len() == 0 {
        left.push(last)?;
        return Ok(Some(left));
    }
    let first = right.remove(0);
    let Some(both) = paste(alloc, &last, &first)? else {
        return Ok(None);
    };
    left.push(both)?;
    left.append(&mut right)?;
    Ok(Some(left))
}
