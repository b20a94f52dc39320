//! Tokens within an expansion.
ghost use Rattle.std.specs.Prelude.{◌≡◌, ◌∷◌, ◌++◌, [], ℕ, Bool, List, IfOk, OnOk};
ghost use Rattle.hv_toks.specs.Macro.{Macro};
ghost use Rattle.hv_plain.specs.episode.Tokens.{body_token, hiding, owing, source_token, spaced};
ghost use Rattle.hv_rescan.specs.Values.{givens_of, hides_of, token_of, tokens_of};

use crate::front::Front;
use crate::hides::Hides;
use crate::spelling::Spelling;
use hv_base::{List, Memory, Text};
use hv_toks::{PpKind, PpTok};
use std::alloc::Global;
use std::rc::Rc;

/// A token that may pend.
#[derive(Debug, Drop)]
pub struct Token {
    pub(crate) kind: PpKind,
    pub(crate) spelling: Spelling,
    pub(crate) space: bool,
    pub(crate) hides: Hides,
}

/// A token that was given.
#[derive(Debug, Drop)]
pub struct Given {
    pub(crate) kind: PpKind,
    pub(crate) text: Rc<Text>,
    pub(crate) space: bool,
    pub(crate) hides: Hides,
}

impl Token {
    /// The same token.
    pub(crate) fn copy(&self, alloc: Global) -> Result<Token, Memory>
        ensures { IfOk result (λ copy. (macros : List ℕ → Macro)
            → token_of macros copy ≡ token_of macros self.now) }
    {
        Ok(Token {
            kind: self.kind,
            spelling: self.spelling.copy(alloc)?,
            space: self.space,
            hides: self.hides.copy()?,
        })
    }
}

/// A token of a source. The first of a line comes after white space (ISO/IEC 9899:1999, 6.10.3.2).
pub(crate) fn source_token(alloc: Global, token: &PpTok) -> Result<Token, Memory>
    ensures { IfOk result (λ t. (macros : List ℕ → Macro)
        → token_of macros t ≡ source_token token.now) }
{
    let text = Text::from_slice(alloc, token.text.as_slice())?;
    Ok(Token {
        kind: token.kind,
        spelling: Spelling::Known(Rc::new(alloc, text)?),
        space: token.space || token.first,
        hides: Hides::none(),
    })
}

/// Copies of tokens.
pub(crate) fn copies(alloc: Global, tokens: &[Token]) -> Result<Vec<Token>, Memory>
    ensures { IfOk result (λ copies. (macros : List ℕ → Macro)
        → tokens_of macros copies.items ≡ tokens_of macros tokens.now) }
{
    let mut copies = Vec::new(alloc);
    for token in tokens {
        copies.push(token.copy(alloc)?)?;
    }
    Ok(copies)
}

/// The first token stands after white space exactly where this is so.
pub(crate) fn space_first(tokens: &mut Vec<Token>, space: bool)
    ensures { (macros : List ℕ → Macro)
        → tokens_of macros tokens.new.items ≡ spaced space (tokens_of macros tokens.old.items) }
{
    if !tokens.is_empty() {
        tokens[0].space = space;
    }
}

/// Puts tokens, which hide these names too, before others.
pub(crate) fn put_front(
    alloc: Global,
    front: &mut Front,
    mut tokens: Vec<Token>,
    hides: &Hides,
) -> Result<(), Memory>
    ensures { OnOk result ((macros : List ℕ → Macro) → tokens_of macros front.new
        ≡ hiding (hides_of hides.now) (tokens_of macros tokens.items)
        ++ tokens_of macros front.old) }
{
    while let Some(token) = tokens.pop() {
        front.push(Token {
            kind: token.kind,
            spelling: token.spelling,
            space: token.space,
            hides: token.hides.either(alloc, hides)?,
        })?;
    }
    Ok(())
}

/// Given tokens, of which the first stands after white space exactly where this is so.
pub(crate) fn regained(alloc: Global, given: List<Given>, space: bool) -> Result<Vec<Token>, Memory>
    ensures { IfOk result (λ tokens. (macros : List ℕ → Macro)
        → tokens_of macros tokens.items ≡ spaced space (givens_of given)) }
{
    let mut tokens = Vec::new(alloc);
    for token in given.into_vec() {
        tokens.push(Token {
            kind: token.kind,
            spelling: Spelling::Known(token.text),
            space: token.space,
            hides: token.hides,
        })?;
    }
    space_first(&mut tokens, space);
    Ok(tokens)
}
