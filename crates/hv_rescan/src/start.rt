//! The beginning of an episode, and `defined` (ISO/IEC 9899:1999, 6.10.1, paragraph 1).
ghost use Rattle.std.specs.Prelude.{◌≡◌, ◌-◌, ◌∷◌, ◌++◌, ◌<◌, [], ℕ, Bool, List, Option, drop, length, map, IfOk};
ghost use Rattle.hv_toks.specs.Macro.{Macro};
ghost use Rattle.hv_plain.specs.episode.Episode as episode;
ghost use Rattle.hv_rescan.specs.Values.{state_in, token_of, tokens_of};
ghost use Rattle.hv_plain.specs.episode.Tokens.{source_token};
ghost use Rattle.hv_toks.specs.declared.token.PpTok.{PpTok as PpTok'};
ghost use Rattle.hv_rescan.specs.working.Steps.{question_of};

use crate::front::Front;
use crate::hides::Hides;
use crate::scan::{Scan, State, Unread};
use crate::spelling::{Digit, Spelling};
use crate::token::{Token, source_token};
use hv_base::{List, Memory, Stack, Text};
use hv_toks::{PpKind, PpTok};
use std::alloc::Global;

/// A question whether a name is defined, with how many tokens it has after its first.
#[derive(Clone, Copy)]
struct Question<'a> {
    name: &'a [u8],
    more: usize,
}

/// A question of a name; `None` where the token is no identifier.
fn name_asked(token: &PpTok, more: usize) -> Option<Question<'_>>
    ensures { question_of result ≡ episode.question token.now more }
{
    if token.kind != PpKind::Identifier {
        return None;
    }
    let name = token.text.as_slice();
    Some(Question { name, more })
}

/// The question that the tokens after `defined` ask: a name, or one in parentheses.
fn asked(after: &[PpTok]) -> Option<Question<'_>>
    ensures { question_of result ≡ episode.asked after.now }
{
    let [first, more @ ..] = after else {
        return None;
    };
    if let [name, closing, ..] = more {
        if first.text.is_text(b"(".as_slice()) {
            if closing.text.is_text(b")".as_slice()) {
                return name_asked(name, 3);
            }
            return None;
        }
    }
    name_asked(first, 1)
}

/// The question that a token and those after it ask.
fn asked_at<'a>(token: &PpTok, after: &'a [PpTok]) -> Option<Question<'a>>
    ensures { question_of result ≡ episode.asked_at token.now after.now }
{
    if token.text.is_text(b"defined".as_slice()) {
        return asked(after);
    }
    None
}

/// An open digit in the place of `defined`.
fn answer(alloc: Global, token: &PpTok, name: &[u8]) -> Result<Token, Memory>
    ensures { IfOk result (λ t. (macros : List ℕ → Macro) → token_of macros t
        ≡ episode.answer token.now (episode.digit (macros name.now))) }
{
    let first = Digit {
        before: List::new(alloc),
        name: Text::from_slice(alloc, name)?,
    };
    Ok(Token {
        kind: PpKind::Number,
        spelling: Spelling::Open {
            first,
            more: Stack::new(alloc),
            tail: List::new(alloc),
        },
        space: token.space || token.first,
        hides: Hides::none(),
    })
}

/// The tokens of a controlling line, in which each question is an open digit.
fn answered(alloc: Global, run: &[PpTok]) -> Result<Vec<Token>, Memory>
    ensures { IfOk result (λ tokens. (macros : List ℕ → Macro)
        → tokens_of macros tokens.items ≡ episode.answered macros 0 run.now) }
{
    let mut tokens = Vec::new(alloc);
    let mut skipped: usize = 0;
    let mut rest = run;
    while let [token, after @ ..] = rest {
        rest = after;
        if skipped > 0 {
            skipped -= 1;
        } else if let Some(question) = asked_at(token, after) {
            tokens.push(answer(alloc, token, question.name)?)?;
            skipped = question.more;
        } else {
            tokens.push(source_token(alloc, token)?)?;
        }
    }
    Ok(tokens)
}

/// The state in which a controlling line is expanded.
pub(crate) fn start_line(alloc: Global, run: &[PpTok]) -> Result<State, Memory>
    ensures { IfOk result (λ state. (macros : List ℕ → Macro) (whole : List PpTok')
        → state_in macros whole state
        ≡ episode.starting (episode.answered macros 0 run.now) 0) }
{
    let mut tokens = answered(alloc, run)?;
    let mut front = Stack::new(alloc);
    while let Some(token) = tokens.pop() {
        front.push(token)?;
    }
    let first = front.pop();
    let text = Scan::alone(alloc, Front::of_own(front));
    match first {
        None => Ok(State::Done { text }),
        Some(token) => Ok(State::At {
            token,
            text,
            frames: Stack::new(alloc),
        }),
    }
}

/// The state in which the token at this position of a run pends.
pub(crate) fn start_text(alloc: Global, run: &[PpTok], at: usize) -> Result<State, Memory>
    requires { at < length run.now }
    ensures { IfOk result (λ state. (macros : List ℕ → Macro)
        → state_in macros run.now state ≡ episode.starting (map source_token (drop at run.now))
        (length (drop at run.now) - 1)) }
{
    Ok(State::At {
        token: source_token(alloc, &run[at])?,
        text: Scan {
            front: Front::of_own(Stack::new(alloc)),
            unread: Some(Unread {
                next: at + 1,
                owed: false,
            }),
            given: List::new(alloc),
        },
        frames: Stack::new(alloc),
    })
}
