//! The state after an answer, and after each deed with the token that pends.
ghost use Rattle.std.specs.Prelude.{◌≡◌, ◌<◌, ◌∷◌, [], ℕ, List, length, IfOk};
ghost use Rattle.hv_toks.specs.Macro.{Macro};
ghost use Rattle.hv_toks.specs.declared.token.PpTok.{PpTok as PpTok'};
ghost use Rattle.hv_plain.specs.declared.episode.RunEnd.{RunEnd as RunEnd'};
ghost use Rattle.hv_plain.specs.episode.Expansion.{after, at, give, stop, used};
ghost use Rattle.hv_plain.specs.episode.Substitution.{Frame as PlainFrame, Scan as PlainScan};
ghost use Rattle.hv_plain.specs.episode.Tokens.{Token as PlainToken};
ghost use Rattle.hv_rescan.specs.Pending.{is_macro};
ghost use Rattle.hv_rescan.specs.Values.{asked_of, state_in};

use crate::scan::State;
use crate::spelling::{Spelling, answered};
use crate::states::{Name, given, used};
use crate::token::{Given, Token};
use hv_base::{Memory, Why};
use hv_plain::RunEnd;
use hv_toks::{Body, PpTok};
use std::alloc::Global;

/// The state where the first open digit of the token that pends is answered.
pub(crate) fn answered_in(alloc: Global, state: State, is_defined: bool) -> Result<State, Memory>
    requires { 0 < length (asked_of state) }
    ensures settles { IfOk result (λ s. (name : List ℕ) (names : List (List ℕ))
        → asked_of state ≡ name ∷ names
        → (macros : List ℕ → Macro) (run : List PpTok') → is_macro (macros name) ≡ is_defined
        → state_in macros run s ≡ state_in macros run state) }
    ensures falls { IfOk result (λ s. (name : List ℕ) (names : List (List ℕ))
        → asked_of state ≡ name ∷ names → asked_of s ≡ names) }
{
    let State::At {
        token,
        text,
        frames,
    } = state
    else {
        return Ok(state);
    };
    let Token {
        kind,
        spelling,
        space,
        hides,
    } = token;
    let spelling = match spelling {
        Spelling::Known(_) => unreachable!(),
        Spelling::Open { first, more, tail } => answered(alloc, first, more, tail, is_defined)?,
    };
    Ok(State::At {
        token: Token {
            kind,
            spelling,
            space,
            hides,
        },
        text,
        frames,
    })
}

/// The state after the token that pends is given.
pub(crate) fn given_in(alloc: Global, state: State) -> Result<State, Memory>
    requires { asked_of state ≡ [] }
    ensures { IfOk result (λ next. (macros : List ℕ → Macro) (run : List PpTok') (ends : RunEnd')
        (t : PlainToken) (s : PlainScan) (fs : List PlainFrame)
        → state_in macros run state ≡ at t s fs
        → state_in macros run next ≡ after ends t s fs give) }
{
    let State::At {
        token,
        text,
        frames,
    } = state
    else {
        return Ok(state);
    };
    let Token {
        kind,
        spelling,
        space,
        hides,
    } = token;
    let Spelling::Known(bytes) = spelling else {
        unreachable!()
    };
    let token = Given {
        kind,
        text: bytes,
        space,
        hides,
    };
    let after = given(alloc, token, text, frames)?;
    Ok(after)
}

/// The state after the macro is used whose name pends.
pub(crate) fn used_in(
    alloc: Global,
    ends: RunEnd,
    run: &[PpTok],
    state: State,
    body: &Body,
) -> Result<State, Memory>
    requires { asked_of state ≡ [] }
    ensures { IfOk result (λ next. (macros : List ℕ → Macro)
        (t : PlainToken) (s : PlainScan) (fs : List PlainFrame)
        → state_in macros run.now state ≡ at t s fs
        → state_in macros run.now next ≡ used ends t s fs body.now) }
{
    let State::At {
        token,
        text,
        frames,
    } = state
    else {
        return Ok(state);
    };
    let Token {
        kind: _,
        spelling,
        space,
        hides,
    } = token;
    let Spelling::Known(bytes) = spelling else {
        unreachable!()
    };
    let name = Name {
        text: bytes,
        space,
        hides,
    };
    let after = used(alloc, ends, run, name, text, frames, body)?;
    Ok(after)
}

/// The state after a stop.
pub(crate) fn stopped(state: State) -> State
    ensures { (macros : List ℕ → Macro) (run : List PpTok') (ends : RunEnd')
        (t : PlainToken) (s : PlainScan) (fs : List PlainFrame)
        → state_in macros run state ≡ at t s fs
        → state_in macros run result ≡ after ends t s fs stop }
{
    let State::At { .. } = state else {
        return state;
    };
    State::Refused {
        why: Why::DirectiveInArguments,
    }
}
