//! The machine, as callers see it.
ghost use Rattle.std.specs.Prelude.{◌≡◌, ◌<◌, ◌≤◌, ◌-◌, ◌∷◌, [], ℕ, List, map, drop, length, Option, Some, IfOk};
ghost use Rattle.hv_toks.specs.Macro.{Macro};
ghost use Rattle.hv_toks.specs.Spelled.{all_spelled};
ghost use Rattle.hv_base.specs.declared.place.Place.{Place as Place'};
ghost use Rattle.hv_plain.specs.declared.episode.RunEnd.TheVariants.{Line};
ghost use Rattle.hv_plain.specs.episode.Episode.{digit, start};
ghost use Rattle.hv_plain.specs.episode.Expansion.{after, at, done, give, stop, use_macro, used};
ghost use Rattle.hv_plain.specs.episode.Substitution.{Frame as PlainFrame, Scan as PlainScan};
ghost use Rattle.hv_plain.specs.episode.Tokens.{Token as PlainToken, given_token};
ghost use Rattle.hv_rescan.specs.Pending.{Pends, is_macro, name_in};
ghost use Rattle.hv_rescan.specs.Values.{asked_of, givens_of, open_names, state_in, state_of, unread_of};
ghost use Rattle.hv_plain.specs.declared.episode.RunEnd.{RunEnd as RunEnd'};
ghost use Rattle.hv_toks.specs.declared.token.PpTok.{PpTok as PpTok'};

use crate::deeds::{answered_in, given_in, stopped, used_in};
use crate::pending::Pending;
use crate::scan::{State, Unread};
use crate::spelling::Spelling;
use crate::start::{start_line, start_text};
use crate::states::{is_open, next};
use crate::token::Given;
use hv_base::{List, Memory, Span, Text};
use hv_plain::RunEnd;
use hv_toks::{Body, PpTok};
use std::alloc::Global;
use std::rc::Rc;

/// A run of tokens, and where in it an episode begins.
#[derive(Clone, Copy, Debug)]
pub struct Run<'a> {
    pub ends: RunEnd,
    pub tokens: &'a [PpTok],
    pub at: usize,
}

/// The expansion of macros that begins at a token of a run (ISO/IEC 9899:1999, 6.10.3), before its
/// next event. It is told what the names mean that it meets; what it is under each macro state is
/// `state_of`.
#[derive(Debug, Drop)]
pub struct Machine<'a> {
    pub(crate) alloc: Global,
    pub run: Run<'a>,
    pub(crate) state: State,
}

/// What an episode comes to.
#[derive(Debug, Drop)]
pub struct Expansion {
    /// The tokens that it gave. Each has the span of the episode's first token, and none is said to
    /// be the first of a line.
    pub tokens: List<PpTok>,
    /// The position in the run where it goes on.
    pub goes_on: usize,
}

/// The span of a token of a run; there is none beyond its end.
fn span_at(run: &[PpTok], at: usize) -> Span {
    match run.get(at) {
        Some(token) => token.span,
        None => Span {
            file: 0,
            start: 0,
            end: 0,
        },
    }
}

/// How many tokens of a run are left.
fn left(run: &[PpTok], unread: Option<Unread>) -> usize
    ensures count { result ≡ length (unread_of run.now unread) }
    ensures within { result ≤ length run.now }
{
    let Some(unread) = unread else {
        return 0;
    };
    if unread.next < run.len() {
        run.len() - unread.next
    } else {
        0
    }
}

/// Given tokens, with this span.
fn spelled(alloc: Global, given: &[Given], span: Span) -> Result<List<PpTok>, Memory>
    ensures { IfOk result
        (λ tokens. all_spelled tokens ≡ map given_token (givens_of given.now)) }
{
    let mut tokens = List::new(alloc);
    for token in given {
        tokens.add(PpTok {
            kind: token.kind,
            span,
            text: Text::from_slice(alloc, token.text.as_slice())?,
            space: token.space,
            first: false,
        })?;
    }
    Ok(tokens)
}

#[tactic(auto, unfolding(crate::specs::Values::state_of, crate::specs::Values::open_names))]
impl<'a> Machine<'a> {
    /// The expansion that begins at this position of a run; of a controlling line all is expanded.
    pub fn start(
        alloc: Global,
        ends: RunEnd,
        run: &'a [PpTok],
        at: usize,
    ) -> Result<Machine<'a>, Memory>
        requires within { at < length run.now }
        requires line { ends ≡ Line → at ≡ 0 }
        ensures starts { IfOk result (λ machine. (macros : List ℕ → Macro)
            → state_of macros machine ≡ start ends macros (drop at run.now)) }
        ensures ends { IfOk result (λ machine. machine.run.ends ≡ ends) }
        ensures tokens { IfOk result (λ machine. machine.run.tokens.now ≡ run.now) }
    {
        let state = match ends {
            RunEnd::Line => start_line(alloc, run)?,
            RunEnd::Directive | RunEnd::FileEnd => start_text(alloc, run, at)?,
        };
        let run = Run {
            ends,
            tokens: run,
            at,
        };
        Ok(Machine { alloc, run, state })
    }

    /// What pends. Where it is a token with open digits, the first one is asked for.
    pub fn pending(&self) -> Pending<'_>
        ensures pends { (macros : List ℕ → Macro)
            → Pends self.now.run.ends result (state_of macros self.now) }
        ensures asks { (name : List ℕ) → name_in result ≡ Some name
            → (names : List (List ℕ)) × (open_names self.now ≡ name ∷ names) }
        ensures asks_nothing { name_in result ≡ None → open_names self.now ≡ [] }
        // the spelling tells whether the name is defined
        ensures tells { (name : List ℕ) → name_in result ≡ Some name
            → (macros others : List ℕ → Macro) (t u : PlainToken) (s r : PlainScan)
            (fs gs : List PlainFrame) → state_of macros self.now ≡ at t s fs
            → state_of others self.now ≡ at u r gs → t.text ≡ u.text
            → is_macro (macros name) ≡ is_macro (others name) }
    {
        match &self.state {
            State::Done { .. } => Pending::Done,
            State::Refused { why } => Pending::Refused(*why),
            State::At {
                token,
                text,
                frames,
            } => match &token.spelling {
                Spelling::Open { first, .. } => Pending::Digit {
                    name: first.name.as_slice(),
                },
                Spelling::Known(bytes) => Pending::Token {
                    kind: token.kind,
                    text: bytes.as_slice(),
                    is_open: is_open(token.kind, bytes.as_slice(), &token.hides),
                    follows: next(self.run.ends, self.run.tokens, text, frames),
                },
            },
        }
    }

    /// The same where the first name that is asked for is defined, or not.
    pub fn settle(self, is_defined: bool) -> Result<Machine<'a>, Memory>
        requires { 0 < length (open_names self) }
        ensures settles { IfOk result (λ machine. (name : List ℕ) (names : List (List ℕ))
            → open_names self.entry ≡ name ∷ names
            → (macros : List ℕ → Macro) → is_macro (macros name) ≡ is_defined
            → state_of macros machine ≡ state_of macros self.entry) }
        ensures falls { IfOk result (λ machine. (name : List ℕ) (names : List (List ℕ))
            → open_names self.entry ≡ name ∷ names → open_names machine ≡ names) }
        ensures run { IfOk result (λ machine. machine.run ≡ self.entry.run) }
    {
        let Machine { alloc, run, state } = self;
        let state = answered_in(alloc, state, is_defined)?;
        Ok(Machine { alloc, run, state })
    }

    /// The token that pends is given.
    pub fn give(self) -> Result<Machine<'a>, Memory>
        requires { open_names self ≡ [] }
        ensures gives { IfOk result (λ machine. (macros : List ℕ → Macro)
            (t : PlainToken) (s : PlainScan) (fs : List PlainFrame)
            → state_of macros self.entry ≡ at t s fs
            → state_of macros machine ≡ after self.entry.run.ends t s fs give) }
        ensures run { IfOk result (λ machine. machine.run ≡ self.entry.run) }
    {
        let Machine { alloc, run, state } = self;
        let state = given_in(alloc, state)?;
        Ok(Machine { alloc, run, state })
    }

    /// The token that pends is the name of a macro that is replaced; a function-like one stands
    /// before `(`.
    pub fn use_macro(self, body: &Rc<Body>) -> Result<Machine<'a>, Memory>
        requires { open_names self ≡ [] }
        ensures uses { IfOk result (λ machine. (macros : List ℕ → Macro)
            (t : PlainToken) (s : PlainScan) (fs : List PlainFrame) (place : Place')
            → state_of macros self.entry ≡ at t s fs
            → state_of macros machine
            ≡ after self.entry.run.ends t s fs (use_macro place body.now.value)) }
        ensures run { IfOk result (λ machine. machine.run ≡ self.entry.run) }
    {
        let Machine { alloc, run, state } = self;
        let state = used_in(alloc, run.ends, run.tokens, state, body)?;
        Ok(Machine { alloc, run, state })
    }

    /// The token that pends is the name of a function-like macro before a directive.
    pub fn stop(self) -> Machine<'a>
        ensures stops { (macros : List ℕ → Macro)
            (t : PlainToken) (s : PlainScan) (fs : List PlainFrame)
            → state_of macros self.entry ≡ at t s fs
            → state_of macros result ≡ after self.entry.run.ends t s fs stop }
        ensures run { result.run ≡ self.entry.run }
    {
        let Machine { alloc, run, state } = self;
        let state = stopped(state);
        Machine { alloc, run, state }
    }

    /// What the episode came to, where nothing is left.
    pub fn expansion(&self) -> Result<Expansion, Memory>
        ensures tokens { IfOk result (λ expansion. (macros : List ℕ → Macro) (s : PlainScan)
            → state_of macros self.now ≡ done s
            → all_spelled expansion.tokens ≡ map given_token s.given) }
        ensures goes_on { IfOk result (λ expansion. (macros : List ℕ → Macro) (s : PlainScan)
            → state_of macros self.now ≡ done s
            → expansion.goes_on ≡ length self.now.run.tokens.now - s.unread) }
    {
        let alloc = self.alloc;
        let State::Done { text } = &self.state else {
            return Ok(Expansion {
                tokens: List::new(alloc),
                goes_on: self.run.at,
            });
        };
        let run = self.run.tokens;
        let span = span_at(run, self.run.at);
        Ok(Expansion {
            tokens: spelled(alloc, text.given.as_slice(), span)?,
            goes_on: run.len() - left(run, text.unread),
        })
    }
}
