//! What follows an event.
ghost use Rattle.std.specs.Prelude.{◌≡◌, ◌∷◌, ◌++◌, [], ℕ, Bool, List, Option, length, min, map, IfOk};
ghost use Rattle.hv_toks.specs.Macro.{Macro};
ghost use Rattle.hv_toks.specs.declared.token.PpTok.{PpTok as PpTok'};
ghost use Rattle.hv_plain.specs.episode.Expansion as expansion;
ghost use Rattle.hv_plain.specs.episode.Invocation as invocation;
ghost use Rattle.hv_plain.specs.episode.Tokens.{Token as PlainToken};
ghost use Rattle.hv_rescan.specs.Pending.{next_of};
ghost use Rattle.hv_rescan.specs.Values.{arguments_of, frames_of, given_of, hides_of, scan_of, state_in};
ghost use Rattle.hv_rescan.specs.working.Steps.{mark_of};

use crate::arguments::{Mark, Taken, mark_in, take_arguments, takes};
use crate::front::Front;
use crate::hides::Hides;
use crate::part::parts;
use crate::pending::Following;
use crate::scan::{Frame, Scan, State, take};
use crate::substitution::{Filled, resume};
use crate::token::Given;
use hv_base::{Memory, Stack, Text, Why};
use hv_plain::RunEnd;
use hv_toks::{Body, PpKind, PpTok};
use std::alloc::Global;
use std::rc::Rc;

/// The name of a macro that is used, without what stands around it.
#[derive(Drop)]
pub(crate) struct Name {
    pub(crate) text: Rc<Text>,
    pub(crate) space: bool,
    pub(crate) hides: Hides,
}

/// The next state where a text is left: the substitution that waits for it goes on.
pub(crate) fn settle(
    alloc: Global,
    mut text: Scan,
    mut frames: Stack<Frame>,
) -> Result<State, Memory>
    ensures { IfOk result (λ state. (macros : List ℕ → Macro) (run : List PpTok')
        → state_in macros run state
        ≡ expansion.settle (frames_of macros run frames) (scan_of macros run text)) }
{
    loop {
        let next = text.front.pop(alloc)?;
        if let Some(token) = next {
            return Ok(State::At {
                token,
                text,
                frames,
            });
        }
        let Some(frame) = frames.pop() else {
            return Ok(State::Done { text });
        };
        match resume(alloc, frame, text.given)? {
            Filled::Whole(around) => text = around,
            Filled::Waits { first, more, frame } => {
                frames.push(frame)?;
                return Ok(State::At {
                    token: first,
                    text: Scan::alone(alloc, Front::of_shared(alloc, more)),
                    frames,
                });
            }
            Filled::Broken => {
                return Ok(State::Refused { why: Why::BadPaste });
            }
        }
    }
}

/// A substitution of a name begins, whose result hides these names too.
fn begin(
    alloc: Global,
    name: Name,
    around: Scan,
    mut frames: Stack<Frame>,
    body: &Body,
    taken: Taken,
) -> Result<State, Memory>
    ensures { IfOk result (λ state. (macros : List ℕ → Macro) (run : List PpTok') (t : PlainToken)
        → t.text ≡ name.text.value → t.space ≡ name.space
        → state_in macros run state
        ≡ expansion.begin t (scan_of macros run around) (frames_of macros run frames) body.now
        (arguments_of macros taken.arguments.items) (hides_of taken.hides)) }
{
    let hides = taken.hides.with(alloc, name.text)?;
    frames.push(Frame {
        around,
        arguments: taken.arguments,
        rest: parts(alloc, body)?,
        built: Vec::new(alloc),
        owed: false,
        hides,
        space: name.space,
    })?;
    settle(
        alloc,
        Scan::alone(alloc, Front::of_own(Stack::new(alloc))),
        frames,
    )
}

/// Why an invocation whose text ends before the `)` is refused.
fn unclosed(ends: RunEnd, frames: &Stack<Frame>) -> Why
    ensures { (macros : List ℕ → Macro) (run : List PpTok')
        → result ≡ expansion.unclosed ends (frames_of macros run frames.now) }
{
    match ends {
        RunEnd::Directive if frames.is_empty() => Why::DirectiveInArguments,
        RunEnd::Directive | RunEnd::FileEnd | RunEnd::Line => Why::BadInvocation,
    }
}

/// The state after a function-like macro is used, whose arguments are taken after the `(`.
fn invoke(
    alloc: Global,
    ends: RunEnd,
    run: &[PpTok],
    name: Name,
    mut text: Scan,
    frames: Stack<Frame>,
    body: &Body,
) -> Result<State, Memory>
    ensures { IfOk result (λ state. (macros : List ℕ → Macro) (t : PlainToken)
        → t.text ≡ name.text.value → t.space ≡ name.space → t.hides ≡ hides_of name.hides
        → state_in macros run.now state
        ≡ expansion.invoke ends t (scan_of macros run.now text) (frames_of macros run.now frames)
        body.now (invocation.take_arguments body.now 0 [] []
        (expansion.tail (scan_of macros run.now text).ahead))) }
{
    let _opening = take(alloc, run, &mut text.front, &mut text.unread)?;
    let taken = take_arguments(alloc, run, body, &mut text.front, &mut text.unread)?;
    let Some(taken) = taken else {
        return Ok(State::Refused {
            why: unclosed(ends, &frames),
        });
    };
    if !takes(body, &taken.arguments) {
        return Ok(State::Refused {
            why: Why::BadInvocation,
        });
    }
    let hides = name.hides.both(alloc, &taken.hides)?;
    let taken = Taken {
        arguments: taken.arguments,
        hides,
    };
    let state = begin(alloc, name, text, frames, body, taken)?;
    Ok(state)
}

/// The state after a macro is used.
pub(crate) fn used(
    alloc: Global,
    ends: RunEnd,
    run: &[PpTok],
    name: Name,
    text: Scan,
    frames: Stack<Frame>,
    body: &Body,
) -> Result<State, Memory>
    ensures { IfOk result (λ state. (macros : List ℕ → Macro) (t : PlainToken)
        → t.text ≡ name.text.value → t.space ≡ name.space → t.hides ≡ hides_of name.hides
        → state_in macros run.now state
        ≡ expansion.used ends t (scan_of macros run.now text) (frames_of macros run.now frames)
        body.now) }
{
    match body {
        Body::Object { .. } => {
            let taken = Taken {
                arguments: Vec::new(alloc),
                hides: name.hides.copy()?,
            };
            let state = begin(alloc, name, text, frames, body, taken)?;
            Ok(state)
        }
        Body::Function { .. } => {
            let state = invoke(alloc, ends, run, name, text, frames, body)?;
            Ok(state)
        }
    }
}

/// The state after a token is given.
pub(crate) fn given(
    alloc: Global,
    token: Given,
    mut text: Scan,
    frames: Stack<Frame>,
) -> Result<State, Memory>
    ensures { IfOk result (λ state. (macros : List ℕ → Macro) (run : List PpTok')
        → state_in macros run state ≡ expansion.settle (frames_of macros run frames)
        (record (scan_of macros run text)
        { given = (scan_of macros run text).given ++ given_of token ∷ [] })) }
{
    text.given.add(token)?;
    let state = settle(alloc, text, frames)?;
    Ok(state)
}

/// What an end of a text is to a name before it.
fn next_end(ends: RunEnd, frames: &Stack<Frame>) -> Following
    ensures { (macros : List ℕ → Macro) (run : List PpTok')
        → next_of result ≡ expansion.next_end ends (frames_of macros run frames.now) }
{
    match ends {
        RunEnd::Directive if frames.is_empty() => Following::Directive,
        RunEnd::Directive | RunEnd::FileEnd | RunEnd::Line => Following::Otherwise,
    }
}

/// What a mark is to a name before it.
fn next_mark(mark: Mark) -> Following
    ensures { next_of result ≡ expansion.next_mark (mark_of mark) }
{
    match mark {
        Mark::Opening => Following::Parenthesis,
        Mark::Closing | Mark::Comma | Mark::Other => Following::Otherwise,
    }
}

/// What follows in a text.
pub(crate) fn next(ends: RunEnd, run: &[PpTok], text: &Scan, frames: &Stack<Frame>) -> Following
    ensures { (macros : List ℕ → Macro) → next_of result
        ≡ expansion.next ends (scan_of macros run.now text.now).ahead
        (frames_of macros run.now frames.now) }
{
    if let Some(token) = text.front.top() {
        return next_mark(token.spelling.mark());
    }
    if let Some(unread) = text.unread {
        if unread.next < run.len() {
            return next_mark(mark_in(run[unread.next].text.as_slice()));
        }
    }
    next_end(ends, frames)
}

/// Whether a token of this kind and spelling may be a macro's name.
pub(crate) fn is_open(kind: PpKind, text: &[u8], hides: &Hides) -> bool
    ensures { (space : Bool) → result ≡ expansion.is_open
        (record { kind = kind; text = text.now; space = space; hides = hides_of hides.now }) }
{
    kind == PpKind::Identifier && !hides.contains(text)
}
