//! The arguments of a function-like macro (ISO/IEC 9899:1999, 6.10.3, paragraphs 4, 10, 11 and 12).
ghost use Rattle.std.specs.Prelude.{◌≡◌, ◌≤◌, ◌+◌, ◌∷◌, ◌++◌, [], ℕ, Bool, List, Option, length, min, IfOk, OnOk};
ghost use Rattle.hv_toks.specs.Macro.{Macro};
ghost use Rattle.hv_plain.specs.episode.Invocation as invocation;
ghost use Rattle.hv_plain.specs.episode.Substitution.{argument};
ghost use Rattle.hv_rescan.specs.Values.{arguments_of, text_of, tokens_of, unread_of};
ghost use Rattle.hv_rescan.specs.working.Steps.{IsFound, ahead_of, mark_of, taken_of};

use crate::front::Front;
use crate::hides::Hides;
use crate::scan::{Unread, take};
use crate::shared::Tokens;
use crate::spelling::Spelling;
use hv_base::Memory;
use hv_toks::{Body, PpTok};
use std::alloc::Global;

/// What a token is to an invocation.
#[derive(Clone, Copy)]
pub(crate) enum Mark {
    Opening,
    Closing,
    Comma,
    Other,
}

/// Arguments, and the names that the `)` hides.
#[derive(Drop)]
pub(crate) struct Taken {
    pub(crate) arguments: Vec<Tokens>,
    pub(crate) hides: Hides,
}

/// Arguments that stand at the beginning of some tokens, and how many tokens they are, with the
/// `)`.
#[derive(Drop)]
pub(crate) struct Found {
    pub(crate) taken: Taken,
    pub(crate) length: usize,
}

/// What a text is to an invocation.
pub(crate) fn mark_in(text: &[u8]) -> Mark
    ensures { mark_of result ≡ invocation.mark text.now }
{
    if text == b"(".as_slice() {
        Mark::Opening
    } else if text == b")".as_slice() {
        Mark::Closing
    } else if text == b",".as_slice() {
        Mark::Comma
    } else {
        Mark::Other
    }
}

impl Spelling {
    /// What a spelling is to an invocation. One with an open digit is no mark.
    pub(crate) fn mark(&self) -> Mark
        ensures { (macros : List ℕ → Macro)
            → mark_of result ≡ invocation.mark (text_of macros self.now) }
    {
        match self {
            Spelling::Known(text) => mark_in(text.as_slice()),
            Spelling::Open { .. } => Mark::Other,
        }
    }
}

/// Whether a comma ends an argument, where there are so many before it.
fn ends_argument(body: &Body, arguments: &[Tokens]) -> bool
    ensures { (macros : List ℕ → Macro)
        → result ≡ invocation.ends_argument body.now (arguments_of macros arguments.now) }
{
    match body {
        Body::Function {
            params,
            variadic: true,
            ..
        } => arguments.len() < params.len(),
        Body::Object { .. } | Body::Function { .. } => true,
    }
}

/// The arguments up to the matching `)`, as parts of the tokens; `None` where these end before.
pub(crate) fn find_arguments(
    alloc: Global,
    body: &Body,
    tokens: &Tokens,
) -> Result<Option<Found>, Memory>
    ensures { IfOk result (λ found. IsFound body.now found tokens.now) }
{
    let mut depth: usize = 0;
    let mut begin: usize = 0;
    let mut arguments = Vec::new(alloc);
    for (at, token) in tokens.as_slice().iter().enumerate() {
        match token.spelling.mark() {
            Mark::Opening => depth += 1,
            Mark::Closing => {
                if depth == 0 {
                    arguments.push(tokens.part(begin, at)?)?;
                    let hides = token.hides.copy()?;
                    return Ok(Some(Found {
                        taken: Taken { arguments, hides },
                        length: at + 1,
                    }));
                }
                depth -= 1;
            }
            Mark::Comma => {
                if depth == 0 && ends_argument(body, &arguments) {
                    arguments.push(tokens.part(begin, at)?)?;
                    begin = at + 1;
                }
            }
            Mark::Other => {}
        }
    }
    Ok(None)
}

/// Takes the arguments up to the matching `)`; `None` where the text ends before.
pub(crate) fn take_arguments(
    alloc: Global,
    run: &[PpTok],
    body: &Body,
    front: &mut Front,
    unread: &mut Option<Unread>,
) -> Result<Option<Taken>, Memory>
    ensures taken { IfOk result (λ taken. (macros : List ℕ → Macro)
        → taken_of macros taken (ahead_of macros run.now front.new unread.new)
        ≡ invocation.take_arguments body.now 0 [] []
        (ahead_of macros run.now front.old unread.old)) }
    ensures left { OnOk result (length (unread_of run.now unread.new)
        ≡ min (length (unread_of run.now unread.old))
        (length front.new + length (unread_of run.now unread.new))) }
    ensures no_more { OnOk result (length front.new + length (unread_of run.now unread.new)
        ≤ length front.old + length (unread_of run.now unread.old)) }
{
    if let Some(taken) = front.take_arguments(alloc, body)? {
        return Ok(Some(taken));
    }
    let taken = collect_arguments(alloc, run, body, front, unread)?;
    Ok(taken)
}

/// The same where they are collected token by token.
fn collect_arguments(
    alloc: Global,
    run: &[PpTok],
    body: &Body,
    front: &mut Front,
    unread: &mut Option<Unread>,
) -> Result<Option<Taken>, Memory>
    ensures taken { IfOk result (λ taken. (macros : List ℕ → Macro)
        → taken_of macros taken (ahead_of macros run.now front.new unread.new)
        ≡ invocation.take_arguments body.now 0 [] []
        (ahead_of macros run.now front.old unread.old)) }
    ensures left { OnOk result (length (unread_of run.now unread.new)
        ≡ min (length (unread_of run.now unread.old))
        (length front.new + length (unread_of run.now unread.new))) }
    ensures no_more { OnOk result (length front.new + length (unread_of run.now unread.new)
        ≤ length front.old + length (unread_of run.now unread.old)) }
{
    let mut depth: usize = 0;
    let mut argument = Vec::new(alloc);
    let mut arguments = Vec::new(alloc);
    while let Some(token) = take(alloc, run, front, unread)? {
        match token.spelling.mark() {
            Mark::Opening => depth += 1,
            Mark::Closing => {
                if depth == 0 {
                    arguments.push(Tokens::all(alloc, argument)?)?;
                    return Ok(Some(Taken {
                        arguments,
                        hides: token.hides,
                    }));
                }
                depth -= 1;
            }
            Mark::Comma => {
                if depth == 0 && ends_argument(body, &arguments) {
                    arguments.push(Tokens::all(alloc, argument)?)?;
                    argument = Vec::new(alloc);
                    continue;
                }
            }
            Mark::Other => {}
        }
        argument.push(token)?;
    }
    Ok(None)
}

/// Whether a macro with so many parameters takes these arguments.
fn has_count(count: usize, arguments: &[Tokens]) -> bool
    ensures { (macros : List ℕ → Macro)
        → result ≡ invocation.has_count count (arguments_of macros arguments.now) }
{
    if count == 0 && arguments.len() == 1 {
        return arguments[0].as_slice().is_empty();
    }
    arguments.len() == count
}

/// Whether the number of arguments is right.
pub(crate) fn takes(body: &Body, arguments: &[Tokens]) -> bool
    ensures { (macros : List ℕ → Macro)
        → result ≡ invocation.takes body.now (arguments_of macros arguments.now) }
{
    match body {
        Body::Object { .. } => true,
        Body::Function {
            params,
            variadic: true,
            ..
        } => params.len() <= arguments.len(),
        Body::Function { params, .. } => has_count(params.len(), arguments),
    }
}

/// The argument of this index; one that the invocation lacks is empty.
pub(crate) fn argument(arguments: &[Tokens], index: usize) -> Result<Tokens, Memory>
    ensures { IfOk result (λ tokens. (macros : List ℕ → Macro)
        → tokens_of macros tokens ≡ argument (arguments_of macros arguments.now) index) }
{
    if index >= arguments.len() {
        return Ok(Tokens::none());
    }
    let copy = arguments[index].copy()?;
    Ok(copy)
}
