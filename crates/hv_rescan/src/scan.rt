//! Texts that are rescanned, and the states of the expansion.
ghost use Rattle.std.specs.Prelude.{◌≡◌, ◌+◌, ◌∷◌, ◌++◌, [], ℕ, Bool, true, List, Option, length, min, nat_le, IfOk, OnOk};
ghost use Rattle.std.specs.Option.{option_map};
ghost use Rattle.hv_toks.specs.Macro.{Macro};
ghost use Rattle.hv_toks.specs.declared.token.PpTok.{PpTok as PpTok'};
ghost use Rattle.hv_plain.specs.episode.Expansion.{alone};
ghost use Rattle.hv_rescan.specs.Values.{scan_of, token_of, tokens_of, unread_of};
ghost use Rattle.hv_rescan.specs.working.Steps.{Fewer, Takes, ahead_of, owing_in};

use crate::front::Front;
use crate::hides::Hides;
use crate::part::Part;
use crate::shared::Tokens;
use crate::token::{Given, Token, source_token};
use hv_base::{List, Memory, Stack, Why};
use hv_toks::PpTok;
use std::alloc::Global;

/// The rest of a run that nothing took yet.
#[derive(Clone, Copy, Debug)]
pub struct Unread {
    /// The position of its first token.
    pub(crate) next: usize,
    /// Whether white space is to stand before that token, too.
    pub(crate) owed: bool,
}

/// A text that is rescanned.
#[derive(Debug, Drop)]
pub struct Scan {
    /// The tokens that stand next, before those of the run.
    pub(crate) front: Front,
    /// What follows of the run; an argument that is expanded by itself has nothing of it.
    pub(crate) unread: Option<Unread>,
    pub(crate) given: List<Given>,
}

/// A substitution that waits for an argument to be expanded by itself.
#[derive(Debug, Drop)]
pub struct Frame {
    /// The text around, from after the invocation on.
    pub(crate) around: Scan,
    pub(crate) arguments: Vec<Tokens>,
    /// The parts after the parameter.
    pub(crate) rest: Stack<Part>,
    /// What stands for the parts before it.
    pub(crate) built: Vec<Token>,
    /// Whether white space stands before what comes next.
    pub(crate) owed: bool,
    /// What each resulting token hides too.
    pub(crate) hides: Hides,
    /// Whether white space stands before the macro's name.
    pub(crate) space: bool,
}

#[derive(Debug, Drop)]
pub enum State {
    /// The token is next, and stands before those of the text. The frames are the substitutions
    /// that wait for the text, the innermost on top.
    At {
        token: Token,
        text: Scan,
        frames: Stack<Frame>,
    },
    Done {
        text: Scan,
    },
    Refused {
        why: Why,
    },
}

/// The first token of the rest of a run, taken off.
fn take_unread(
    alloc: Global,
    run: &[PpTok],
    unread: &mut Option<Unread>,
) -> Result<Option<Token>, Memory>
    ensures { IfOk result (λ taken. (macros : List ℕ → Macro) → Takes
        (option_map (token_of macros) taken)
        (unread_of run.now unread.old) (unread_of run.now unread.new)) }
{
    let Some(Unread { next, owed }) = *unread else {
        return Ok(None);
    };
    if next >= run.len() {
        return Ok(None);
    }
    let mut token = source_token(alloc, &run[next])?;
    token.space = token.space || owed;
    *unread = Some(Unread {
        next: next + 1,
        owed: false,
    });
    Ok(Some(token))
}

/// The first token that stands next, or of the rest of the run, taken off.
pub(crate) fn take(
    alloc: Global,
    run: &[PpTok],
    front: &mut Front,
    unread: &mut Option<Unread>,
) -> Result<Option<Token>, Memory>
    ensures takes { IfOk result (λ taken. (macros : List ℕ → Macro) → Takes
        (option_map (token_of macros) taken)
        (ahead_of macros run.now front.old unread.old)
        (ahead_of macros run.now front.new unread.new)) }
    ensures left { OnOk result (length (unread_of run.now unread.new)
        ≡ min (length (unread_of run.now unread.old))
        (length front.new + length (unread_of run.now unread.new))) }
    ensures fewer { IfOk result (λ taken. Fewer taken
        (length front.old + length (unread_of run.now unread.old))
        (length front.new + length (unread_of run.now unread.new))) }
{
    let own = front.pop(alloc)?;
    if let Some(token) = own {
        return Ok(Some(token));
    }
    let taken = take_unread(alloc, run, unread)?;
    Ok(taken)
}

impl Scan {
    /// A text to be scanned by itself (ISO/IEC 9899:1999, 6.10.3.1).
    pub(crate) fn alone(alloc: Global, front: Front) -> Scan
        ensures { (macros : List ℕ → Macro) (run : List PpTok')
            → scan_of macros run result ≡ alone (tokens_of macros front) }
    {
        Scan {
            front,
            unread: None,
            given: List::new(alloc),
        }
    }

    /// The first token that is left stands after white space where this is so, too.
    pub(crate) fn owe(&mut self, alloc: Global, owed: bool) -> Result<(), Memory>
        ensures { OnOk result ((macros : List ℕ → Macro) (run : List PpTok')
            → scan_of macros run self.new ≡ owing_in owed (scan_of macros run self.old)) }
    {
        if let Some(mut token) = self.front.pop(alloc)? {
            token.space = token.space || owed;
            return self.front.push(token);
        }
        if let Some(unread) = self.unread {
            self.unread = Some(Unread {
                next: unread.next,
                owed: unread.owed || owed,
            });
        }
        Ok(())
    }
}
