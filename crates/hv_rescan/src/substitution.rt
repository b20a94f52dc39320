//! Substitution: what stands for the parts of a replacement list (ISO/IEC 9899:1999, 6.10.3.1 to
//! 6.10.3.3).
ghost use Rattle.std.specs.Prelude.{◌≡◌, ◌||◌, ◌∷◌, ◌++◌, [], ℕ, Bool, List, map, IfOk, OnOk};
ghost use Rattle.hv_toks.specs.Macro.{Macro};
ghost use Rattle.hv_toks.specs.declared.token.PpTok.{PpTok as PpTok'};
ghost use Rattle.hv_plain.specs.episode.Substitution as substitution;
ghost use Rattle.hv_plain.specs.episode.Tokens.{still_owed};
ghost use Rattle.hv_rescan.specs.Values.{arguments_of, frame_of, givens_of, hides_of, operand_of, part_of, scan_of, tokens_of};
ghost use Rattle.hv_rescan.specs.working.Steps.{filled_of, placed};

use crate::arguments::argument;
use crate::hides::Hides;
use crate::part::{Operand, Part};
use crate::paste::{join, string_token};
use crate::scan::{Frame, Scan};
use crate::shared::Tokens;
use crate::spelling::Spelling;
use crate::token::{Given, Token, copies, put_front, regained, space_first};
use hv_base::{List, Memory};
use std::alloc::Global;

/// A substitution that goes on until it is whole, waits for the expansion of an argument, or has a
/// `##` that gives no token.
#[derive(Drop)]
pub(crate) enum Filled {
    Whole(Scan),
    Waits {
        first: Token,
        more: Tokens,
        frame: Frame,
    },
    Broken,
}

/// Whether white space stands before an operand.
fn space_of(operand: &Operand) -> bool
    ensures { result ≡ substitution.space_of (operand_of operand.now) }
{
    match operand {
        Operand::Token { space, .. }
        | Operand::Parameter { space, .. }
        | Operand::Str { space, .. } => *space,
    }
}

/// The tokens that stand for an operand, the first one after white space exactly where this is so.
fn stands_for(
    alloc: Global,
    arguments: &[Tokens],
    space: bool,
    operand: Operand,
) -> Result<Vec<Token>, Memory>
    ensures { IfOk result (λ tokens. (macros : List ℕ → Macro) → tokens_of macros tokens.items
        ≡ substitution.stands_for (arguments_of macros arguments.now) space (operand_of operand)) }
{
    match operand {
        Operand::Parameter { index, .. } => {
            let argument = argument(arguments, index)?;
            let mut tokens = copies(alloc, argument.as_slice())?;
            space_first(&mut tokens, space);
            Ok(tokens)
        }
        Operand::Token { kind, text, .. } => {
            let mut tokens = Vec::new(alloc);
            tokens.push(Token {
                kind,
                spelling: Spelling::Known(text),
                space,
                hides: Hides::none(),
            })?;
            Ok(tokens)
        }
        Operand::Str { index, .. } => {
            let argument = argument(arguments, index)?;
            let mut tokens = Vec::new(alloc);
            tokens.push(string_token(alloc, argument.as_slice(), space)?)?;
            Ok(tokens)
        }
    }
}

/// The text around, with the result of a substitution before it.
fn substituted(
    alloc: Global,
    mut around: Scan,
    mut tokens: Vec<Token>,
    hides: &Hides,
    space: bool,
) -> Result<Scan, Memory>
    ensures { IfOk result (λ scan. (macros : List ℕ → Macro) (run : List PpTok')
        → scan_of macros run scan ≡ placed (scan_of macros run around)
        (tokens_of macros tokens.items) (hides_of hides.now) space) }
{
    if tokens.is_empty() {
        around.owe(alloc, space)?;
        return Ok(around);
    }
    space_first(&mut tokens, space);
    put_front(alloc, &mut around.front, tokens, hides)?;
    Ok(around)
}

/// Goes on with the parts of a substitution, where `last` stands for those before of which a `##`
/// may follow.
pub(crate) fn fill(alloc: Global, frame: Frame, mut last: Vec<Token>) -> Result<Filled, Memory>
    ensures { IfOk result (λ filled. (macros : List ℕ → Macro) (run : List PpTok')
        → filled_of macros run filled ≡ substitution.fill (frame_of macros run frame)
        (map part_of frame.rest) frame.owed (tokens_of macros frame.built.items)
        (tokens_of macros last.items)) }
{
    let Frame {
        around,
        arguments,
        mut rest,
        mut built,
        mut owed,
        hides,
        space,
    } = frame;
    while let Some(part) = rest.pop() {
        let (operand, joins) = match part {
            Part::Single(operand) => (operand, false),
            Part::Joined(operand) => (operand, true),
            Part::Expanded { index, space: own } => {
                owed = own || owed;
                built.append(&mut last)?;
                let mut more = argument(&arguments, index)?;
                let next = more.pop(alloc)?;
                if let Some(first) = next {
                    let frame = Frame {
                        around,
                        arguments,
                        rest,
                        built,
                        owed,
                        hides,
                        space,
                    };
                    return Ok(Filled::Waits { first, more, frame });
                }
                continue;
            }
        };
        let owes = space_of(&operand) || owed;
        let tokens = stands_for(alloc, &arguments, owes, operand)?;
        owed = owes && tokens.is_empty();
        if joins {
            let Some(both) = join(alloc, last, tokens)? else {
                return Ok(Filled::Broken);
            };
            last = both;
        } else {
            built.append(&mut last)?;
            last = tokens;
        }
    }
    built.append(&mut last)?;
    Ok(Filled::Whole(substituted(alloc, around, built, &hides, space)?))
}

/// Goes on after the expansion of an argument, which gave these tokens.
pub(crate) fn resume(alloc: Global, mut frame: Frame, given: List<Given>) -> Result<Filled, Memory>
    ensures { IfOk result (λ filled. (macros : List ℕ → Macro) (run : List PpTok')
        → filled_of macros run filled
        ≡ substitution.resume (frame_of macros run frame) (givens_of given)) }
{
    let owed = frame.owed;
    frame.owed = owed && given.is_empty();
    let last = regained(alloc, given, owed)?;
    let filled = fill(alloc, frame, last)?;
    Ok(filled)
}
