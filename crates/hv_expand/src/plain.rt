//! The episode of one configuration, without a store and without faces: the plain function that the
//! outcomes of `expand_episode` are compared with.
ghost use Rattle.std.specs.Prelude.{◌≡◌, ◌<◌, [], List, ℕ, length, IfOk};
ghost use Rattle.hv_plain.specs.declared.episode.RunEnd.TheVariants.{Line};
ghost use Rattle.hv_rescan.specs.Values.{open_names, state_of};
ghost use Rattle.hv_toks.specs.Macro.{macro_of};
ghost use Rattle.hv_expand.specs.Outcomes.{ComesTo};
ghost use Rattle.hv_expand.specs.Plain.{meanings};
ghost use Rattle.hv_expand.specs.working.PlainSteps.{IsPlainDigit, IsPlainTurn};

use crate::episodes::{is_defined, move_on, refusal};
use crate::moves::{Deed, decide};
use crate::outcome::{Ending, Expanded};
use hv_base::{MOST_EVENTS, Memory, Text};
use hv_plain::RunEnd;
use hv_rescan::{Machine, Pending};
use hv_toks::{Meaning, PpTok};
use std::alloc::Global;

/// A name, and what it means from here on.
#[derive(Debug, Drop)]
pub struct Entry {
    pub name: Text,
    pub meaning: Meaning,
}

/// What is next in the episode of one configuration.
#[derive(Drop)]
pub(crate) enum PlainTurn {
    /// Nothing.
    Ends(Ending),
    Does(Deed),
}

/// What a name means after these entries, of which the latest counts.
fn meaning(alloc: Global, entries: &[Entry], name: &[u8]) -> Result<Meaning, Memory>
    ensures { IfOk result (λ meaning. macro_of meaning ≡ meanings entries.now name.now) }
{
    let undefined = Meaning::Undefined;
    let mut latest = &undefined;
    for entry in entries {
        if entry.name.is_text(name) {
            latest = &entry.meaning;
        }
    }
    latest.copy(alloc)
}

/// Whether the first name is defined that is asked for in the token that is next; none where no
/// name is.
fn digit(alloc: Global, entries: &[Entry], machine: &Machine<'_>) -> Result<Option<bool>, Memory>
    ensures { IfOk result (IsPlainDigit (meanings entries.now) machine.now) }
{
    let Pending::Digit { name } = machine.pending() else {
        return Ok(None);
    };
    let meaning = meaning(alloc, entries, name)?;
    Ok(Some(is_defined(&meaning)))
}

/// Answers what is asked for in the token that is next.
fn settle<'a>(
    alloc: Global,
    entries: &[Entry],
    mut machine: Machine<'a>,
) -> Result<Machine<'a>, Memory>
    ensures none_open { IfOk result (λ next. open_names next ≡ []) }
    ensures same { IfOk result (λ next. state_of (meanings entries.now) next
        ≡ state_of (meanings entries.now) machine.entry) }
    ensures run { IfOk result (λ next. next.run ≡ machine.entry.run) }
{
    while let Some(is_defined) = digit(alloc, entries, &machine)? {
        machine = machine.settle(is_defined)?;
    }
    Ok(machine)
}

/// What is next in an episode that begins at this position.
fn next_turn(
    alloc: Global,
    entries: &[Entry],
    machine: &Machine<'_>,
    at: usize,
) -> Result<PlainTurn, Memory>
    requires { open_names machine.now ≡ [] }
    ensures { IfOk result (IsPlainTurn (meanings entries.now) machine.now at) }
{
    match machine.pending() {
        Pending::Done => {
            let expansion = machine.expansion()?;
            Ok(PlainTurn::Ends(Ending {
                result: Expanded::Tokens(expansion.tokens),
                end: expansion.goes_on,
            }))
        }
        Pending::Refused(why) => Ok(PlainTurn::Ends(Ending {
            result: Expanded::Fails(why),
            end: at,
        })),
        Pending::Digit { .. } => unreachable!(),
        Pending::Token {
            text,
            is_open,
            follows,
            ..
        } => {
            if !is_open {
                return Ok(PlainTurn::Does(Deed::Give));
            }
            let meaning = meaning(alloc, entries, text)?;
            Ok(PlainTurn::Does(decide(follows, meaning)))
        }
    }
}

/// What the episode at a position of a run comes to in the macro state that these entries make: the
/// definition, computed as it stands.
pub fn plain_episode(
    alloc: Global,
    entries: &[Entry],
    run: &[PpTok],
    ends: RunEnd,
    at: usize,
) -> Result<Ending, Memory>
    requires within { at < length run.now }
    requires line { ends ≡ Line → at ≡ 0 }
    ensures { IfOk result (λ ending.
        ComesTo ends run.now at (meanings entries.now) ending.result ending.end) }
{
    let mut machine = Machine::start(alloc, ends, run, at)?;
    let mut left = MOST_EVENTS;
    loop {
        let settled = settle(alloc, entries, machine)?;
        match next_turn(alloc, entries, &settled, at)? {
            PlainTurn::Ends(ending) => return Ok(ending),
            PlainTurn::Does(deed) => {
                if let Some(why) = refusal(&deed, left) {
                    return Ok(Ending {
                        result: Expanded::Fails(why),
                        end: at,
                    });
                }
                left -= 1;
                machine = move_on(settled, &deed)?;
            }
        }
    }
}
