//! Runs under a condition, each of which narrows it to the configurations of one face.
ghost use Rattle.std.specs.Prelude.{◌≡◌, [], true, Bool, List, ℕ, IfOk};
ghost use Rattle.hv_cond.specs.Diagram.{Diagram, IsNever, IsNode, Keeps, holds};
ghost use Rattle.hv_macros.specs.Table.{meaning_in};
ghost use Rattle.hv_plain.specs.episode.Expansion.{Deed as PlainDeed};
ghost use Rattle.hv_rescan.specs.Pending.{IsAt, is_macro};
ghost use Rattle.hv_rescan.specs.Values.{open_names, state_of};
ghost use Rattle.hv_toks.specs.Macro.{Macro, macro_of};
ghost use Rattle.hv_expand.specs.Outcomes.{ComesTo, HaveOneFace};
ghost use Rattle.hv_expand.specs.working.Going.{moved};
ghost use Rattle.hv_expand.specs.working.Moves.{Says};
ghost use Rattle.hv_expand.specs.working.Steps.{IsDigitOf, IsFound, IsGood, IsMachineOf, IsPart, IsRefusal, IsTurnOf};

use crate::moves::{Deed, Move, find_move};
use crate::outcome::{Ending, Expanded};
use crate::questions::{Question, ask};
use hv_base::{MOST_EVENTS, Memory, Why};
use hv_cond::{Cond, Store};
use hv_faces::{Class, Runs};
use hv_macros::MacroTable;
use hv_plain::RunEnd;
use hv_rescan::{Machine, Pending};
use hv_toks::{Meaning, PpTok};
use std::alloc::Global;

/// The episode at a position of a run, with the macros that it meets.
#[derive(Drop)]
pub(crate) struct Episodes<'a> {
    pub(crate) alloc: Global,
    pub(crate) table: &'a MacroTable,
    pub(crate) run: &'a [PpTok],
    pub(crate) ends: RunEnd,
    pub(crate) at: usize,
}

/// A machine, in the configurations that it is the episode of.
#[derive(Drop)]
pub(crate) struct Part<'a> {
    pub(crate) cond: Cond,
    pub(crate) machine: Machine<'a>,
}

/// Whether a name is defined, and the configurations in which that is so.
#[derive(Drop)]
pub(crate) struct Digit {
    pub(crate) cond: Cond,
    pub(crate) is_defined: bool,
}

/// What is next in an episode.
#[derive(Drop)]
pub(crate) enum Turn {
    /// Nothing.
    Ends(Ending),
    Moves(Move),
}

/// Whether a name that means this is defined.
pub(crate) fn is_defined(meaning: &Meaning) -> bool
    ensures { is_macro (macro_of meaning.now) ≡ result }
{
    matches!(meaning, Meaning::Defined { .. })
}

/// Why an episode is refused at a token with which this is done, where so many more events may
/// come.
pub(crate) fn refusal(deed: &Deed, left: usize) -> Option<Why>
    ensures { IsRefusal deed.now left result }
{
    match deed {
        Deed::Stop => Some(Why::DirectiveInArguments),
        Deed::Give | Deed::Use(_) if left == 0 => Some(Why::EpisodeTooLong),
        Deed::Give | Deed::Use(_) => None,
    }
}

/// The machine after that.
pub(crate) fn move_on<'a>(machine: Machine<'a>, deed: &Deed) -> Result<Machine<'a>, Memory>
    requires { open_names machine ≡ [] }
    ensures moves { IfOk result (λ next. (macros : List ℕ → Macro) (d : PlainDeed)
        → Says deed.now d → IsAt (state_of macros machine.entry)
        → state_of macros next
        ≡ moved machine.entry.run.ends (state_of macros machine.entry) d) }
    ensures run { IfOk result (λ next. next.run ≡ machine.entry.run) }
{
    match deed {
        Deed::Give => machine.give(),
        Deed::Use(body) => machine.use_macro(body),
        Deed::Stop => Ok(machine.stop()),
    }
}

impl<'a> Episodes<'a> {
    /// Refused at the episode's first token.
    fn refused(&self, why: Why) -> Ending
        ensures { result ≡ record { result = Expanded.Fails why; end = self.now.at } }
    {
        Ending {
            result: Expanded::Fails(why),
            end: self.at,
        }
    }

    /// Asks for the first open digit of the token that is next.
    fn ask_digit(
        &self,
        store: &mut Store,
        machine: &Machine<'_>,
        cond: Cond,
    ) -> Result<Option<Digit>, Memory>
        requires good { IsGood store.old self.now }
        requires node { IsNode store.old cond }
        requires possible { IsNever store.old cond → ⊥ }
        ensures keeps { Keeps store.old store.new }
        ensures digit { IfOk result (IsDigitOf store.old store.new self.now machine.now cond) }
    {
        let Pending::Digit { name } = machine.pending() else {
            return Ok(None);
        };
        let answer = ask(self.alloc, self.table, store, cond, name, Question::Defined)?;
        Ok(Some(Digit {
            cond: answer.cond,
            is_defined: is_defined(&answer.meaning),
        }))
    }

    /// Settles the open digits of the token that is next.
    fn settle(
        &self,
        store: &mut Store,
        mut machine: Machine<'a>,
        mut cond: Cond,
    ) -> Result<Part<'a>, Memory>
        requires good { IsGood store.old self.now }
        requires node { IsNode store.old cond }
        requires possible { IsNever store.old cond → ⊥ }
        requires machine { IsMachineOf self.now machine }
        ensures keeps { Keeps store.old store.new }
        ensures part { IfOk result
            (IsPart store.old store.new self.now machine.entry cond) }
    {
        while let Some(digit) = self.ask_digit(store, &machine, cond)? {
            machine = machine.settle(digit.is_defined)?;
            cond = digit.cond;
        }
        Ok(Part { cond, machine })
    }

    /// What is next in the configurations of a part.
    fn next_turn(&self, store: &mut Store, part: &Part<'_>) -> Result<Turn, Memory>
        requires good { IsGood store.old self.now }
        requires node { IsNode store.old part.now.cond }
        requires possible { IsNever store.old part.now.cond → ⊥ }
        requires machine { IsMachineOf self.now part.now.machine }
        requires none_open { open_names part.now.machine ≡ [] }
        ensures keeps { Keeps store.old store.new }
        ensures turn { IfOk result (IsTurnOf store.old store.new self.now part.now) }
    {
        match part.machine.pending() {
            Pending::Done => {
                let expansion = part.machine.expansion()?;
                Ok(Turn::Ends(Ending {
                    result: Expanded::Tokens(expansion.tokens),
                    end: expansion.goes_on,
                }))
            }
            Pending::Refused(why) => Ok(Turn::Ends(self.refused(why))),
            Pending::Digit { .. } => unreachable!(),
            Pending::Token {
                text,
                is_open,
                follows,
                ..
            } => {
                let found = find_move(
                    self.alloc, self.table, store, part.cond, text, is_open, follows,
                )?;
                Ok(Turn::Moves(found))
            }
        }
    }

    /// Runs the episode under a condition, which narrows to the configurations of one face.
    fn find(&self, store: &mut Store, mut cond: Cond) -> Result<Class<Ending>, Memory>
        requires good { IsGood store.old self.now }
        requires node { IsNode store.old cond }
        requires possible { IsNever store.old cond → ⊥ }
        ensures keeps { Keeps store.old store.new }
        ensures found { IfOk result (IsFound store.old store.new self.now cond) }
    {
        let mut machine = Machine::start(self.alloc, self.ends, self.run, self.at)?;
        let mut left = MOST_EVENTS;
        loop {
            let part = self.settle(store, machine, cond)?;
            match self.next_turn(store, &part)? {
                Turn::Ends(value) => {
                    return Ok(Class {
                        cond: part.cond,
                        value,
                    });
                }
                Turn::Moves(found) => {
                    if let Some(why) = refusal(&found.deed, left) {
                        return Ok(Class {
                            cond: found.cond,
                            value: self.refused(why),
                        });
                    }
                    left -= 1;
                    machine = move_on(part.machine, &found.deed)?;
                    cond = found.cond;
                }
            }
        }
    }
}

impl<'a> Runs for Episodes<'a> {
    type Value = Ending;

    ghost is_good = { λ diagram runs. IsGood diagram runs };

    ghost same_face = { λ diagram runs values others.
        HaveOneFace runs.ends runs.run.now runs.at diagram runs.table.now values others };

    ghost is_right = { λ diagram runs value values. ComesTo runs.ends runs.run.now runs.at
        (meaning_in diagram runs.table.now values) value.result value.end };

    fn run(&self, store: &mut Store, cond: Cond) -> Result<Class<Ending>, Memory> {
        self.find(store, cond)
    }

    ghost use Rattle.hv_expand.specs.working.Kept.{face_kept, good_kept, right_kept, symmetric};

    ghost symmetric = { λ diagram runs values others. symmetric diagram runs values others };

    ghost good_kept = { λ old new runs. good_kept old new runs };

    ghost face_kept = { λ old new runs values others. face_kept old new runs values others };

    ghost right_kept = { λ old new runs value values. right_kept old new runs value values };
}
