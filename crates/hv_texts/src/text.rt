//! A text: the text lines between two directives.
ghost use Rattle.std.specs.Prelude.{◌≡◌, ◌+◌, ◌<◌, [], length, IfErr, IfOk, OnOk, MatchOption};
ghost use Rattle.hv_cond.specs.Diagram.{IsNode, Keeps};
ghost use Rattle.hv_expand.specs.Outcomes.{conditions};
ghost use Rattle.hv_macros.specs.Table.{HasOneBody, IsTableOf, meaning_in};
ghost use Rattle.hv_plain.specs.declared.episode.RunEnd.TheVariants.{Line};
ghost use Rattle.hv_plainpp.specs.Files.{Entered};
ghost use Rattle.hv_plainpp.specs.Text.{episodes};
ghost use Rattle.hv_texts.specs.Faces.{HasTooMany, IfTooMany};
ghost use Rattle.hv_texts.specs.Readings.{AreApart, AreByFace, AreFew, AreMet, Ends, IsOriginOf};
ghost use Rattle.hv_texts.specs.working.Steps.{AreOutcomes, HasNumber, IfFound, IsTextRead, IsTurn, IsWalk, reads};

use crate::came::{Came, Found, TextFault, TooMany, too_many_at};
use crate::origin::Origin;
use crate::walk::Walk;
use hv_base::{List, Memory, Place};
use hv_cond::{Cond, Store};
use hv_expand::{Outcome, RunEnd, expand_episode};
use hv_macros::MacroTable;
use hv_toks::PpTok;
use std::alloc::Global;
use std::collections::VecDeque;

/// A text with the macros that it meets.
#[derive(Drop)]
struct Text<'a> {
    alloc: Global,
    table: &'a MacroTable,
    origin: &'a Origin,
    run: &'a [PpTok],
    ends: RunEnd,
    /// The condition under which it is expanded.
    cond: Cond,
}

impl Text<'_> {
    /// Sorts the outcomes of the episode at a position, which has this place.
    fn sort_all(
        &self,
        store: &mut Store,
        walk: &mut Walk,
        at: usize,
        place: &Place,
        cond: Cond,
        outcomes: List<Outcome>,
    ) -> Result<(), Memory>
        requires within { at < length self.now.run.now }
        requires outcomes { AreOutcomes store.old self.now.table.now self.now.ends
            self.now.run.now at cond outcomes }
        requires turn { IsTurn store.old self.now.cond self.now.origin.now self.now.ends
            (meaning_in store.old self.now.table.now) self.now.run.now at place.now
            (HasNumber store.old outcomes) walk.old.given (conditions outcomes)
            walk.old.reached.items walk.old.refusals }
        ensures keeps { Keeps store.old store.new }
        ensures turn { OnOk result (IsTurn store.new self.now.cond self.now.origin.now
            self.now.ends (meaning_in store.old self.now.table.now) self.now.run.now at place.now
            (HasNumber store.old outcomes) walk.new.given []
            walk.new.reached.items walk.new.refusals) }
    {
        let mut pending = VecDeque::from_vec(outcomes.into_vec());
        while let Some(outcome) = pending.pop_front() {
            walk.sort(store, at, place, outcome)?;
        }
        Ok(())
    }

    /// Passes a position: the episodes that begin there go on, unless they have too many faces.
    fn pass(&self, store: &mut Store, walk: &mut Walk, at: usize) -> Result<Option<TooMany>, Memory>
        requires within { at < length self.now.run.now }
        requires ends { self.now.ends ≡ Line → ⊥ }
        requires table { IsTableOf store.old self.now.table.now }
        requires one_body { HasOneBody store.old self.now.table.now }
        requires walk { IsWalk store.old self.now.cond self.now.origin.now self.now.ends
            (meaning_in store.old self.now.table.now) self.now.run.now at walk.old.given
            walk.old.reached.items walk.old.refusals }
        ensures keeps { Keeps store.old store.new }
        ensures walk { IfOk result (λ found. MatchOption found
            (IsWalk store.new self.now.cond self.now.origin.now self.now.ends
            (meaning_in store.old self.now.table.now) self.now.run.now (at + 1) walk.new.given
            walk.new.reached.items walk.new.refusals)
            (λ t. AreApart self.now.run.now → HasTooMany store.new self.now.cond
            (reads self.now.origin.now self.now.ends (meaning_in store.old self.now.table.now)
            self.now.run.now) t.place t.conds)) }
    {
        let place = self.origin.place_of(&self.run[at], self.alloc)?;
        let cond = walk.reached[at];
        match expand_episode(self.alloc, store, self.table, self.run, self.ends, at, cond) {
            Ok(outcomes) => {
                self.sort_all(store, walk, at, &place, cond, outcomes)?;
                Ok(None)
            }
            Err(fault) => Ok(Some(too_many_at(place, fault)?)),
        }
    }

    /// What is found of the text.
    fn expand(&self, store: &mut Store) -> Result<Found<()>, Memory>
        requires ends { self.now.ends ≡ Line → ⊥ }
        requires cond { IsNode store.old self.now.cond }
        requires table { IsTableOf store.old self.now.table.now }
        requires one_body { HasOneBody store.old self.now.table.now }
        ensures keeps { Keeps store.old store.new }
        ensures found { IfOk result (IfFound
            (IsTextRead store.new self.now.cond self.now.run.now (reads self.now.origin.now
            self.now.ends (meaning_in store.old self.now.table.now) self.now.run.now))
            (λ place conds. AreApart self.now.run.now → HasTooMany store.new self.now.cond
            (reads self.now.origin.now self.now.ends (meaning_in store.old self.now.table.now)
            self.now.run.now) place conds)) }
    {
        let len = self.run.len();
        let mut walk = Walk::new(self.alloc, store, len, self.cond)?;
        let mut at = 0;
        while at < len {
            if let Some(too_many) = self.pass(store, &mut walk, at)? {
                return Ok(Found::TooMany(too_many));
            }
            at += 1;
        }
        Ok(Found::Came(walk.finish()?))
    }
}

/// The episodes of a text, the tokens of the text lines between two directives of a file, in each
/// configuration of a condition: which are met, and which configurations one of them refuses
/// (ISO/IEC 9899:1999, 6.10.3). Each position of the text is met once, with all configurations
/// whose next episode begins there. That two entries of one place have one number exactly where
/// they have one face, and that there are too many, is said of texts no two tokens of which begin
/// at one offset.
pub fn expand_text(
    alloc: Global,
    store: &mut Store,
    table: &MacroTable,
    origin: &Origin,
    run: &[PpTok],
    ends: RunEnd,
    cond: Cond,
) -> Result<Came<()>, TextFault>
    requires ends { ends ≡ Line → ⊥ }
    requires cond { IsNode store.old cond }
    requires table { IsTableOf store.old table.now }
    requires one_body { HasOneBody store.old table.now }
    ensures keeps { Keeps store.old store.new }
    ensures met { IfOk result (λ came. (at : Entered) → IsOriginOf origin.now at
        → AreMet store.new cond came.given
        (λ values. episodes at ends (meaning_in store.old table.now values) 0 run.now)) }
    ensures faces { IfOk result (λ came. (at : Entered) → IsOriginOf origin.now at
        → AreApart run.now → AreByFace store.new cond came.given
        (λ values. episodes at ends (meaning_in store.old table.now values) 0 run.now)) }
    ensures few { IfOk result (λ came. AreFew came.given) }
    ensures ends { IfOk result (λ came. (at : Entered) → IsOriginOf origin.now at
        → Ends store.new cond came.good came.failing (λ values value. Unit {0})
        (λ values. episodes at ends (meaning_in store.old table.now values) 0 run.now)) }
    ensures too_many { IfErr result (IfTooMany (λ place conds. (at : Entered)
        → IsOriginOf origin.now at → AreApart run.now → HasTooMany store.new cond
        (λ values. episodes at ends (meaning_in store.old table.now values) 0 run.now)
        place conds)) }
{
    let text = Text {
        alloc,
        table,
        origin,
        run,
        ends,
        cond,
    };
    match text.expand(store) {
        Ok(Found::Came(came)) => Ok(came),
        Ok(Found::TooMany(TooMany { place, conds })) => Err(TextFault::TooMany { place, conds }),
        Err(_) => Err(TextFault::Memory),
    }
}
