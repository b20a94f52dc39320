//! The line of an `#if` or `#elif`.
ghost use Rattle.std.specs.Prelude.{◌<◌, [], length, IfErr, IfOk, OnOk};
ghost use Rattle.hv_cond.specs.Diagram.{IsNode, Keeps};
ghost use Rattle.hv_expand.specs.Outcomes.{conditions};
ghost use Rattle.hv_macros.specs.Table.{HasOneBody, IsTableOf, meaning_in};
ghost use Rattle.hv_plainpp.specs.Files.{Entered};
ghost use Rattle.hv_plain.specs.declared.episode.RunEnd.TheVariants.{Line as AtLine};
ghost use Rattle.hv_plainpp.specs.Groups.{expression_truth};
ghost use Rattle.hv_texts.specs.Faces.{HasTooMany, IfTooMany};
ghost use Rattle.hv_texts.specs.Readings.{AreByFace, AreFew, AreMet, AreWithin, Ends, HasTruth, IsOriginOf};
ghost use Rattle.hv_texts.specs.working.Steps.{AreOutcomes, HasNumber, IfFound, IsJudging, IsLineRead, line_reads};

use crate::came::{Came, Found, TextFault, TooMany, Truths, too_many_at};
use crate::judging::Judging;
use crate::name::refused_line;
use crate::origin::Origin;
use hv_base::{List, Memory, Place, Why};
use hv_cond::{Cond, Store};
use hv_expand::{Outcome, RunEnd, expand_episode};
use hv_macros::MacroTable;
use hv_toks::PpTok;
use std::alloc::Global;
use std::collections::VecDeque;

/// A controlling line with the macros that it meets.
#[derive(Drop)]
struct Controlling<'a> {
    alloc: Global,
    table: &'a MacroTable,
    line: &'a [PpTok],
    /// The place of its `#`.
    hash: &'a Place,
    /// The place of its first token.
    place: &'a Place,
}

impl Controlling<'_> {
    /// Judges the configurations of all outcomes.
    fn judge_all(
        &self,
        store: &mut Store,
        judging: &mut Judging,
        cond: Cond,
        outcomes: List<Outcome>,
    ) -> Result<(), Memory>
        requires outcomes { AreOutcomes store.old self.now.table.now AtLine self.now.line.now 0
            cond outcomes }
        requires judging { IsJudging store.old cond self.now.hash.now self.now.place.now
            (meaning_in store.old self.now.table.now) self.now.line.now
            (HasNumber store.old outcomes) judging.old.given (conditions outcomes)
            judging.old.truths judging.old.refusals }
        ensures keeps { Keeps store.old store.new }
        ensures judged { OnOk result (IsJudging store.new cond self.now.hash.now
            self.now.place.now (meaning_in store.old self.now.table.now) self.now.line.now
            (HasNumber store.old outcomes) judging.new.given []
            judging.new.truths judging.new.refusals) }
    {
        let mut pending = VecDeque::from_vec(outcomes.into_vec());
        while let Some(outcome) = pending.pop_front() {
            judging.judge(store, self.hash, self.place, outcome)?;
        }
        Ok(())
    }

    /// What comes of the line under a condition.
    fn read(&self, store: &mut Store, cond: Cond) -> Result<Found<Truths>, Memory>
        requires some { 0 < length self.now.line.now }
        requires cond { IsNode store.old cond }
        requires table { IsTableOf store.old self.now.table.now }
        requires one_body { HasOneBody store.old self.now.table.now }
        ensures keeps { Keeps store.old store.new }
        ensures found { IfOk result (IfFound
            (IsLineRead store.new cond (line_reads self.now.hash.now self.now.place.now
            (meaning_in store.old self.now.table.now) self.now.line.now))
            (HasTooMany store.new cond (line_reads self.now.hash.now self.now.place.now
            (meaning_in store.old self.now.table.now) self.now.line.now))) }
    {
        let alloc = self.alloc;
        match expand_episode(alloc, store, self.table, self.line, RunEnd::Line, 0, cond) {
            Ok(outcomes) => {
                let mut judging = Judging::new(alloc, store);
                self.judge_all(store, &mut judging, cond, outcomes)?;
                Ok(Found::Came(judging.finish(store)?))
            }
            Err(fault) => {
                let place = self.place.copy(alloc)?;
                Ok(Found::TooMany(too_many_at(place, fault)?))
            }
        }
    }
}

/// What is found of a line; without a token it is refused at its `#`.
fn read_line(
    alloc: Global,
    store: &mut Store,
    table: &MacroTable,
    origin: &Origin,
    hash: &Place,
    line: &[PpTok],
    cond: Cond,
) -> Result<Found<Truths>, Memory>
    requires cond { IsNode store.old cond }
    requires table { IsTableOf store.old table.now }
    requires one_body { HasOneBody store.old table.now }
    ensures keeps { Keeps store.old store.new }
    ensures found { IfOk result (IfFound
        (λ came. (at : Entered) → IsOriginOf origin.now at → IsLineRead store.new cond
        (λ values. expression_truth at (meaning_in store.old table.now values) hash.now line.now)
        came)
        (λ place conds. (at : Entered) → IsOriginOf origin.now at → HasTooMany store.new cond
        (λ values. expression_truth at (meaning_in store.old table.now values) hash.now line.now)
        place conds)) }
{
    let Some(first) = line.first() else {
        let came = refused_line(alloc, store, hash, Why::BadCondition, cond)?;
        return Ok(Found::Came(came));
    };
    let place = origin.place_of(first, alloc)?;
    let controlling = Controlling {
        alloc,
        table,
        line,
        hash,
        place: &place,
    };
    controlling.read(store, cond)
}

/// Whether the controlling expression of an `#if` or `#elif` line, whose `#` has this place and
/// whose other tokens are these, is true, in each configuration of a condition
/// (ISO/IEC 9899:1999, 6.10.1).
pub fn line_truth(
    alloc: Global,
    store: &mut Store,
    table: &MacroTable,
    origin: &Origin,
    hash: &Place,
    line: &[PpTok],
    cond: Cond,
) -> Result<Came<Truths>, TextFault>
    requires cond { IsNode store.old cond }
    requires table { IsTableOf store.old table.now }
    requires one_body { HasOneBody store.old table.now }
    ensures keeps { Keeps store.old store.new }
    ensures met { IfOk result (λ came. (at : Entered) → IsOriginOf origin.now at
        → AreMet store.new cond came.given
        (λ values. expression_truth at (meaning_in store.old table.now values)
        hash.now line.now)) }
    ensures faces { IfOk result (λ came. (at : Entered) → IsOriginOf origin.now at
        → AreByFace store.new cond came.given
        (λ values. expression_truth at (meaning_in store.old table.now values)
        hash.now line.now)) }
    ensures few { IfOk result (λ came. AreFew came.given) }
    ensures ends { IfOk result (λ came. (at : Entered) → IsOriginOf origin.now at
        → Ends store.new cond came.good came.failing (HasTruth store.new came.value)
        (λ values. expression_truth at (meaning_in store.old table.now values)
        hash.now line.now)) }
    ensures within { IfOk result (λ came. AreWithin store.new came.good came.value) }
    ensures too_many { IfErr result (IfTooMany (λ place conds. (at : Entered)
        → IsOriginOf origin.now at → HasTooMany store.new cond
        (λ values. expression_truth at (meaning_in store.old table.now values)
        hash.now line.now) place conds)) }
{
    match read_line(alloc, store, table, origin, hash, line, cond) {
        Ok(Found::Came(came)) => Ok(came),
        Ok(Found::TooMany(TooMany { place, conds })) => Err(TextFault::TooMany { place, conds }),
        Err(_) => Err(TextFault::Memory),
    }
}
