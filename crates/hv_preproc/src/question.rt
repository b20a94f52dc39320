//! What the first line of a group asks (ISO/IEC 9899:1999, 6.10.1).
ghost use Rattle.std.specs.Prelude.{◌≡◌, ℕ, IfErr, IfOk, OnOk};
ghost use Rattle.hv_cond.specs.Diagram.{AllNodes, IsNode, Keeps};
ghost use Rattle.hv_directives.specs.Values.{question_of};
ghost use Rattle.hv_macros.specs.Table.{meaning_in};
ghost use Rattle.hv_plainpp.specs.Files.{Entered};
ghost use Rattle.hv_plainpp.specs.Groups.{answer, expression_truth, name_truth};
ghost use Rattle.hv_plainpp.specs.Directives.{elif, is_no_macro};
ghost use Rattle.hv_preproc.specs.working.Faults.{IfStops};
ghost use Rattle.hv_preproc.specs.working.Keys.{Rises, reached};
ghost use Rattle.hv_preproc.specs.working.Parts.{AreTruths, keeping, tokens_asked};
ghost use Rattle.hv_preproc.specs.working.Taking.{TakesIn};
ghost use Rattle.hv_preproc.specs.working.Walk.{IsSound, IsUnit, Reads, Stops};
ghost use Rattle.hv_texts.specs.Readings.{IsOriginOf};
ghost use Rattle.hv_toks.specs.Division.{conditions};
ghost use Rattle.hv_toks.specs.MacroState.{meaning_of};

use crate::fault::WalkFault;
use crate::open_file::OpenFile;
use crate::unit::Unit;
use hv_base::{Memory, Place};
use hv_cond::{Cond, Store};
use hv_directives::Question;
use hv_texts::{Came, Truths, line_truth, name_truth};
use hv_toks::PpTok;

/// The two conditions with their places changed.
fn opposite(truths: Truths) -> Truths
    ensures { result ≡ record { holds = truths.fails; fails = truths.holds } }
{
    Truths {
        holds: truths.fails,
        fails: truths.holds,
    }
}

/// Takes in what came of a controlling line.
fn take_in(store: &mut Store, unit: &mut Unit, came: Came<Truths>) -> Result<Truths, Memory>
    requires failing { AllNodes store.old (conditions came.failing) }
    requires unit { IsUnit store.old unit.old }
    ensures keeps { Keeps store.old store.new }
    ensures unit { OnOk result (IsUnit store.new unit.new) }
    ensures taken { OnOk result
        (TakesIn store.old store.new unit.old unit.new came.given came.failing) }
    ensures value { IfOk result (λ truths. truths ≡ came.value) }
{
    let Came {
        given,
        good: _,
        value,
        failing,
    } = came;
    unit.take_in(store, given, failing.as_slice())?;
    Ok(value)
}

impl OpenFile<'_> {
    /// Where the expression of an `#if` or `#elif` is true among the live configurations of a
    /// condition, and where it isn't. Where it is refused neither holds. It isn't evaluated where
    /// the condition never holds.
    pub(crate) fn expression(
        &self,
        store: &mut Store,
        unit: &mut Unit,
        hash: &Place,
        line: &[PpTok],
        cond: Cond,
    ) -> Result<Truths, WalkFault>
        requires cond { IsNode store.old cond }
        requires unit { IsUnit store.old unit.old }
        ensures keeps { Keeps store.old store.new }
        ensures unit { IfOk result (λ truths. IsUnit store.new unit.new) }
        ensures read { IfOk result (λ truths. (at : Entered) (low high : ℕ)
            → IsOriginOf self.now.origin at → Rises low high line.now
            → IsSound store.old unit.old (reached at low)
            → Reads store.old store.new unit.old unit.new (reached at low) (reached at high) cond
            (λ values macros. keeping (expression_truth at (meaning_of macros) hash.now line.now)
            macros)) }
        ensures truths { IfOk result (λ truths. (at : Entered) → IsOriginOf self.now.origin at
            → AreTruths store.old store.new unit.new.live cond truths
            (λ values. expression_truth at (meaning_in store.old unit.old.table values) hash.now
            line.now)) }
        ensures stops { IfErr result (IfStops (λ place conds. (at : Entered) (low high : ℕ)
            → IsOriginOf self.now.origin at → Rises low high line.now
            → Stops store.old store.new unit.old (reached at low) cond
            (λ values macros. keeping (expression_truth at (meaning_of macros) hash.now line.now)
            macros) place conds)) }
    {
        let cond = unit.live_in(store, cond)?;
        if store.is_false(cond) {
            return Ok(Truths {
                holds: cond,
                fails: cond,
            });
        }
        let came = line_truth(
            self.alloc,
            store,
            &unit.table,
            &self.origin,
            hash,
            line,
            cond,
        )?;
        Ok(take_in(store, unit, came)?)
    }

    /// Where a name is a macro among the live configurations of a condition, and where it isn't.
    /// Where no name stands there neither holds.
    fn name(
        &self,
        store: &mut Store,
        unit: &mut Unit,
        hash: &Place,
        line: &[PpTok],
        cond: Cond,
    ) -> Result<Truths, Memory>
        requires cond { IsNode store.old cond }
        requires unit { IsUnit store.old unit.old }
        ensures keeps { Keeps store.old store.new }
        ensures unit { IfOk result (λ truths. IsUnit store.new unit.new) }
        ensures read { IfOk result (λ truths. (at : Entered) (low high : ℕ)
            → IsOriginOf self.now.origin at → Rises low high line.now
            → IsSound store.old unit.old (reached at low)
            → Reads store.old store.new unit.old unit.new (reached at low) (reached at high) cond
            (λ values macros. keeping (name_truth (meaning_of macros) hash.now line.now) macros)) }
        ensures truths { IfOk result (λ truths. (at : Entered) → IsOriginOf self.now.origin at
            → AreTruths store.old store.new unit.new.live cond truths
            (λ values. name_truth (meaning_in store.old unit.old.table values) hash.now line.now)) }
    {
        let cond = unit.live_in(store, cond)?;
        if store.is_false(cond) {
            return Ok(Truths {
                holds: cond,
                fails: cond,
            });
        }
        let came = name_truth(self.alloc, store, &unit.table, hash, line, cond)?;
        take_in(store, unit, came)
    }

    /// Where a name is no macro among the live configurations of a condition, and where it is one.
    /// Where no name stands there neither holds.
    fn no_name(
        &self,
        store: &mut Store,
        unit: &mut Unit,
        hash: &Place,
        line: &[PpTok],
        cond: Cond,
    ) -> Result<Truths, Memory>
        requires cond { IsNode store.old cond }
        requires unit { IsUnit store.old unit.old }
        ensures keeps { Keeps store.old store.new }
        ensures unit { IfOk result (λ truths. IsUnit store.new unit.new) }
        ensures read { IfOk result (λ truths. (at : Entered) (low high : ℕ)
            → IsOriginOf self.now.origin at → Rises low high line.now
            → IsSound store.old unit.old (reached at low)
            → Reads store.old store.new unit.old unit.new (reached at low) (reached at high) cond
            (λ values macros. keeping (answer at (meaning_of macros) hash.now
            (is_no_macro line.now)) macros)) }
        ensures truths { IfOk result (λ truths. (at : Entered) → IsOriginOf self.now.origin at
            → AreTruths store.old store.new unit.new.live cond truths
            (λ values. answer at (meaning_in store.old unit.old.table values) hash.now
            (is_no_macro line.now))) }
    {
        Ok(opposite(self.name(store, unit, hash, line, cond)?))
    }

    /// Where the answer to what the first line of a group asks is yes, and where it is no.
    pub(crate) fn answer(
        &self,
        store: &mut Store,
        unit: &mut Unit,
        hash: &Place,
        question: Question<'_>,
        cond: Cond,
    ) -> Result<Truths, WalkFault>
        requires cond { IsNode store.old cond }
        requires unit { IsUnit store.old unit.old }
        ensures keeps { Keeps store.old store.new }
        ensures unit { IfOk result (λ truths. IsUnit store.new unit.new) }
        ensures read { IfOk result (λ truths. (at : Entered) (low high : ℕ)
            → IsOriginOf self.now.origin at
            → Rises low high (tokens_asked (question_of question.entry))
            → IsSound store.old unit.old (reached at low)
            → Reads store.old store.new unit.old unit.new (reached at low) (reached at high) cond
            (λ values macros. keeping (answer at (meaning_of macros) hash.now
            (question_of question.entry)) macros)) }
        ensures truths { IfOk result (λ truths. (at : Entered) → IsOriginOf self.now.origin at
            → AreTruths store.old store.new unit.new.live cond truths
            (λ values. answer at (meaning_in store.old unit.old.table values) hash.now
            (question_of question.entry))) }
        ensures stops { IfErr result (IfStops (λ place conds. (at : Entered) (low high : ℕ)
            → IsOriginOf self.now.origin at
            → Rises low high (tokens_asked (question_of question.entry))
            → Stops store.old store.new unit.old (reached at low) cond
            (λ values macros. keeping (answer at (meaning_of macros) hash.now
            (question_of question.entry)) macros) place conds)) }
    {
        match question {
            Question::Expression(line) => self.expression(store, unit, hash, line, cond),
            Question::IsMacro(line) => Ok(self.name(store, unit, hash, line, cond)?),
            Question::IsNoMacro(line) => Ok(self.no_name(store, unit, hash, line, cond)?),
        }
    }
}
