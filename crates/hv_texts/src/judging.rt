//! How far the outcomes of a controlling line are judged.
ghost use Rattle.std.specs.Prelude.{◌≡◌, ◌||◌, ◌∷◌, ◌++◌, [], Bool, List, false, IfOk, OnOk};
ghost use Rattle.hv_cond.specs.Diagram.{IsNode, Keeps, holds};
ghost use Rattle.hv_cond.specs.declared.conditions.Cond.{Cond as Cond'};
ghost use Rattle.hv_given.specs.Refusals.{AreRefusals};
ghost use Rattle.hv_plainpp.specs.Expressions.{truth_of};
ghost use Rattle.hv_texts.specs.working.Sorting.{IsMoved};
ghost use Rattle.hv_texts.specs.working.Steps.{entry, way_of_truth, way_on_line};
ghost use Rattle.hv_toks.specs.Spelled.{all_spelled};

use crate::came::{Came, Truths};
use hv_base::{List, Memory, Place, Why};
use hv_cond::{Cond, Store};
use hv_expand::{Expanded, Outcome};
use hv_given::{Given, Refusals};
use hv_ifexpr::{IfFault, evaluate};
use hv_toks::PpTok;
use std::alloc::Global;

/// How far the outcomes of a controlling line are judged.
#[derive(Drop)]
pub(crate) struct Judging {
    alloc: Global,
    pub(crate) given: List<Given>,
    pub(crate) truths: Truths,
    pub(crate) refusals: Refusals,
}

/// Whether an expression is true; `None` where it has no value, or is none.
fn truth_of(alloc: Global, tokens: &[PpTok]) -> Result<Option<bool>, Memory>
    ensures { IfOk result (λ truth. truth ≡ truth_of (all_spelled tokens.now)) }
{
    match evaluate(alloc, tokens) {
        Ok(truth) => Ok(Some(truth)),
        Err(IfFault::Bad) => Ok(None),
        Err(IfFault::Memory) => Err(Memory),
    }
}

impl Judging {
    /// Nothing is judged so far.
    pub(crate) fn new(alloc: Global, store: &Store) -> Judging
        ensures given { result.given ≡ [] }
        ensures refusals { result.refusals ≡ [] }
        ensures truths { (never : Cond') × IsNode store.now never
            × ((values : List Bool) → holds store.now never values ≡ false)
            × (result.truths.holds ≡ never) × (result.truths.fails ≡ never) }
    {
        let never = store.falsity();
        Judging {
            alloc,
            given: List::new(alloc),
            truths: Truths {
                holds: never,
                fails: never,
            },
            refusals: Refusals::new(alloc),
        }
    }

    /// What came of a line, all outcomes of which are judged.
    pub(crate) fn finish(self, store: &mut Store) -> Result<Came<Truths>, Memory>
        requires holds { IsNode store.old self.truths.holds }
        requires fails { IsNode store.old self.truths.fails }
        ensures keeps { Keeps store.old store.new }
        ensures given { IfOk result (λ came. came.given ≡ self.given) }
        ensures node { IfOk result (λ came. IsNode store.new came.good) }
        ensures good { IfOk result (λ came. (values : List Bool) → holds store.new came.good values
            ≡ (holds store.old self.truths.holds values
            || holds store.old self.truths.fails values)) }
        ensures value { IfOk result (λ came. came.value ≡ self.truths) }
        ensures failing { IfOk result (λ came. came.failing ≡ self.refusals) }
    {
        let Judging {
            alloc: _,
            given,
            truths,
            refusals,
        } = self;
        Ok(Came {
            given,
            good: store.or(truths.holds, truths.fails)?,
            value: truths,
            failing: refusals.into_failing()?,
        })
    }

    /// Puts the configurations of a condition with those of this truth; without one they are
    /// refused at the line's `#`.
    fn tell(
        &mut self,
        store: &mut Store,
        hash: &Place,
        truth: Option<bool>,
        cond: Cond,
    ) -> Result<(), Memory>
        requires cond { IsNode store.old cond }
        requires holds { IsNode store.old self.old.truths.holds }
        requires fails { IsNode store.old self.old.truths.fails }
        requires refusals { AreRefusals store.old self.old.refusals }
        ensures keeps { Keeps store.old store.new }
        ensures moved { OnOk result (IsMoved store.old store.new
            (self.old.truths.holds ∷ self.old.truths.fails ∷ [])
            (self.new.truths.holds ∷ self.new.truths.fails ∷ [])
            self.old.refusals self.new.refusals cond (way_of_truth hash.now truth)) }
        ensures given { self.new.given ≡ self.old.given }
    {
        match truth {
            Some(true) => self.truths.holds = store.or(self.truths.holds, cond)?,
            Some(false) => self.truths.fails = store.or(self.truths.fails, cond)?,
            None => self.refusals.add(store, hash, Why::BadCondition, cond)?,
        }
        Ok(())
    }

    /// Judges the configurations of an outcome.
    pub(crate) fn judge(
        &mut self,
        store: &mut Store,
        hash: &Place,
        place: &Place,
        outcome: Outcome,
    ) -> Result<(), Memory>
        requires cond { IsNode store.old outcome.cond }
        requires holds { IsNode store.old self.old.truths.holds }
        requires fails { IsNode store.old self.old.truths.fails }
        requires refusals { AreRefusals store.old self.old.refusals }
        ensures keeps { Keeps store.old store.new }
        ensures given { OnOk result
            (self.new.given ≡ self.old.given ++ entry place.now outcome [] ∷ []) }
        ensures moved { OnOk result (IsMoved store.old store.new
            (self.old.truths.holds ∷ self.old.truths.fails ∷ [])
            (self.new.truths.holds ∷ self.new.truths.fails ∷ [])
            self.old.refusals self.new.refusals outcome.cond
            (way_on_line hash.now place.now outcome.result)) }
    {
        let Outcome {
            cond,
            face,
            result,
            end: _,
        } = outcome;
        self.given.add(Given {
            cond,
            place: place.copy(self.alloc)?,
            face,
            tokens: List::new(self.alloc),
        })?;
        match result {
            Expanded::Tokens(tokens) => {
                let truth = truth_of(self.alloc, tokens.as_slice())?;
                self.tell(store, hash, truth, cond)
            }
            Expanded::Fails(why) => self.refusals.add(store, place, why, cond),
        }
    }
}
