//! How far a text is expanded.
ghost use Rattle.std.specs.Prelude.{◌≡◌, ◌+◌, ◌-◌, ◌<◌, ◌^◌, ◌∷◌, ◌++◌, [], Bool, List, drop, length, replicate, slice_index_or, slice_set, false, IfOk, OnOk};
ghost use Rattle.hv_cond.specs.Diagram.{AllNodes, IsNode, Keeps, holds};
ghost use Rattle.hv_cond.specs.declared.conditions.Cond.{Cond as Cond'};
ghost use Rattle.hv_given.specs.Refusals.{AreRefusals};
ghost use Rattle.hv_texts.specs.working.Sorting.{IsInSlot, IsMoved};
ghost use Rattle.hv_texts.specs.working.Steps.{entry, tokens_in, way_on};

use crate::came::Came;
use hv_base::{List, Memory, Place};
use hv_cond::{Cond, Store};
use hv_expand::{Expanded, Outcome};
use hv_given::{Given, Refusals};
use hv_toks::PpTok;
use std::alloc::Global;

/// How far a text is expanded under all configurations.
#[derive(Drop)]
pub(crate) struct Walk {
    alloc: Global,
    pub(crate) given: List<Given>,
    /// For each position of the text, its end too, the configurations whose next episode begins
    /// there.
    pub(crate) reached: Vec<Cond>,
    pub(crate) refusals: Refusals,
}

/// Where an episode that begins at a position goes on: it has its first token at least.
fn next_position(at: usize, end: usize) -> usize
    requires { at + 1 < 2 ^ 64 }
    ensures { result ≡ at + 1 + (end - (at + 1)) }
{
    end.max(at + 1)
}

impl Walk {
    /// All configurations of a condition begin with the first of so many tokens.
    pub(crate) fn new(alloc: Global, store: &Store, len: usize, cond: Cond) -> Result<Walk, Memory>
        requires { len + 1 < 2 ^ 64 }
        ensures given { IfOk result (λ walk. walk.given ≡ []) }
        ensures refusals { IfOk result (λ walk. walk.refusals ≡ []) }
        ensures reached { IfOk result (λ walk. (never : Cond') × IsNode store.now never
            × ((values : List Bool) → holds store.now never values ≡ false)
            × (walk.reached.items ≡ slice_set (replicate (len + 1) never) 0 cond)) }
    {
        let mut reached = vec![in alloc; store.falsity(); len + 1]?;
        reached[0] = cond;
        Ok(Walk {
            alloc,
            given: List::new(alloc),
            reached,
            refusals: Refusals::new(alloc),
        })
    }

    /// Adds the entry of an outcome with the tokens that it gives.
    fn give(
        &mut self,
        place: &Place,
        cond: Cond,
        face: u32,
        tokens: List<PpTok>,
    ) -> Result<(), Memory>
        ensures given { OnOk result (self.new.given ≡ self.old.given
            ++ record { cond = cond; place = place.now; face = face; tokens = tokens } ∷ []) }
        ensures reached { self.new.reached ≡ self.old.reached }
        ensures refusals { self.new.refusals ≡ self.old.refusals }
    {
        self.given.add(Given {
            cond,
            place: place.copy(self.alloc)?,
            face,
            tokens,
        })
    }

    /// Lets the configurations of a condition go on at a position.
    fn go_on(&mut self, store: &mut Store, next: usize, cond: Cond) -> Result<(), Memory>
        requires within { next < length self.old.reached.items }
        requires cond { IsNode store.old cond }
        requires slot { IsNode store.old (slice_index_or self.old.reached.items next cond) }
        ensures keeps { Keeps store.old store.new }
        ensures slot { OnOk result (IsInSlot store.old store.new self.old.reached.items
            self.new.reached.items self.old.refusals self.new.refusals cond next) }
        ensures given { self.new.given ≡ self.old.given }
    {
        self.reached[next] = store.or(self.reached[next], cond)?;
        Ok(())
    }

    /// Sorts the configurations of an outcome of the episode at a position, which has this place.
    pub(crate) fn sort(
        &mut self,
        store: &mut Store,
        at: usize,
        place: &Place,
        outcome: Outcome,
    ) -> Result<(), Memory>
        requires within { at + 1 < length self.old.reached.items }
        requires end { outcome.end < length self.old.reached.items }
        requires cond { IsNode store.old outcome.cond }
        requires slots { AllNodes store.old (drop (at + 1) self.old.reached.items) }
        requires refusals { AreRefusals store.old self.old.refusals }
        ensures keeps { Keeps store.old store.new }
        ensures given { OnOk result (self.new.given ≡ self.old.given
            ++ entry place.now outcome (tokens_in outcome.result) ∷ []) }
        ensures moved { OnOk result (IsMoved store.old store.new
            (drop (at + 1) self.old.reached.items) (drop (at + 1) self.new.reached.items)
            self.old.refusals self.new.refusals outcome.cond
            (way_on at place.now outcome.end outcome.result)) }
        ensures long { OnOk result
            (length self.new.reached.items ≡ length self.old.reached.items) }
    {
        let Outcome {
            cond,
            face,
            result,
            end,
        } = outcome;
        match result {
            Expanded::Tokens(tokens) => {
                self.go_on(store, next_position(at, end), cond)?;
                self.give(place, cond, face, tokens)
            }
            Expanded::Fails(why) => {
                self.refusals.add(store, place, why, cond)?;
                self.give(place, cond, face, List::new(self.alloc))
            }
        }
    }

    /// What came of a text, all positions of which are passed.
    pub(crate) fn finish(self) -> Result<Came<()>, Memory>
        requires { 0 < length self.reached.items }
        ensures given { IfOk result (λ came. came.given ≡ self.given) }
        ensures good { IfOk result (λ came. (x : Cond') →
            came.good ≡ slice_index_or self.reached.items (length self.reached.items - 1) x) }
        ensures failing { IfOk result (λ came. came.failing ≡ self.refusals) }
    {
        let Walk {
            alloc: _,
            given,
            reached,
            refusals,
        } = self;
        Ok(Came {
            given,
            good: reached[reached.len() - 1],
            value: (),
            failing: refusals.into_failing()?,
        })
    }
}
