//! A file that is being read.
ghost use Rattle.std.specs.Prelude.{◌≡◌, ◌++◌, ◌∷◌, ◌&&◌, [], not, ℕ, Bool, List, IfOk, OnOk};
ghost use Rattle.hv_cond.specs.Diagram.{IsNode, Keeps, holds};
ghost use Rattle.hv_plainpp.specs.Files.{Entered, place_of};
ghost use Rattle.hv_plainpp.specs.Groups.{is_processed};
ghost use Rattle.hv_plainpp.specs.Preprocessing.{at_end};
ghost use Rattle.hv_plainpp.specs.Reading.{refusal};
ghost use Rattle.hv_preproc.specs.working.OpenGroups.{AreGroups, groups_in};
ghost use Rattle.hv_preproc.specs.working.Walk.{IsSound, IsUnit, Reads};
ghost use Rattle.hv_texts.specs.Readings.{IsOriginOf};

use crate::groups::Groups;
use crate::page::Page;
use crate::unit::Unit;
use hv_base::{List, Memory, Place, Why};
use hv_cond::{Cond, Store};
use hv_texts::Origin;
use hv_toks::PpTok;
use std::alloc::Global;

/// A file that is being read in the configurations of a condition: how it was reached, and which
/// groups are open.
#[derive(Drop)]
pub(crate) struct OpenFile<'a> {
    pub(crate) alloc: Global,
    pub(crate) name: &'a str,
    pub(crate) origin: Origin,
    pub(crate) groups: Groups,
}

impl<'a> OpenFile<'a> {
    /// A file of which nothing is read so far, and to which these `#include` directives led.
    pub(crate) fn new(alloc: Global, page: &Page<'a>, stack: List<u64>, cond: Cond) -> OpenFile<'a>
        ensures name { result.name.now ≡ page.now.name.now }
        ensures origin { result.origin ≡ record { file = page.now.number; stack = stack } }
        ensures cond { result.groups.cond ≡ cond }
        ensures none { result.groups.groups ≡ [] }
    {
        OpenFile {
            alloc,
            name: page.name,
            origin: Origin {
                file: page.number,
                stack,
            },
            groups: Groups::new(alloc, cond),
        }
    }

    /// The live configurations in which lines are processed.
    pub(crate) fn processed(&self, store: &mut Store, unit: &Unit) -> Result<Cond, Memory>
        requires live { IsNode store.old unit.now.live }
        requires groups { AreGroups store.old self.now.groups }
        ensures keeps { Keeps store.old store.new }
        ensures node { IfOk result (λ c. IsNode store.new c) }
        ensures meaning { IfOk result (λ c. (values : List Bool) → holds store.new c values
            ≡ ((holds store.old self.now.groups.cond values
            && is_processed (groups_in store.old self.now.groups values))
            && holds store.old unit.now.live values)) }
    {
        unit.live_in(store, self.groups.processed())
    }

    /// The place of a token of the file.
    pub(crate) fn place_of(&self, token: &PpTok) -> Result<Place, Memory>
        ensures { IfOk result (λ place. (at : Entered) → IsOriginOf self.now.origin at
            → place ≡ place_of at token.now) }
    {
        self.origin.place_of(token, self.alloc)
    }

    /// The offsets of the `#` of the `#include` directives that lead to a file that is included by
    /// the directive with this `#`.
    pub(crate) fn stack_within(&self, hash: &PpTok) -> Result<List<u64>, Memory>
        ensures { IfOk result (λ stack.
            stack ≡ self.now.origin.stack ++ hash.now.span.start ∷ []) }
    {
        let mut stack = self.origin.stack.copy(self.alloc)?;
        stack.add(hash.span.start)?;
        Ok(stack)
    }

    /// Refuses all configurations of the file for a cause at a place.
    pub(crate) fn refuse(
        &self,
        store: &mut Store,
        unit: &mut Unit,
        place: &Place,
        why: Why,
    ) -> Result<(), Memory>
        requires cond { IsNode store.old self.now.groups.cond }
        requires unit { IsUnit store.old unit.old }
        ensures keeps { Keeps store.old store.new }
        ensures unit { OnOk result (IsUnit store.new unit.new) }
        ensures lives { OnOk result ((values : List Bool) → holds store.new unit.new.live values
            ≡ (holds store.old unit.old.live values
            && not (holds store.old self.now.groups.cond values))) }
        ensures read { OnOk result ((here : List ℕ) → IsSound store.old unit.old here
            → Reads store.old store.new unit.old unit.new here here self.now.groups.cond
            (λ values macros. refusal why place.now)) }
    {
        unit.refuse(store, place, why, self.groups.cond)
    }

    /// Ends the file: where a group is open it is refused.
    pub(crate) fn end(&self, store: &mut Store, unit: &mut Unit) -> Result<(), Memory>
        requires groups { AreGroups store.old self.now.groups }
        requires unit { IsUnit store.old unit.old }
        ensures keeps { Keeps store.old store.new }
        ensures unit { OnOk result (IsUnit store.new unit.new) }
        ensures read { OnOk result ((here : List ℕ) → IsSound store.old unit.old here
            → Reads store.old store.new unit.old unit.new here here self.now.groups.cond
            (λ values macros. at_end (groups_in store.old self.now.groups values) macros)) }
    {
        match self.groups.opened() {
            Some(opened) => self.refuse(store, unit, opened, Why::Unbalanced),
            None => Ok(()),
        }
    }
}
