//! A translation unit so far, under all configurations.
ghost use Rattle.std.specs.Prelude.{◌≡◌, ◌++◌, ◌&&◌, [], not, ℕ, Bool, List, IfOk, OnOk};
ghost use Rattle.hv_cond.specs.Diagram.{AllNodes, IsNode, Keeps, holds};
ghost use Rattle.hv_given.specs.Refusals.{AreRefusals};
ghost use Rattle.hv_plainpp.specs.Reading.{refusal};
ghost use Rattle.hv_preproc.specs.working.Taking.{RefusesAll, TakesIn, any_holds};
ghost use Rattle.hv_preproc.specs.working.Walk.{IsSound, IsUnit, Reads};
ghost use Rattle.hv_toks.specs.Division.{conditions};

use hv_base::{List, Memory, Place, Why};
use hv_cond::{Cond, Store};
use hv_given::{Given, Refusals};
use hv_macros::MacroTable;
use hv_toks::Failing;
use std::alloc::Global;

/// A translation unit so far: the macros, what its episodes gave, the configurations that are not
/// refused, and the refusals of the others.
#[derive(Drop)]
pub(crate) struct Unit {
    pub(crate) table: MacroTable,
    pub(crate) given: List<Given>,
    /// The configurations that are not refused.
    pub(crate) live: Cond,
    pub(crate) refusals: Refusals,
}

/// The configurations of some entry.
fn any(store: &mut Store, failing: &[Failing]) -> Result<Cond, Memory>
    requires { AllNodes store.old (conditions failing.now) }
    ensures keeps { Keeps store.old store.new }
    ensures node { IfOk result (λ c. IsNode store.new c) }
    ensures meaning { IfOk result (λ c. (values : List Bool) → holds store.new c values
        ≡ any_holds store.old failing.now values) }
{
    let mut cond = store.falsity();
    for entry in failing {
        cond = store.or(cond, entry.cond)?;
    }
    Ok(cond)
}

/// Adds entries behind others.
fn add_all(given: &mut List<Given>, more: List<Given>) -> Result<(), Memory>
    ensures { OnOk result (given.new ≡ given.old ++ more) }
{
    for entry in more.into_vec() {
        given.add(entry)?;
    }
    Ok(())
}

/// Refuses the configurations of each entry.
fn refuse_all(refusals: &mut Refusals, store: &mut Store, failing: &[Failing]) -> Result<(), Memory>
    requires failing { AllNodes store.old (conditions failing.now) }
    requires entries { AreRefusals store.old refusals.old }
    ensures keeps { Keeps store.old store.new }
    ensures entries { OnOk result (AreRefusals store.new refusals.new) }
    ensures refused { OnOk result
        (RefusesAll store.old store.new refusals.old refusals.new failing.now) }
{
    for entry in failing {
        refusals.add(store, &entry.place, entry.why, entry.cond)?;
    }
    Ok(())
}

impl Unit {
    /// Nothing is read so far in the configurations of `valid`, which begin with the macros of a
    /// table.
    pub(crate) fn new(alloc: Global, table: MacroTable, valid: Cond) -> Unit
        ensures table { result.table ≡ table }
        ensures given { result.given ≡ [] }
        ensures live { result.live ≡ valid }
        ensures refusals { result.refusals ≡ [] }
    {
        Unit {
            table,
            given: List::new(alloc),
            live: valid,
            refusals: Refusals::new(alloc),
        }
    }

    /// The live configurations of a condition.
    pub(crate) fn live_in(&self, store: &mut Store, cond: Cond) -> Result<Cond, Memory>
        requires cond { IsNode store.old cond }
        requires live { IsNode store.old self.now.live }
        ensures keeps { Keeps store.old store.new }
        ensures node { IfOk result (λ c. IsNode store.new c) }
        ensures meaning { IfOk result (λ c. (values : List Bool) → holds store.new c values
            ≡ (holds store.old cond values && holds store.old self.now.live values)) }
    {
        let live = store.and(cond, self.live)?;
        Ok(live)
    }

    /// Refuses the live configurations of a condition for a cause at a place.
    pub(crate) fn refuse(
        &mut self,
        store: &mut Store,
        place: &Place,
        why: Why,
        cond: Cond,
    ) -> Result<(), Memory>
        requires cond { IsNode store.old cond }
        requires unit { IsUnit store.old self.old }
        ensures keeps { Keeps store.old store.new }
        ensures unit { OnOk result (IsUnit store.new self.new) }
        ensures lives { OnOk result ((values : List Bool) → holds store.new self.new.live values
            ≡ (holds store.old self.old.live values && not (holds store.old cond values))) }
        ensures read { OnOk result ((here : List ℕ) → IsSound store.old self.old here
            → Reads store.old store.new self.old self.new here here cond
            (λ values macros. refusal why place.now)) }
    {
        let refused = self.live_in(store, cond)?;
        let live = store.without(self.live, refused)?;
        self.refusals.add(store, place, why, refused)?;
        self.live = live;
        Ok(())
    }

    /// Takes in what came of a part that was read in live configurations: its episodes, and the
    /// refusals of those that the part refuses.
    pub(crate) fn take_in(
        &mut self,
        store: &mut Store,
        given: List<Given>,
        failing: &[Failing],
    ) -> Result<(), Memory>
        requires failing { AllNodes store.old (conditions failing.now) }
        requires unit { IsUnit store.old self.old }
        ensures keeps { Keeps store.old store.new }
        ensures unit { OnOk result (IsUnit store.new self.new) }
        ensures taken { OnOk result
            (TakesIn store.old store.new self.old self.new given failing.now) }
    {
        add_all(&mut self.given, given)?;
        let refused = any(store, failing)?;
        self.live = store.without(self.live, refused)?;
        refuse_all(&mut self.refusals, store, failing)?;
        Ok(())
    }
}
