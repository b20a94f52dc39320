//! The configurations that are refused so far.
ghost use Rattle.std.specs.Prelude.{◌≡◌, ◌↔◌, ◌&&◌, ◌||◌, ◌+◌, [], Bool, List, ℕ, IfOk, OnErr, OnOk, IfSome, nat_eq};
ghost use Rattle.std.specs.Cmp.Lexicographic.{pointwise};
ghost use Rattle.std.specs.Map.{lookup};
ghost use Rattle.hv_cond.specs.Diagram.{IsNode, Keeps, holds};
ghost use Rattle.hv_given.specs.Refusals.{AreRefusals, CountsMore, RefusesMore};
ghost use Rattle.hv_given.specs.working.Keys.{found_holds, key_of};

use hv_base::{List, Memory, Place, Why};
use hv_cond::{Cond, Store};
use hv_toks::Failing;
use indexmap::IndexMap;
use std::alloc::Global;
use std::marker::Model;

/// The configurations that are refused so far, one entry for each place and cause, in the order of
/// the first refusals. An entry is found by numbers, and not by going through the others. Contracts
/// see the list of the entries; their conditions are nodes of one store.
#[derive(Drop)]
pub struct Refusals {
    alloc: Global,
    entries: IndexMap<Vec<u64>, Failing>,
}

impl Model for Refusals {
    ghost use Rattle.std.specs.Prelude.{List, map};
    ghost use Rattle.hv_given.specs.working.Keys.{AreKeyed};
    ghost use Rattle.hv_toks.specs.declared.parted.Failing.{Failing};

    ghost Value = { List Failing };

    ghost view = { λ r. map (λ e. e.1) r.entries.entries };

    ghost invariant = { λ r. AreKeyed (λ k. k.items) r.entries.entries };
}

/// The numbers that stand for a place and a cause.
fn key(alloc: Global, place: &Place, why: Why) -> Result<Vec<u64>, Memory>
    ensures { IfOk result (λ key. key.items ≡ key_of place.now why) }
{
    let mut key = Vec::new(alloc);
    key.push(u64::from(why.number()))?;
    key.push(u64::from(place.file))?;
    key.push(place.offset)?;
    key.extend_from_slice(place.stack.as_slice())?;
    Ok(key)
}

/// A condition, together with that of the entry of these numbers where there is one.
fn joined(
    entries: &IndexMap<Vec<u64>, Failing>,
    store: &mut Store,
    key: &[u64],
    cond: Cond,
) -> Result<Cond, Memory>
    requires cond { IsNode store.old cond }
    requires found { IfSome (lookup (λ k. pointwise nat_eq key.now k.items) entries.now.entries)
        (λ f. IsNode store.old f.cond) }
    ensures keeps { Keeps store.old store.new }
    ensures node { IfOk result (λ c. IsNode store.new c) }
    ensures meaning { IfOk result (λ c. (values : List Bool) → holds store.new c values
        ≡ (found_holds store.old
        (lookup (λ k. pointwise nat_eq key.now k.items) entries.now.entries) values
        || holds store.old cond values)) }
{
    match entries.get(key) {
        Some(entry) => Ok(store.or(entry.cond, cond)?),
        None => Ok(cond),
    }
}

impl Refusals {
    /// No configuration is refused. Entries take their memory from `alloc`.
    pub fn new(alloc: Global) -> Refusals
        ensures { result ≡ [] }
    {
        Refusals {
            alloc,
            entries: IndexMap::new(alloc),
        }
    }

    /// Refuses the configurations of a condition for a cause at a place, beside those that are
    /// refused already. A condition that never holds adds nothing; when out of memory nothing
    /// changes.
    pub fn add(
        &mut self,
        store: &mut Store,
        place: &Place,
        why: Why,
        cond: Cond,
    ) -> Result<(), Memory>
        requires cond { IsNode store.old cond }
        requires entries { AreRefusals store.old self.old }
        ensures keeps { Keeps store.old store.new }
        ensures entries { AreRefusals store.new self.new }
        ensures refused { OnOk result
            (RefusesMore store.old store.new self.old self.new place.now why cond) }
        ensures counted { OnOk result (CountsMore store.old store.new self.old self.new cond) }
        ensures unchanged { OnErr result (self.new ≡ self.old) }
    {
        if store.is_false(cond) {
            return Ok(());
        }
        let key = key(self.alloc, place, why)?;
        let cond = joined(&self.entries, store, key.as_slice(), cond)?;
        let place = place.copy(self.alloc)?;
        self.entries.insert(key, Failing { cond, place, why })?;
        Ok(())
    }

    /// The entries, in the order of the first refusals.
    pub fn into_failing(self) -> Result<List<Failing>, Memory>
        ensures { IfOk result (λ failing. failing ≡ self) }
    {
        let alloc = self.alloc;
        let failing = self.entries.into_values().collect(alloc)?;
        Ok(List::from_vec(failing))
    }
}
