//! What one name means, under conditions.
ghost use Rattle.std.specs.Prelude.{◌≡◌, ◌&&◌, ◌||◌, ◌++◌, ◌∷◌, [], not, true, false, AllPairs, Bool, List, if◌then◌else◌, IfOk};
ghost use Rattle.hv_cond.specs.Diagram.{AllNodes, IsNode, Keeps, holds};
ghost use Rattle.hv_cond.specs.Parts.{NoneFalse};
ghost use Rattle.hv_macros.specs.Alternatives.{AreAlternatives, MeansOther, conditions, meaning_or, meanings};
ghost use Rattle.hv_macros.specs.working.Added.{IsAdded};
ghost use Rattle.hv_toks.specs.Macro.{macro_of, undefined};

use hv_base::{List, Memory};
use hv_cond::{Cond, Store};
use hv_toks::Meaning;
use std::alloc::{AllocError, Global};

/// A meaning of a name, and the configurations that give it this one.
#[derive(Debug, Drop)]
pub struct Alternative {
    pub cond: Cond,
    pub meaning: Meaning,
}

/// Adds a copy of a meaning under a condition, where that can hold.
fn add(
    alloc: Global,
    store: &Store,
    alternatives: &mut List<Alternative>,
    cond: Cond,
    meaning: &Meaning,
) -> Result<(), Memory>
    requires { IsNode store.now cond }
    ensures { IfOk result
        (λ _. IsAdded store.now alternatives.old alternatives.new cond (macro_of meaning.now)) }
{
    if store.is_false(cond) {
        return Ok(());
    }
    let meaning = meaning.copy(alloc)?;
    alternatives.add(Alternative { cond, meaning })
}

/// The parts of a condition inside and outside another.
fn parted(store: &mut Store, cond: Cond, other: Cond) -> Result<(Cond, Cond), AllocError>
    requires cond { IsNode store.old cond }
    requires other { IsNode store.old other }
    ensures keeps { Keeps store.old store.new }
    ensures nodes { IfOk result
        (λ parts. IsNode store.new parts.0 × IsNode store.new parts.1) }
    ensures inside { IfOk result (λ parts. (values : List Bool) → holds store.new parts.0 values
        ≡ (holds store.old cond values && holds store.old other values)) }
    ensures outside { IfOk result (λ parts. (values : List Bool) → holds store.new parts.1 values
        ≡ (holds store.old cond values && not (holds store.old other values))) }
{
    let complement = store.not(other)?;
    let inside = store.and(cond, other)?;
    let outside = store.and(cond, complement)?;
    Ok((inside, outside))
}

/// The condition of an alternative of a name once the name has a meaning under another condition:
/// together with that one where the meaning is the alternative's own, else what is outside.
fn changed(store: &mut Store, own: Cond, cond: Cond, is_same: bool) -> Result<Cond, AllocError>
    requires own { IsNode store.old own }
    requires cond { IsNode store.old cond }
    ensures keeps { Keeps store.old store.new }
    ensures node { IfOk result (λ c. IsNode store.new c) }
    ensures meaning { IfOk result (λ c. (values : List Bool) → holds store.new c values
        ≡ (if is_same then holds store.old own values || holds store.old cond values
        else holds store.old own values && not (holds store.old cond values))) }
{
    if is_same {
        return store.or(own, cond);
    }
    let complement = store.not(cond)?;
    store.and(own, complement)
}

/// The alternatives that a name has once it has this meaning under a condition, and elsewhere what
/// these alternatives gave it. What can hold nowhere any more is left out, and an alternative that
/// has this meaning already now has it under both conditions.
pub(crate) fn overridden(
    alloc: Global,
    store: &mut Store,
    alternatives: &[Alternative],
    cond: Cond,
    meaning: &Meaning,
) -> Result<List<Alternative>, Memory>
    requires cond { IsNode store.old cond }
    requires alternatives { AreAlternatives store.old alternatives.now }
    ensures keeps { Keeps store.old store.new }
    ensures alternatives { IfOk result (λ kept. AreAlternatives store.new kept) }
    ensures meaning { IfOk result
        (λ kept. (values : List Bool) → meaning_or store.new values kept undefined
        ≡ (if holds store.old cond values then macro_of meaning.now
        else meaning_or store.old values alternatives.now undefined)) }
{
    let mut kept = List::new(alloc);
    let mut is_joined = false;
    for alternative in alternatives {
        let is_same = alternative.meaning.same(meaning);
        let rest = changed(store, alternative.cond, cond, is_same)?;
        add(alloc, store, &mut kept, rest, &alternative.meaning)?;
        is_joined = is_joined || is_same;
    }
    if is_joined || meaning.same(&Meaning::Undefined) {
        return Ok(kept);
    }
    add(alloc, store, &mut kept, cond, meaning)?;
    Ok(kept)
}

/// What these alternatives give a name under a condition, and no macro elsewhere.
pub(crate) fn split(
    alloc: Global,
    store: &mut Store,
    alternatives: &[Alternative],
    cond: Cond,
) -> Result<List<Alternative>, Memory>
    requires cond { IsNode store.old cond }
    requires alternatives { AreAlternatives store.old alternatives.now }
    ensures keeps { Keeps store.old store.new }
    ensures nodes { IfOk result (λ parts. AllNodes store.new (conditions parts)) }
    ensures none_false { IfOk result (λ parts. NoneFalse store.new (conditions parts)) }
    ensures distinct { IfOk result (λ parts. AllPairs MeansOther parts) }
    ensures meanings { IfOk result (λ parts. (values : List Bool) → meanings store.new values parts
        ≡ (if holds store.old cond values
        then meaning_or store.old values alternatives.now undefined ∷ [] else [])) }
{
    let mut rest = cond;
    let mut parts = List::new(alloc);
    for alternative in alternatives {
        if store.is_false(rest) {
            return Ok(parts);
        }
        let (inside, outside) = parted(store, rest, alternative.cond)?;
        add(alloc, store, &mut parts, inside, &alternative.meaning)?;
        rest = outside;
    }
    add(alloc, store, &mut parts, rest, &Meaning::Undefined)?;
    Ok(parts)
}
