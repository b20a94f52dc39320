//! One run after another, until no configuration is left.
ghost use Rattle.std.specs.Prelude.{◌≡◌, ◌<◌, ◌≤◌, ◌&&◌, not, length, Bool, List, false, IsTrue, IfErr, IfOk};
ghost use Rattle.hv_base.specs.declared.limits.TheConstants.{MOST_FACES};
ghost use Rattle.hv_cond.specs.Diagram.{Diagram, IsNever, IsNode, Keeps, holds};
ghost use Rattle.hv_faces.specs.Faces.{AreClasses, AreTooMany, IfTooMany, conditions};
ghost use Rattle.hv_faces.specs.working.Gathered.{IsGathering};

use crate::class::{Class, ClassesFault};
use crate::runs::Runs;
use hv_base::{List, MOST_FACES, Memory};
use hv_cond::{Cond, Store};
use std::alloc::Global;

/// The classes of all configurations, or the conditions of too many.
#[derive(Drop)]
pub(crate) enum Gathered<V> {
    Classes(List<Class<V>>),
    TooMany(List<Cond>),
}

/// Whether an assignment satisfies a condition.
pub(crate) fn can_hold(store: &Store, cond: Cond) -> bool
    requires { IsNode store.now cond }
    ensures somewhere { IsTrue result → IsNever store.now cond → ⊥ }
    ensures nowhere { result ≡ false → (values : List Bool) → holds store.now cond values ≡ false }
{
    !store.same(cond, store.falsity())
}

/// Whether there are more classes than are allowed.
fn are_too_many(count: usize) -> bool
    ensures many { IsTrue result → MOST_FACES < count }
    ensures few { result ≡ false → count ≤ MOST_FACES }
{
    count > MOST_FACES
}

/// The conditions of classes.
fn conds<V>(alloc: Global, classes: &[Class<V>]) -> Result<List<Cond>, Memory>
    ensures { IfOk result (λ conds. conds ≡ conditions classes.now) }
{
    let mut conds = List::new(alloc);
    for class in classes {
        conds.add(class.cond)?;
    }
    Ok(conds)
}

/// One run for each face of a condition's configurations, until none is left or there are too many.
fn collect<R: Runs>(
    alloc: Global,
    runs: &R,
    store: &mut Store,
    cond: Cond,
) -> Result<Gathered<R::Value>, Memory>
    requires good { R.is_good store.old runs.now }
    requires node { IsNode store.old cond }
    ensures keeps { Keeps store.old store.new }
    ensures gathered { IfOk result (IsGathering store.new cond (R.same_face store.old runs.now)
        (R.is_right store.old runs.now)) }
{
    let mut rest = cond;
    let mut classes = List::new(alloc);
    'gather: while can_hold(store, rest) {
        let found = runs.run(store, rest)?;
        rest = store.without(rest, found.cond)?;
        classes.add(found)?;
        if are_too_many(classes.len()) {
            let conds = conds(alloc, classes.as_slice())?;
            return Ok(Gathered::TooMany(conds));
        }
    }
    Ok(Gathered::Classes(classes))
}

/// The configurations of a condition, one class for each face, by one run for each.
pub fn find_classes<R: Runs>(
    alloc: Global,
    runs: &R,
    store: &mut Store,
    cond: Cond,
) -> Result<List<Class<R::Value>>, ClassesFault>
    requires good { R.is_good store.old runs.now }
    requires node { IsNode store.old cond }
    ensures keeps { Keeps store.old store.new }
    ensures classes { IfOk result (AreClasses store.new cond (R.same_face store.old runs.now)
        (R.is_right store.old runs.now)) }
    ensures few { IfOk result (λ classes. length classes ≤ MOST_FACES) }
    ensures too_many { IfErr result (IfTooMany
        (AreTooMany store.new cond (R.same_face store.old runs.now))) }
{
    match collect(alloc, runs, store, cond) {
        Ok(Gathered::Classes(classes)) => Ok(classes),
        Ok(Gathered::TooMany(conds)) => Err(ClassesFault::TooMany { conds }),
        Err(_) => Err(ClassesFault::Memory),
    }
}
