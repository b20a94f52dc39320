//! Conditions whose every path goes through all variables, so that calls go as deep as they can.
ghost use Rattle.std.specs.Prelude.{◌≤◌, IfOk};
ghost use Rattle.hv_cond.specs.Diagram.{IsNode, Keeps};

use hv_cond::{Cond, Store};
use std::alloc::AllocError;

/// Not all of `n` variables are true: their conjunction, made from the last variable on, its first
/// assignment, its complement, and the disjunction of both, each of which goes down all variables.
pub fn deep(store: &mut Store, n: u32) -> Result<Cond, AllocError>
    requires room { n ≤ store.old.variables }
    ensures keeps { Keeps store.old store.new }
    ensures node { IfOk result (IsNode store.new) }
{
    let all = conjunction(store, n)?;
    let _first = store.pick(all)?;
    let opposite = store.not(all)?;
    let _either = store.or(all, opposite)?;
    Ok(opposite)
}

/// All of `n` variables are true.
fn conjunction(store: &mut Store, n: u32) -> Result<Cond, AllocError>
    requires room { n ≤ store.old.variables }
    ensures keeps { Keeps store.old store.new }
    ensures node { IfOk result (IsNode store.new) }
{
    let mut all = store.truth();
    for i in 0..n {
        let last = store.var(n - 1 - i)?;
        all = store.and(last, all)?;
    }
    Ok(all)
}
