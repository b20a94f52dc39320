//! Conditions whose diagrams are as long as there are variables, and at most two branches wide.
ghost use Rattle.std.specs.Prelude.{◌*◌, ◌<◌, ◌≤◌, IfOk};
ghost use Rattle.hv_cond.specs.Diagram.{IsNode, Keeps};

use hv_cond::{Cond, Store};
use std::alloc::{AllocError, Global};

/// In each of `n` pairs of neighbouring variables one is true.
pub fn pairs(alloc: Global, store: &mut Store, n: u32) -> Result<Cond, AllocError>
    requires room { 2 * n ≤ store.old.variables }
    requires small { n ≤ 1000 }
    ensures keeps { Keeps store.old store.new }
    ensures node { IfOk result (IsNode store.new) }
{
    let mut parts = Vec::new(alloc);
    for pair in 0..n {
        let one_true = either(store, 2 * pair, 2 * pair + 1)?;
        parts.push(one_true)?;
    }
    store.all(alloc, parts.as_slice())
}

/// One of two variables is true.
fn either(store: &mut Store, i: u32, j: u32) -> Result<Cond, AllocError>
    requires first { i < store.old.variables }
    requires second { j < store.old.variables }
    ensures keeps { Keeps store.old store.new }
    ensures node { IfOk result (IsNode store.new) }
{
    let one = store.var(i)?;
    let other = store.var(j)?;
    store.or(one, other)
}

/// Each of `n` variables implies the next.
pub fn chain(alloc: Global, store: &mut Store, n: u32) -> Result<Cond, AllocError>
    requires room { n < store.old.variables }
    ensures keeps { Keeps store.old store.new }
    ensures node { IfOk result (IsNode store.new) }
{
    let mut links = Vec::new(alloc);
    for i in 0..n {
        let link = implication(store, i, i + 1)?;
        links.push(link)?;
    }
    store.all(alloc, links.as_slice())
}

/// The same, joined link by link from the first on: each step goes through the whole diagram so
/// far, and makes it anew.
pub fn chain_by_and(store: &mut Store, n: u32) -> Result<Cond, AllocError>
    requires room { n < store.old.variables }
    ensures keeps { Keeps store.old store.new }
    ensures node { IfOk result (IsNode store.new) }
{
    let mut all = store.truth();
    for i in 0..n {
        let link = implication(store, i, i + 1)?;
        all = store.and(all, link)?;
    }
    Ok(all)
}

/// A variable implies another.
fn implication(store: &mut Store, i: u32, j: u32) -> Result<Cond, AllocError>
    requires first { i < store.old.variables }
    requires second { j < store.old.variables }
    ensures keeps { Keeps store.old store.new }
    ensures node { IfOk result (IsNode store.new) }
{
    let one = store.var(i)?;
    let other = store.var(j)?;
    let opposite = store.not(one)?;
    store.or(opposite, other)
}
