//! The size of a condition.
ghost use Rattle.std.specs.Prelude.{All, OnOk};
ghost use Rattle.hv_cond.specs.Diagram.{IsNode};

use hv_cond::{Cond, Node, Store};
use std::alloc::{AllocError, Global};
use std::collections::HashSet;

/// How many branches are reached from a condition: itself, if it is one, and those reached from
/// its children. An explicit stack serves any depth.
pub fn count_branches(alloc: Global, store: &Store, c: Cond) -> Result<usize, AllocError>
    requires { IsNode store.now c }
{
    let mut visited: HashSet<Cond> = HashSet::new(alloc);
    let mut waiting: Vec<Cond> = Vec::new(alloc);
    waiting.push(c)?;
    // A store has fewer than 2^32 branches, and each puts its two children onto the stack once.
    for _ in 0..u64::MAX {
        let Some(next) = waiting.pop() else {
            break;
        };
        visit(store, &mut visited, &mut waiting, next)?;
    }
    Ok(visited.len())
}

/// Visits a condition: the children of a branch that was not visited before wait.
fn visit(
    store: &Store,
    visited: &mut HashSet<Cond>,
    waiting: &mut Vec<Cond>,
    c: Cond,
) -> Result<(), AllocError>
    requires node { IsNode store.now c }
    requires nodes { All (IsNode store.now) waiting.old.items }
    ensures nodes { OnOk result (All (IsNode store.now) waiting.new.items) }
{
    let Node::Branch { low, high, .. } = store.node(c) else {
        return Ok(());
    };
    if !visited.insert(c)? {
        return Ok(());
    }
    waiting.push(low)?;
    waiting.push(high)?;
    Ok(())
}
