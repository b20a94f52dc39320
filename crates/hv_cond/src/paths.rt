//! Walks down the branches of a condition. In the table a variable is named by its position in the
//! order, and values go by the variables' numbers.
ghost use Rattle.std.specs.Prelude.{◌≡◌, ◌<◌, ◌↔◌, ℕ, Bool, List, true, false, length, slice_index, IfOk, IfSome, IsNone, OnOk};
ghost use Rattle.hv_cond.specs.Diagram.{IsBefore, IsLeast, IsNever, holds_in, top, value_of};
ghost use Rattle.hv_cond.specs.working.Nodes.{level, newest_first, IsReduced, MayBranch};
ghost use Rattle.hv_cond.specs.working.Orders.{by_position, seen, IsOrder};
ghost use Rattle.hv_cond.specs.working.Paths.{half, AreHopeless, IsHopeless, Agrees, Leaves};

use crate::conditions::Cond;
use crate::nodes::{Decision, Nodes};
use crate::orders::Order;
use std::alloc::AllocError;

/// Whether a condition holds where the variables have these values.
pub(crate) fn eval(order: &Order, nodes: &Nodes, c: Cond, values: &[bool]) -> bool
    requires reduced { IsReduced nodes.now }
    requires order { IsOrder nodes.now.variables order.now }
    requires node { c.index < top (newest_first nodes.now) }
    requires all_variables { length values.now ≡ nodes.now.variables }
    ensures { result
        ≡ holds_in (newest_first nodes.now) c (by_position order.now.variables.items values.now) }
{
    let mut at = c;
    while let Some(decision) = nodes.decision(at) {
        at = if values[order.variable(decision.variable) as usize] {
            decision.high
        } else {
            decision.low
        };
    }
    at == Cond::TRUTH
}

/// The first assignment that satisfies a condition, in the order of the variables' numbers and
/// false before true: any that satisfies it is lowered at one variable after the other.
pub(crate) fn pick(order: &Order, nodes: &Nodes, c: Cond) -> Result<Option<Vec<bool>>, AllocError>
    requires reduced { IsReduced nodes.now }
    requires order { IsOrder nodes.now.variables order.now }
    requires node { c.index < top (newest_first nodes.now) }
    ensures none { IfOk result (λ found. IsNone found ↔ IsNever (seen order.now nodes.now) c) }
    ensures least { IfOk result
        (λ found. IfSome found (λ values. IsLeast (seen order.now nodes.now) c values.items)) }
{
    let alloc = *nodes.decisions.allocator();
    let mut values = vec![in alloc; false; nodes.variables as usize]?;
    let mut hopeless = vec![in alloc; false; c.index as usize + 1]?;
    if !search(order, nodes, c, 0, &mut values, &mut hopeless) {
        return Ok(None);
    }
    for variable in 0..nodes.variables {
        lower(order, nodes, c, variable, &mut values)?;
    }
    Ok(Some(values))
}

/// Makes a variable false, if some assignment with the same values before it allows that.
fn lower(
    order: &Order,
    nodes: &Nodes,
    c: Cond,
    variable: u32,
    values: &mut Vec<bool>,
) -> Result<(), AllocError>
    requires reduced { IsReduced nodes.now }
    requires order { IsOrder nodes.now.variables order.now }
    requires node { c.index < top (newest_first nodes.now) }
    requires in_range { variable < nodes.now.variables }
    requires all_variables { length values.old.items ≡ nodes.now.variables }
    requires satisfies { holds_in (newest_first nodes.now) c
        (by_position order.now.variables.items values.old.items) ≡ true }
    ensures all_variables { OnOk result (length values.new.items ≡ nodes.now.variables) }
    ensures satisfies { OnOk result
        (holds_in (newest_first nodes.now) c
        (by_position order.now.variables.items values.new.items) ≡ true) }
    ensures before { OnOk result (Agrees variable values.new.items values.old.items) }
    ensures least { OnOk result (value_of values.new.items variable ≡ true
        → (others : List Bool) → Agrees variable others values.old.items
        → value_of others variable ≡ false
        → holds_in (newest_first nodes.now) c (by_position order.now.variables.items others)
        ≡ false) }
{
    if !values[variable as usize] {
        return Ok(());
    }
    let alloc = *values.allocator();
    let mut trial = values.clone()?;
    trial[variable as usize] = false;
    let mut hopeless = vec![in alloc; false; c.index as usize + 1]?;
    if search(order, nodes, c, variable + 1, &mut trial, &mut hopeless) {
        *values = trial;
    }
    Ok(())
}

/// Searches values that satisfy a condition, where the variables below `fixed` keep theirs. Each
/// branch is visited once, since one that was left in vain is marked.
#[cycle(searching)]
fn search(
    order: &Order,
    nodes: &Nodes,
    c: Cond,
    fixed: u32,
    values: &mut [bool],
    hopeless: &mut [bool],
) -> bool
    requires reduced { IsReduced nodes.now }
    requires order { IsOrder nodes.now.variables order.now }
    requires node { c.index < top (newest_first nodes.now) }
    requires all_variables { length values.old ≡ nodes.now.variables }
    requires marks { c.index < length hopeless.old }
    requires hopeless { AreHopeless order.now.variables.items (newest_first nodes.now) fixed
        values.old hopeless.old }

    ensures hopeless { AreHopeless order.now.variables.items (newest_first nodes.now) fixed
        values.new hopeless.new }
    ensures leaves { Leaves order.now.variables.items fixed
        (level nodes.now.variables (newest_first nodes.now) c) values.old values.new }
    ensures found { result ≡ true
        → holds_in (newest_first nodes.now) c
        (by_position order.now.variables.items values.new) ≡ true }
    ensures none { result ≡ false
        → IsHopeless order.now.variables.items (newest_first nodes.now) fixed values.old c }
{
    let Some(decision) = nodes.decision(c) else {
        return c == Cond::TRUTH;
    };
    if hopeless[c.index as usize] {
        return false;
    }
    if search_half(order, nodes, decision, false, fixed, values, hopeless) {
        return true;
    }
    if search_half(order, nodes, decision, true, fixed, values, hopeless) {
        return true;
    }
    hopeless[c.index as usize] = true;
    false
}

/// Searches values that satisfy a branch, where its variable has this one.
#[cycle(searching)]
fn search_half(
    order: &Order,
    nodes: &Nodes,
    decision: Decision,
    value: bool,
    fixed: u32,
    values: &mut [bool],
    hopeless: &mut [bool],
) -> bool
    requires reduced { IsReduced nodes.now }
    requires order { IsOrder nodes.now.variables order.now }
    requires branch { MayBranch nodes.now decision }
    requires all_variables { length values.old ≡ nodes.now.variables }
    requires low_mark { decision.low.index < length hopeless.old }
    requires high_mark { decision.high.index < length hopeless.old }
    requires hopeless { AreHopeless order.now.variables.items (newest_first nodes.now) fixed
        values.old hopeless.old }

    ensures hopeless { AreHopeless order.now.variables.items (newest_first nodes.now) fixed
        values.new hopeless.new }
    ensures leaves { Leaves order.now.variables.items fixed decision.variable
        values.old values.new }
    ensures value { result ≡ true
        → value_of values.new (slice_index order.now.variables.items decision.variable) ≡ value }
    ensures found { result ≡ true
        → holds_in (newest_first nodes.now) (half decision value)
        (by_position order.now.variables.items values.new) ≡ true }
    ensures none { result ≡ false → (others : List Bool) → Agrees fixed others values.old
        → value_of others (slice_index order.now.variables.items decision.variable) ≡ value
        → holds_in (newest_first nodes.now) (half decision value)
        (by_position order.now.variables.items others) ≡ false }
{
    let variable = order.variable(decision.variable);
    if fixed <= variable {
        values[variable as usize] = value;
    } else if values[variable as usize] != value {
        return false;
    }
    let child = if value { decision.high } else { decision.low };
    search(order, nodes, child, fixed, values, hopeless)
}
