//! The order in which the branches of a store test its variables.
ghost use Rattle.std.specs.Prelude.{◌≡◌, ◌<◌, ℕ, length, nat_eq, slice_index, IfOk, OnOk};
ghost use Rattle.std.specs.List.{IsDistinct};
ghost use Rattle.hv_cond.specs.Order.{order_from, with};
ghost use Rattle.hv_cond.specs.working.Orders.{IsOrder, IsPlacing};

use std::alloc::{AllocError, Global};

/// An order of the variables.
#[derive(Drop)]
pub(crate) struct Order {
    /// The variables, by their positions in the order.
    pub(crate) variables: Vec<u32>,
    /// Each variable's position in the order.
    pub(crate) positions: Vec<u32>,
}

impl Order {
    /// The variables of `first`, each where it stands first in it, and then the others by number.
    pub(crate) fn new(alloc: Global, vars: u32, first: &[u32]) -> Result<Order, AllocError>
        ensures order { IfOk result (IsOrder vars) }
        ensures variables { IfOk result (λ order. order.variables.items
            ≡ order_from vars first.now) }
    {
        let variables = arrange(alloc, vars, first)?;
        let positions = invert(alloc, vars, &variables)?;
        Ok(Order {
            variables,
            positions,
        })
    }

    /// The variable at a position of the order.
    pub(crate) fn variable(&self, position: u32) -> u32
        requires { position < length self.now.variables.items }
        ensures { result ≡ slice_index self.now.variables.items position }
    {
        self.variables[position as usize]
    }

    /// Where a variable stands in the order.
    pub(crate) fn position(&self, variable: u32) -> u32
        requires { variable < length self.now.positions.items }
        ensures { result ≡ slice_index self.now.positions.items variable }
    {
        self.positions[variable as usize]
    }
}

/// The variables in the order of `first`, then the others by number.
fn arrange(alloc: Global, vars: u32, first: &[u32]) -> Result<Vec<u32>, AllocError>
    ensures order { IfOk result (λ variables. variables.items ≡ order_from vars first.now) }
{
    let mut variables: Vec<u32> = Vec::with_capacity(alloc, vars as usize)?;
    let mut placed = vec![in alloc; false; vars as usize]?;
    for variable in first {
        place(&mut variables, &mut placed, *variable)?;
    }
    for variable in 0..vars {
        place(&mut variables, &mut placed, variable)?;
    }
    Ok(variables)
}

/// Puts a variable at the end of the order, unless it stands in it or there is none of that number.
fn place(variables: &mut Vec<u32>, placed: &mut Vec<bool>, variable: u32) -> Result<(), AllocError>
    requires { IsPlacing (length placed.old.items) variables.old.items placed.old.items }
    ensures placing { OnOk result
        (IsPlacing (length placed.old.items) variables.new.items placed.new.items) }
    ensures ok { OnOk result
        (variables.new.items ≡ with (length placed.old.items) variables.old.items variable) }
{
    let index = variable as usize;
    if index < placed.len() && !placed[index] {
        variables.push(variable)?;
        placed[index] = true;
    }
    Ok(())
}

/// Each variable's position in an order.
fn invert(alloc: Global, vars: u32, variables: &[u32]) -> Result<Vec<u32>, AllocError>
    requires all { length variables.now ≡ vars }
    requires below { (k : ℕ) → k < vars → slice_index variables.now k < vars }
    requires distinct { IsDistinct nat_eq variables.now }
    ensures all { IfOk result (λ positions. length positions.items ≡ vars) }
    ensures inverse { IfOk result (λ positions. (k : ℕ) → k < vars
        → slice_index positions.items (slice_index variables.now k) ≡ k) }
{
    let mut positions = vec![in alloc; 0; vars as usize]?;
    for position in 0..vars {
        positions[variables[position as usize] as usize] = position;
    }
    Ok(positions)
}
