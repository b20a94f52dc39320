//! The order in which a model's diagram tests the options. It changes the diagram's size and
//! nothing of its meaning.
// DECISIONS: order of the variables

use crate::code::Code;
use crate::force::force;
use crate::walk::{naming_of, walked};
use std::alloc::{AllocError, Global};

/// The options by number.
fn numbers(alloc: Global, options: usize) -> Result<Vec<u32>, AllocError> {
    let mut numbers = Vec::new(alloc);
    for option in 0..u32::try_from(options).unwrap_or(u32::MAX) {
        numbers.push(option)?;
    }
    Ok(numbers)
}

/// The options in an order that keeps near what the rules name together: two breadth-first walks,
/// the second from what the first one met last, and then FORCE. It is given backwards, so that a
/// long `||` or `&&`, which is read from the left, grows at the top of its diagram.
pub(crate) fn order_of(
    alloc: Global,
    rules: &[Code],
    options: usize,
) -> Result<Vec<u32>, AllocError> {
    let naming = naming_of(alloc, rules, options)?;
    let starts = numbers(alloc, options)?;
    let mut met = walked(alloc, rules, naming.as_slice(), starts.as_slice())?;
    met.reverse();
    let again = walked(alloc, rules, naming.as_slice(), met.as_slice())?;
    let mut order = force(alloc, rules, again, options)?;
    order.reverse();
    Ok(order)
}
