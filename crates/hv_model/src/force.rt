//! FORCE: a rule moves to the mean place of its options, an option to the mean place of its rules
//! (Aloul, Markov and Sakallah, 2003).

use crate::code::{Code, Step};
use std::alloc::{AllocError, Global};

/// How often each rule and each option moves at most.
const MOST_ROUNDS: u32 = 100;

/// Places are counted in parts, so that a mean of them needs no fraction.
const PARTS: u64 = 65_536;

/// The mean of some places.
#[derive(Clone, Copy)]
struct Mean {
    sum: u64,
    count: u64,
}

impl Mean {
    const NONE: Mean = Mean { sum: 0, count: 0 };

    fn add(&mut self, place: u64) {
        self.sum = self.sum.saturating_add(place);
        self.count = self.count.saturating_add(1);
    }

    /// The mean, or `None` of no place.
    fn value(&self) -> Option<u64> {
        self.sum.checked_div(self.count)
    }
}

/// The place of each option in an order.
fn places_of(alloc: Global, order: &[u32], options: usize) -> Result<Vec<u64>, AllocError> {
    let mut places = vec![in alloc; 0u64; options]?;
    let mut next = 0u64;
    for option in order {
        if let Some(place) = places.get_mut(*option as usize) {
            *place = next;
        }
        next = next.saturating_add(PARTS);
    }
    Ok(places)
}

/// The mean place of a rule's options.
fn center(rule: &Code, places: &[u64]) -> Option<u64> {
    let mut mean = Mean::NONE;
    for step in rule.steps.iter() {
        if let Step::Option(option) = step {
            if let Some(place) = places.get(usize::from(*option)) {
                mean.add(*place);
            }
        }
    }
    mean.value()
}

/// Each of a rule's options is drawn to the rule's place.
fn draw(means: &mut Vec<Mean>, rule: &Code, place: u64) {
    for step in rule.steps.iter() {
        if let Step::Option(option) = step {
            if let Some(mean) = means.get_mut(usize::from(*option)) {
                mean.add(place);
            }
        }
    }
}

/// The order by the mean place of each option's rules; an option of no rule stays.
fn moved(
    alloc: Global,
    rules: &[Code],
    order: &[u32],
    options: usize,
) -> Result<Vec<u32>, AllocError> {
    let places = places_of(alloc, order, options)?;
    let mut means = vec![in alloc; Mean::NONE; options]?;
    for rule in rules {
        if let Some(place) = center(rule, places.as_slice()) {
            draw(&mut means, rule, place);
        }
    }
    sorted(alloc, order, places.as_slice(), means.as_slice())
}

/// The options by their new places, those of one place in the order that they have.
fn sorted(
    alloc: Global,
    order: &[u32],
    places: &[u64],
    means: &[Mean],
) -> Result<Vec<u32>, AllocError> {
    let mut keyed = Vec::new(alloc);
    for option in order {
        let stays = places.get(*option as usize).copied().unwrap_or(0);
        let mean = means.get(*option as usize).copied().unwrap_or(Mean::NONE);
        keyed.push((mean.value().unwrap_or(stays), stays, *option))?;
    }
    keyed.sort()?;
    let mut order = Vec::new(alloc);
    for (_, _, option) in keyed.iter() {
        order.push(*option)?;
    }
    Ok(order)
}

/// The order after so many rounds that nothing moves any more, or after the last round.
pub(crate) fn force(
    alloc: Global,
    rules: &[Code],
    first: Vec<u32>,
    options: usize,
) -> Result<Vec<u32>, AllocError> {
    let mut order = first;
    for _ in 0..MOST_ROUNDS {
        let next = moved(alloc, rules, order.as_slice(), options)?;
        if next.as_slice() == order.as_slice() {
            return Ok(next);
        }
        order = next;
    }
    Ok(order)
}
