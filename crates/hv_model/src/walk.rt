//! A walk over the options, from each to the rules that name it and on to what these name.

use crate::code::{Code, Step};
use std::alloc::{AllocError, Global};

/// A breadth-first walk (Cuthill and McKee).
#[derive(Drop)]
struct Walk {
    /// The options that were met, in order.
    met: Vec<u32>,
    /// Whether each option was met.
    is_met: Vec<bool>,
    /// Whether each rule was followed.
    is_followed: Vec<bool>,
    /// How many of the options that were met were left again.
    left: usize,
}

impl Walk {
    fn new(alloc: Global, options: usize, rules: usize) -> Result<Walk, AllocError> {
        Ok(Walk {
            met: Vec::new(alloc),
            is_met: vec![in alloc; false; options]?,
            is_followed: vec![in alloc; false; rules]?,
            left: 0,
        })
    }

    /// Meets an option, if it was not met before.
    fn meet(&mut self, option: u32) -> Result<(), AllocError> {
        if let Some(is_met) = self.is_met.get_mut(option as usize) {
            if !*is_met {
                *is_met = true;
                self.met.push(option)?;
            }
        }
        Ok(())
    }

    /// Meets each option that a rule names.
    fn meet_all(&mut self, rule: &Code) -> Result<(), AllocError> {
        for step in rule.steps.iter() {
            if let Step::Option(option) = step {
                self.meet(u32::from(*option))?;
            }
        }
        Ok(())
    }

    /// Whether the rule of this number was not followed before; now it is.
    fn starts(&mut self, rule: usize) -> bool {
        if let Some(is_followed) = self.is_followed.get_mut(rule) {
            if !*is_followed {
                *is_followed = true;
                return true;
            }
        }
        false
    }

    /// Meets what each of the rules names that was not followed before.
    fn follow(&mut self, rules: &[Code], numbers: &[usize]) -> Result<(), AllocError> {
        for number in numbers {
            if self.starts(*number) {
                if let Some(rule) = rules.get(*number) {
                    self.meet_all(rule)?;
                }
            }
        }
        Ok(())
    }

    /// The next option that was met and not left yet.
    fn leave(&mut self) -> Option<u32> {
        let option = self.met.get(self.left).copied()?;
        self.left = self.left.saturating_add(1);
        Some(option)
    }

    /// Goes on from each option that was met, until none is left.
    fn run(&mut self, rules: &[Code], naming: &[Vec<usize>]) -> Result<(), AllocError> {
        for _ in 0..naming.len() {
            let Some(option) = self.leave() else {
                return Ok(());
            };
            if let Some(numbers) = naming.get(option as usize) {
                self.follow(rules, numbers.as_slice())?;
            }
        }
        Ok(())
    }
}

/// The options in the order in which a walk meets them that begins at the first of `starts`, and
/// goes on at the next one that it did not meet.
pub(crate) fn walked(
    alloc: Global,
    rules: &[Code],
    naming: &[Vec<usize>],
    starts: &[u32],
) -> Result<Vec<u32>, AllocError> {
    let mut walk = Walk::new(alloc, naming.len(), rules.len())?;
    for start in starts {
        walk.meet(*start)?;
        walk.run(rules, naming)?;
    }
    let Walk {
        met,
        is_met: _,
        is_followed: _,
        left: _,
    } = walk;
    Ok(met)
}

/// The numbers of the rules that name each option.
pub(crate) fn naming_of(
    alloc: Global,
    rules: &[Code],
    options: usize,
) -> Result<Vec<Vec<usize>>, AllocError> {
    let mut naming = Vec::new(alloc);
    for _ in 0..options {
        naming.push(Vec::new(alloc))?;
    }
    for (number, rule) in rules.iter().enumerate() {
        note(&mut naming, rule, number)?;
    }
    Ok(naming)
}

/// Notes that the rule of this number names its options.
fn note(naming: &mut Vec<Vec<usize>>, rule: &Code, number: usize) -> Result<(), AllocError> {
    for step in rule.steps.iter() {
        if let Step::Option(option) = step {
            if let Some(numbers) = naming.get_mut(usize::from(*option)) {
                numbers.push(number)?;
            }
        }
    }
    Ok(())
}
