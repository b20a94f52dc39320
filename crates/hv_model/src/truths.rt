//! A stack of truth values.
ghost use Rattle.std.specs.Prelude.{◌≡◌, ◌<◌, ◌≤◌, [], ◌∷◌, false, length, MatchOption};
ghost use Rattle.std.specs.List.{slice_index_or};
ghost use Rattle.hv_model.specs.working.Steps.{both_of, either_of, implied_of, opposite_of, top_of, values_after};

use crate::code::Step;

/// How many values a stack has room for.
const ROOM: usize = 1024;

/// A stack of truth values. Contracts see it as the list of these, the last first.
#[derive(Drop)]
pub(crate) struct Truths {
    values: [bool; ROOM],
    height: usize,
}

impl std::marker::Model for Truths {
    ghost use Rattle.std.specs.Prelude.{List, Bool, take, reverse, ◌≤◌};

    ghost Value = { List Bool };

    ghost view = { λ s. reverse (take s.height s.values) };

    ghost invariant = { λ s. s.height ≤ 1024 };
}

impl Truths {
    pub(crate) fn new() -> Truths
        ensures { result ≡ [] }
    {
        Truths {
            values: [false; ROOM],
            height: 0,
        }
    }

    fn push(&mut self, value: bool)
        requires { length self.old < 1024 }
        ensures { self.new ≡ value ∷ self.old }
    {
        self.values[self.height] = value;
        self.height += 1;
    }

    fn pop(&mut self) -> Option<bool>
        ensures { MatchOption result ((self.old ≡ []) × (self.new ≡ [])) (λ value. (self.old
            ≡ value ∷ self.new) × (length self.new < 1024)) }
    {
        if self.height == 0 {
            return None;
        }
        self.height -= 1;
        Some(self.values[self.height])
    }

    /// The last two values, the later one second, or `None` where there are not two.
    fn pop_two(&mut self) -> Option<(bool, bool)>
        ensures { MatchOption result ((length self.old < 2) × (self.new ≡ self.old))
            (λ pair. (self.old ≡ pair.1 ∷ pair.0 ∷ self.new) × (length self.new < 1024)) }
    {
        if self.height < 2 {
            return None;
        }
        self.height -= 2;
        Some((self.values[self.height], self.values[self.height + 1]))
    }

    fn negate(&mut self)
        ensures { self.new ≡ opposite_of self.old }
    {
        if let Some(value) = self.pop() {
            self.push(!value);
        }
    }

    fn both(&mut self)
        ensures { self.new ≡ both_of self.old }
    {
        if let Some((left, right)) = self.pop_two() {
            self.push(left && right);
        }
    }

    fn either(&mut self)
        ensures { self.new ≡ either_of self.old }
    {
        if let Some((left, right)) = self.pop_two() {
            self.push(left || right);
        }
    }

    fn implied(&mut self)
        ensures { self.new ≡ implied_of self.old }
    {
        if let Some((left, right)) = self.pop_two() {
            self.push(!left || right);
        }
    }

    /// Does a step of a rule's code, where the options have these values.
    pub(crate) fn apply(&mut self, step: Step, values: &[bool])
        requires { length (values_after values.now self.old step) ≤ 1024 }
        ensures { self.new ≡ values_after values.now self.old step }
    {
        match step {
            Step::Option(i) => self.push(value_of(values, i)),
            Step::Not => self.negate(),
            Step::And | Step::SupposeToo => self.both(),
            Step::Or => self.either(),
            Step::Suppose => {}
            Step::Conclude => self.implied(),
        }
    }

    /// The last value, or false where there is none.
    pub(crate) fn top(&self) -> bool
        ensures { result ≡ top_of self.now }
    {
        self.height > 0 && self.values[self.height - 1]
    }
}

/// The value of an option.
fn value_of(values: &[bool], option: u16) -> bool
    ensures { result ≡ slice_index_or values.now option false }
{
    values.get(usize::from(option)).copied().unwrap_or(false)
}
