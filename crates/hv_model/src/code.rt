//! Rules as code for a machine with a stack.
ghost use Rattle.std.specs.Prelude.{◌≡◌, ◌≤◌, [], ◌∷◌, ◌++◌, length, true, Bool, List, if◌then◌else◌, IfOk, OnOk};
ghost use Rattle.hv_cond.specs.Diagram.{IsNode, Keeps, holds};
ghost use Rattle.std.specs.List.{list_all};
ghost use Rattle.hv_model.specs.Rule.{meets as meets_rule};
ghost use Rattle.hv_model.specs.working.Steps.{fits as step_fits};

use crate::conds::Conds;
use crate::truths::Truths;
use hv_base::Memory;
use hv_cond::{Cond, Store};
use std::alloc::Global;

/// A step of a rule's code. The premises of a chain of implications are gathered in one place, so
/// that a long chain needs no deep stack.
#[derive(Clone, Copy, Debug, PartialEq, Eq)]
pub(crate) enum Step {
    /// Puts the value of an option on the stack.
    Option(u16),
    Not,
    And,
    Or,
    /// The value on the stack is the first premise of an implication.
    Suppose,
    /// The value on the stack is a further premise.
    SupposeToo,
    /// The value on the stack is what follows from the premises.
    Conclude,
}

/// The code of a rule, or its first part.
#[derive(Debug, Drop)]
pub(crate) struct Code {
    pub(crate) steps: Vec<Step>,
}

impl std::marker::Model for Code {
    ghost use Rattle.std.specs.Prelude.{List};
    ghost use Rattle.hv_model.specs.declared.code.Step.{Step};

    ghost Value = { List Step };

    ghost view = { λ code. code.steps.items };

    ghost use Rattle.hv_model.specs.working.Steps.{IsLow};

    ghost invariant = { λ code. IsLow code.steps.items };
}

impl Code {
    ghost use Rattle.hv_model.specs.working.Machine.{negated_times};
    ghost use Rattle.hv_model.specs.working.Steps.{IsOperator, after, fits, items_of, rule_of};

    /// No steps.
    pub(crate) fn new(alloc: Global) -> Code
        ensures { result ≡ [] }
    {
        Code {
            steps: Vec::new(alloc),
        }
    }

    /// Adds a step.
    pub(crate) fn emit(&mut self, step: Step) -> Result<(), Memory>
        requires { length (after (items_of self.old) step) ≤ 1024 }
        ensures { OnOk result (self.new ≡ self.old ++ step ∷ []) }
    {
        self.steps.push(step)?;
        Ok(())
    }

    /// Adds a step that puts no option on the stack.
    fn operate(&mut self, step: Step) -> Result<(), Memory>
        requires { IsOperator step }
        ensures { OnOk result (self.new ≡ self.old ++ step ∷ []) }
    {
        // Brings the invariant into the proof.
        let _ = &self.steps;
        self.emit(step)
    }

    /// Adds a step that puts no option on the stack, if it is wanted.
    pub(crate) fn operate_if(&mut self, wanted: bool, step: Step) -> Result<(), Memory>
        requires { IsOperator step }
        ensures { OnOk result (items_of self.new ≡ (if wanted then after (items_of self.old) step
            else items_of self.old)) }
    {
        if wanted {
            self.operate(step)?;
        }
        Ok(())
    }

    /// Negates the value on the stack so many times.
    pub(crate) fn negate(&mut self, times: u16) -> Result<(), Memory>
        ensures { OnOk result (items_of self.new ≡ negated_times times (items_of self.old)) }
    {
        for _ in 0..times {
            self.operate(Step::Not)?;
        }
        Ok(())
    }

    /// Whether the rule speaks of the first so many options only.
    pub(crate) fn fits(&self, options: usize) -> bool
        ensures { result ≡ list_all (fits options) self.now }
    {
        self.steps.iter().all(|step| fits(*step, options))
    }

    /// The condition that the variables, which are the options, have values that meet the rule.
    pub(crate) fn cond(&self, store: &mut Store) -> Result<Cond, Memory>
        requires { list_all (step_fits store.old.variables) self.now ≡ true }
        ensures keeps { Keeps store.old store.new }
        ensures node { IfOk result (IsNode store.new) }
        ensures meaning { IfOk result (λ c. (values : List Bool) → holds store.new c values
            ≡ meets_rule values (rule_of self.now)) }
    {
        let mut stack = Conds::new(*self.steps.allocator());
        for step in self.steps.iter() {
            stack.apply(store, *step)?;
        }
        match stack.pop() {
            Some(cond) => Ok(cond),
            None => Ok(store.falsity()),
        }
    }

    /// Whether the options' values meet the rule.
    pub(crate) fn meets(&self, values: &[bool]) -> bool
        ensures { result ≡ meets_rule values.now (rule_of self.now) }
    {
        let mut stack = Truths::new();
        for step in self.steps.iter() {
            stack.apply(*step, values);
        }
        stack.top()
    }
}

/// Whether the step speaks of the first so many options only.
fn fits(step: Step, options: usize) -> bool
    ensures { result ≡ step_fits options step }
{
    match step {
        Step::Option(i) => usize::from(i) < options,
        _ => true,
    }
}
