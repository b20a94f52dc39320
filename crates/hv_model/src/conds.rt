//! A stack of conditions.
ghost use Rattle.std.specs.Prelude.{◌≡◌, ◌<◌, [], ◌∷◌, true, Bool, List, length, IfOk, IfSome, MatchOption, OnOk, OnErr};
ghost use Rattle.hv_cond.specs.Diagram.{AllNodes, IsNode, Keeps, holds};
ghost use Rattle.hv_model.specs.working.Conds.{held};
ghost use Rattle.hv_model.specs.declared.code.Step.TheVariants.{Option};
ghost use Rattle.hv_model.specs.working.Steps.{both_of, either_of, fits, implied_of, opposite_of, values_after};

use crate::code::Step;
use hv_base::{Memory, Stack};
use hv_cond::{Cond, Store};
use std::alloc::Global;

/// A stack of conditions. Contracts see it as the list of these, the last first.
#[derive(Drop)]
pub(crate) struct Conds {
    conds: Stack<Cond>,
}

impl std::marker::Model for Conds {
    ghost use Rattle.std.specs.Prelude.{List};
    ghost use Rattle.hv_cond.specs.declared.conditions.Cond.{Cond};

    ghost Value = { List Cond };

    ghost view = { λ s. s.conds };
}

impl Conds {
    pub(crate) fn new(alloc: Global) -> Conds
        ensures { result ≡ [] }
    {
        Conds {
            conds: Stack::new(alloc),
        }
    }

    fn push(&mut self, cond: Cond) -> Result<(), Memory>
        ensures { OnOk result (self.new ≡ cond ∷ self.old) }
    {
        self.conds.push(cond)
    }

    pub(crate) fn pop(&mut self) -> Option<Cond>
        ensures { MatchOption result ((self.old ≡ []) × (self.new ≡ [])) (λ cond. self.old ≡ cond
            ∷ self.new) }
    {
        self.conds.pop()
    }

    /// The last two conditions, the later one second, or `None` where there are not two.
    fn pop_two(&mut self) -> Option<(Cond, Cond)>
        ensures { MatchOption result ((length self.old < 2) × (self.new ≡ self.old))
            (λ pair. self.old ≡ pair.1 ∷ pair.0 ∷ self.new) }
    {
        if self.conds.len() < 2 {
            return None;
        }
        let right = self.pop()?;
        let left = self.pop()?;
        Some((left, right))
    }

    fn option(&mut self, store: &mut Store, i: u32) -> Result<(), Memory>
        requires option { i < store.old.variables }
        requires nodes { AllNodes store.old self.old }
        ensures keeps { Keeps store.old store.new }
        ensures nodes { OnOk result (AllNodes store.new self.new) }
        ensures meaning { OnOk result ((values : List Bool) → held store.new values self.new
            ≡ values_after values (held store.old values self.old) (Option i)) }
    {
        let cond = store.var(i)?;
        self.push(cond)
    }

    fn negate(&mut self, store: &mut Store) -> Result<(), Memory>
        requires { AllNodes store.old self.old }
        ensures keeps { Keeps store.old store.new }
        ensures nodes { OnOk result (AllNodes store.new self.new) }
        ensures meaning { OnOk result ((values : List Bool) → held store.new values self.new
            ≡ opposite_of (held store.old values self.old)) }
    {
        let Some(cond) = self.pop() else {
            return Ok(());
        };
        let opposite = store.not(cond)?;
        self.push(opposite)
    }

    fn both(&mut self, store: &mut Store) -> Result<(), Memory>
        requires { AllNodes store.old self.old }
        ensures keeps { Keeps store.old store.new }
        ensures nodes { OnOk result (AllNodes store.new self.new) }
        ensures meaning { OnOk result ((values : List Bool) → held store.new values self.new
            ≡ both_of (held store.old values self.old)) }
    {
        let Some((left, right)) = self.pop_two() else {
            return Ok(());
        };
        let both = store.and(left, right)?;
        self.push(both)
    }

    fn either(&mut self, store: &mut Store) -> Result<(), Memory>
        requires { AllNodes store.old self.old }
        ensures keeps { Keeps store.old store.new }
        ensures nodes { OnOk result (AllNodes store.new self.new) }
        ensures meaning { OnOk result ((values : List Bool) → held store.new values self.new
            ≡ either_of (held store.old values self.old)) }
    {
        let Some((left, right)) = self.pop_two() else {
            return Ok(());
        };
        let either = store.or(left, right)?;
        self.push(either)
    }

    /// The condition that the last one is implied by the one before.
    fn implied(&mut self, store: &mut Store) -> Result<(), Memory>
        requires { AllNodes store.old self.old }
        ensures keeps { Keeps store.old store.new }
        ensures nodes { OnOk result (AllNodes store.new self.new) }
        ensures meaning { OnOk result ((values : List Bool) → held store.new values self.new
            ≡ implied_of (held store.old values self.old)) }
    {
        let Some((left, right)) = self.pop_two() else {
            return Ok(());
        };
        let opposite = store.not(left)?;
        let implied = store.or(opposite, right)?;
        self.push(implied)
    }

    /// Does a step of a rule's code.
    pub(crate) fn apply(&mut self, store: &mut Store, step: Step) -> Result<(), Memory>
        requires option { fits store.old.variables step ≡ true }
        requires nodes { AllNodes store.old self.old }
        ensures keeps { Keeps store.old store.new }
        ensures nodes { OnOk result (AllNodes store.new self.new) }
        ensures meaning { OnOk result ((values : List Bool) → held store.new values self.new
            ≡ values_after values (held store.old values self.old) step) }
    {
        match step {
            Step::Option(i) => self.option(store, u32::from(i)),
            Step::Not => self.negate(store),
            Step::And | Step::SupposeToo => self.both(store),
            Step::Or => self.either(store),
            Step::Suppose => Ok(()),
            Step::Conclude => self.implied(store),
        }
    }
}
