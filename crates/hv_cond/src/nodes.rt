//! The table of nodes, in which no branch is superfluous and none stands twice.
ghost use Rattle.std.specs.Prelude.{◌≡◌, ◌≢◌, ℕ, ◌+◌, ◌<◌, ◌≤◌, [], ◌∷◌, ◌++◌, List, Bool, is_ok, length, if◌then◌else◌, IfNone, IfOk, IfSome, OnErr, OnOk};
ghost use Rattle.hv_cond.specs.Diagram.{holds_in, node_in, top, value_of};
ghost use Rattle.hv_cond.specs.working.Places.{buckets};
ghost use Rattle.hv_cond.specs.working.Nodes.{choice, level, newest_first, place_of, Extends, IsBranch, IsDecision, IsHalves, IsReduced, MayBranch};

use crate::conditions::{Cond, Node};
use crate::places::Places;
use std::alloc::{AllocError, Global};
use std::mem::size_of;

/// A branch: `high` where the variable is true, and `low` where it is not.
#[derive(Clone, Copy, PartialEq, Eq, Debug)]
pub(crate) struct Decision {
    pub(crate) variable: u32,
    pub(crate) low: Cond,
    pub(crate) high: Cond,
}

// A table of millions of branches stays small.
const _: () = prove!(size_of::<Decision>() == 12);

/// The branches in the order in which they came, with the place of each.
#[derive(Drop)]
pub(crate) struct Nodes {
    pub(crate) variables: u32,
    pub(crate) decisions: Vec<Decision>,
    pub(crate) places: Places,
}

impl Nodes {
    pub(crate) fn new(alloc: Global, variables: u32) -> Nodes
        ensures reduced { IsReduced result }
        ensures empty { result.decisions.items ≡ [] }
        ensures variables { result.variables ≡ variables }
    {
        Nodes {
            variables,
            decisions: Vec::new(alloc),
            places: Places::new(alloc),
        }
    }

    /// How many answers are kept from one call to the next.
    pub(crate) fn answers_kept(&self) -> usize {
        self.decisions.len() / 4 + 4096
    }

    /// The branch that a node is, unless it is a terminal.
    pub(crate) fn decision(&self, c: Cond) -> Option<Decision>
        requires reduced { IsReduced self.now }
        requires node { c.index < top (newest_first self.now) }
        ensures branch { IfSome result (IsBranch self.now.variables (newest_first self.now) c) }
        ensures terminal { IfNone result (c.index < 2) }
    {
        if c.index < 2 {
            return None;
        }
        Some(self.decisions[(c.index - 2) as usize])
    }

    pub(crate) fn node(&self, c: Cond) -> Node
        requires reduced { IsReduced self.now }
        requires node { c.index < top (newest_first self.now) }
        ensures { result ≡ node_in (newest_first self.now) c }
    {
        match self.decision(c) {
            Some(
                Decision {
                    variable,
                    low,
                    high,
                },
            ) => Node::Branch {
                var: variable,
                low,
                high,
            },
            None if c == Cond::TRUTH => Node::Truth,
            None => Node::Falsity,
        }
    }

    /// The first variable that a condition depends on, or the number of variables.
    pub(crate) fn level(&self, c: Cond) -> u32
        requires reduced { IsReduced self.now }
        requires node { c.index < top (newest_first self.now) }
        ensures { result ≡ level self.now.variables (newest_first self.now) c }
    {
        match self.decision(c) {
            Some(decision) => decision.variable,
            None => self.variables,
        }
    }

    /// What a condition means where the variable is false, and where it is true.
    pub(crate) fn halves(&self, c: Cond, variable: u32) -> (Cond, Cond)
        requires reduced { IsReduced self.now }
        requires node { c.index < top (newest_first self.now) }
        requires in_range { variable < self.now.variables }
        requires level { variable ≤ level self.now.variables (newest_first self.now) c }
        ensures { IsHalves self.now.variables (newest_first self.now) c variable result.0 result.1 }
    {
        let Some(decision) = self.decision(c) else {
            return (c, c);
        };
        if decision.variable == variable {
            (decision.low, decision.high)
        } else {
            (c, c)
        }
    }

    /// The condition that a branch means, entered only if it is neither superfluous nor known.
    pub(crate) fn branch(&mut self, decision: Decision) -> Result<Cond, AllocError>
        requires reduced { IsReduced self.old }
        requires may_branch { MayBranch self.old decision }

        ensures reduced { IsReduced self.new }
        ensures extends { Extends self.old self.new }
        ensures grows { length (newest_first self.new) ≤ length (newest_first self.old) + 1 }
        ensures err { OnErr result (length (newest_first self.new)
            ≡ length (newest_first self.old)) }
        ensures node { IfOk result (λ c. c.index < top (newest_first self.new)) }
        ensures meaning { IfOk result
            (λ c. (v : List Bool) →
            holds_in (newest_first self.new) c v ≡ choice (newest_first self.old) decision v) }
    {
        if decision.low == decision.high {
            return Ok(decision.low);
        }
        match self.find(&decision) {
            Some(place) => Ok(place),
            None => self.push(decision),
        }
    }

    /// Where the table has a branch: its bucket's chain is gone down.
    fn find(&self, decision: &Decision) -> Option<Cond>
        requires { IsReduced self.now }
        ensures { result ≡ place_of (newest_first self.now) decision.now }
    {
        let mut index = self.places.newest(*decision);
        while index != 0 {
            let at = (index - 2) as usize;
            if self.decisions[at] == *decision {
                return Some(Cond { index });
            }
            index = self.places.before[at];
        }
        None
    }

    /// Enters a branch that the table does not have.
    fn push(&mut self, decision: Decision) -> Result<Cond, AllocError>
        requires reduced { IsReduced self.old }
        requires decision { IsDecision self.old.variables (newest_first self.old) decision }

        ensures reduced { IsReduced self.new }
        ensures variables { self.new.variables ≡ self.old.variables }
        ensures ok { OnOk result (newest_first self.new ≡ decision ∷ newest_first self.old) }
        ensures err { OnErr result (newest_first self.new ≡ newest_first self.old) }
        ensures place { IfOk result (λ c. c.index ≡ top (newest_first self.old)) }
    {
        let Ok(index) = u32::try_from(self.decisions.len() + 2) else {
            return Err(AllocError);
        };
        self.make_room()?;
        self.decisions.reserve(1)?;
        self.places.enter(decision, index)?;
        let Ok(_) = self.decisions.push(decision) else {
            unreachable!()
        };
        Ok(Cond { index })
    }

    /// Has a bucket for one more branch: where there is none, twice as many.
    fn make_room(&mut self) -> Result<(), AllocError>
        requires reduced { IsReduced self.old }
        requires few { length self.old.decisions.items + 2 < 4294967296 }
        ensures variables { self.new.variables ≡ self.old.variables }
        ensures branches { self.new.decisions ≡ self.old.decisions }
        ensures reduced { IsReduced self.new }
        ensures room { OnOk result (length self.new.decisions.items < buckets self.new.places) }
    {
        let branches = self.decisions.len();
        if branches < self.places.room() {
            return Ok(());
        }
        let alloc = *self.decisions.allocator();
        self.places = Places::rebuilt(alloc, &self.decisions, 2 * branches + 1024)?;
        Ok(())
    }
}
