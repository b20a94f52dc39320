//! The complement of a condition.
ghost use Rattle.std.specs.Prelude.{◌≡◌, ℕ, ◌+◌, ◌<◌, ◌≤◌, List, Bool, not, if◌then◌else◌, IfOk, OnOk};
ghost use Rattle.std.specs.declared.option.Option.TheVariants.{Some, None};
ghost use Rattle.hv_cond.specs.Diagram.{holds_in, top, value_of};
ghost use Rattle.hv_cond.specs.working.Nodes.{choice, newest_first, IsReduced, MayBranch};
ghost use Rattle.hv_cond.specs.working.Complements.{complement_of, room, same_cond, AreComplements, GrowsBy, IsComplement};

use crate::conditions::Cond;
use crate::nodes::{Decision, Nodes};
use std::alloc::{AllocError, Global};
use std::collections::HashMap;

/// The complements that were computed, so that no node is visited twice.
#[derive(Drop)]
pub(crate) struct Complements {
    pub(crate) answers: HashMap<Cond, Cond>,
}

impl Complements {
    pub(crate) fn new(alloc: Global) -> Complements
        ensures { (x : Cond) → complement_of result x ≡ None }
    {
        Complements {
            answers: HashMap::new(alloc),
        }
    }

    /// Forgets the complements, if there are more than some.
    pub(crate) fn trim(&mut self, most: usize)
        ensures { (x c : Cond) → complement_of self.new x ≡ Some c
            → complement_of self.old x ≡ Some c }
    {
        if self.answers.len() > most {
            self.answers.clear();
        }
    }

    fn find(&self, c: Cond) -> Option<Cond>
        ensures { result ≡ complement_of self.now c }
    {
        self.answers.get(&c).copied()
    }

    /// Makes room for two more complements.
    fn make_room(&mut self) -> Result<(), AllocError>
        ensures same { (x : Cond) → complement_of self.new x ≡ complement_of self.old x }
        ensures ok { OnOk result (2 ≤ room self.new) }
    {
        self.answers.reserve(2)
    }

    /// Keeps a complement, for which there is room.
    fn record(&mut self, c: Cond, answer: Cond)
        requires { 0 < room self.old }
        ensures answer { (x : Cond) →
            complement_of self.new x
            ≡ (if same_cond c x then Some answer else complement_of self.old x) }
        ensures room { room self.old ≤ room self.new + 1 }
    {
        let Ok(_) = self.answers.insert(c, answer) else {
            unreachable!()
        };
    }
}

/// The complement of a condition, by halves: each branch is visited once.
pub(crate) fn complement(
    nodes: &mut Nodes,
    complements: &mut Complements,
    a: Cond,
) -> Result<Cond, AllocError>
    requires reduced { IsReduced nodes.old }
    requires answers { AreComplements (newest_first nodes.old) complements.old }
    requires node { a.index < top (newest_first nodes.old) }

    ensures grows { GrowsBy nodes.old nodes.new complements.old complements.new a }
    ensures answer { IfOk result (IsComplement (newest_first nodes.new) a) }
{
    let Some(decision) = nodes.decision(a) else {
        return Ok(opposite(a));
    };
    if let Some(answer) = complements.find(a) {
        return Ok(answer);
    }
    let low = complement(nodes, complements, decision.low)?;
    let high = complement(nodes, complements, decision.high)?;
    let halves = Decision {
        variable: decision.variable,
        low,
        high,
    };
    enter(nodes, complements, a, halves)
}

/// The other terminal.
fn opposite(a: Cond) -> Cond
    requires { a.index < 2 }
    ensures { result.index + a.index ≡ 1 }
{
    if a == Cond::TRUTH {
        Cond::FALSITY
    } else {
        Cond::TRUTH
    }
}

/// Makes the complement of its two halves, and keeps it for both directions.
fn enter(
    nodes: &mut Nodes,
    complements: &mut Complements,
    a: Cond,
    halves: Decision,
) -> Result<Cond, AllocError>
    requires reduced { IsReduced nodes.old }
    requires answers { AreComplements (newest_first nodes.old) complements.old }
    requires node { a.index < top (newest_first nodes.old) }
    requires is_branch { 2 ≤ a.index }
    requires unknown { complement_of complements.old a ≡ None }
    requires may_branch { MayBranch nodes.old halves }
    requires meaning { (v : List Bool) →
        choice (newest_first nodes.old) halves v ≡ not (holds_in (newest_first nodes.old) a v) }

    ensures grows { GrowsBy nodes.old nodes.new complements.old complements.new a }
    ensures answer { IfOk result (IsComplement (newest_first nodes.new) a) }
{
    complements.make_room()?;
    let answer = nodes.branch(halves)?;
    complements.record(a, answer);
    complements.record(answer, a);
    Ok(answer)
}
