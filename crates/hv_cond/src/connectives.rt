//! The conjunction and the disjunction of conditions.
ghost use Rattle.std.specs.Prelude.{◌≡◌, ℕ, ◌+◌, ◌<◌, ◌≤◌, List, Bool, if◌then◌else◌, IfNone, IfOk, IfSome, OnErr, OnOk};
ghost use Rattle.std.specs.declared.option.Option.TheVariants.{Some, None};
ghost use Rattle.hv_cond.specs.declared.nodes.Decision.{Decision};
ghost use Rattle.hv_cond.specs.Diagram.{holds_in, top, value_of};
ghost use Rattle.hv_cond.specs.working.Nodes.{choice, newest_first, IsReduced, MayBranch};
ghost use Rattle.hv_cond.specs.working.Results.{known};
ghost use Rattle.hv_cond.specs.working.Connectives.{absorbing, neutral, apply, AreAnswers, Grows, IsAnswer};

use crate::conditions::Cond;
use crate::nodes::{Decision, Nodes};
use crate::results::Results;
use std::alloc::AllocError;

/// A connective of two conditions.
#[derive(Clone, Copy, PartialEq, Eq, Debug)]
pub(crate) enum Connective {
    And,
    Or,
}

impl Connective {
    /// The condition that decides the answer by itself.
    fn absorbing(self) -> Cond
        ensures { result ≡ absorbing self }
    {
        match self {
            Connective::And => Cond::FALSITY,
            Connective::Or => Cond::TRUTH,
        }
    }

    /// The condition that leaves the other as the answer.
    fn neutral(self) -> Cond
        ensures { result ≡ neutral self }
    {
        match self {
            Connective::And => Cond::TRUTH,
            Connective::Or => Cond::FALSITY,
        }
    }

    /// The answer where it is seen at once; else both conditions are branches.
    pub(crate) fn shortcut(self, a: Cond, b: Cond) -> Option<Cond>
        ensures answer { IfSome result
            (λ c. (ds : List Decision) → a.index < top ds → b.index < top ds
            → IsAnswer self ds a b c) }
        ensures branches { IfNone result ((2 ≤ a.index) × (2 ≤ b.index)) }
    {
        let absorbing = self.absorbing();
        let neutral = self.neutral();
        if a == b || a == absorbing || b == neutral {
            Some(a)
        } else if b == absorbing || a == neutral {
            Some(b)
        } else {
            None
        }
    }
}

/// The connective of two conditions, by halves: each pair of branches is visited once.
pub(crate) fn combine(
    nodes: &mut Nodes,
    results: &mut Results,
    connective: Connective,
    a: Cond,
    b: Cond,
) -> Result<Cond, AllocError>
    requires reduced { IsReduced nodes.old }
    requires answers { AreAnswers connective (newest_first nodes.old) results.old }
    requires first { a.index < top (newest_first nodes.old) }
    requires second { b.index < top (newest_first nodes.old) }

    ensures grows { Grows connective nodes.old nodes.new results.old results.new a b }
    ensures answer { IfOk result (IsAnswer connective (newest_first nodes.new) a b) }
{
    if let Some(answer) = connective.shortcut(a, b) {
        return Ok(answer);
    }
    if let Some(answer) = results.find(a, b) {
        return Ok(answer);
    }
    let variable = nodes.level(a).min(nodes.level(b));
    let (a_low, a_high) = nodes.halves(a, variable);
    let (b_low, b_high) = nodes.halves(b, variable);
    let low = combine(nodes, results, connective, a_low, b_low)?;
    let high = combine(nodes, results, connective, a_high, b_high)?;
    let halves = Decision {
        variable,
        low,
        high,
    };
    enter(nodes, results, connective, a, b, halves)
}

/// Makes the answer of its two halves, and keeps it.
fn enter(
    nodes: &mut Nodes,
    results: &mut Results,
    connective: Connective,
    a: Cond,
    b: Cond,
    halves: Decision,
) -> Result<Cond, AllocError>
    requires reduced { IsReduced nodes.old }
    requires answers { AreAnswers connective (newest_first nodes.old) results.old }
    requires first { a.index < top (newest_first nodes.old) }
    requires second { b.index < top (newest_first nodes.old) }
    requires first_branch { 2 ≤ a.index }
    requires second_branch { 2 ≤ b.index }
    requires unknown { known results.old a b ≡ None }
    requires may_branch { MayBranch nodes.old halves }
    requires meaning { (v : List Bool) →
        choice (newest_first nodes.old) halves v
        ≡ apply connective (holds_in (newest_first nodes.old) a v)
        (holds_in (newest_first nodes.old) b v) }

    ensures grows { Grows connective nodes.old nodes.new results.old results.new a b }
    ensures answer { IfOk result (IsAnswer connective (newest_first nodes.new) a b) }
{
    results.make_room()?;
    let answer = nodes.branch(halves)?;
    results.record(a, b, answer);
    Ok(answer)
}
