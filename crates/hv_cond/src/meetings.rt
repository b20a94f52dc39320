//! Whether two conditions hold together somewhere, seen without their conjunction.
ghost use Rattle.std.specs.Prelude.{◌<◌, ◌≤◌, IfOk};
ghost use Rattle.hv_cond.specs.Diagram.{top};
ghost use Rattle.hv_cond.specs.declared.connectives.Connective.TheVariants.{And};
ghost use Rattle.hv_cond.specs.working.Connectives.{AreAnswers};
ghost use Rattle.hv_cond.specs.working.Meetings.{IsMeeting};
ghost use Rattle.hv_cond.specs.working.Nodes.{newest_first, IsReduced};

use crate::conditions::Cond;
use crate::connectives::Connective;
use crate::nodes::Nodes;
use crate::results::Results;
use std::alloc::AllocError;

/// Whether some values satisfy two conditions, by halves, and no further than the first that do. A
/// pair that never holds is kept as one whose conjunction is falsity, so each is visited once.
pub(crate) fn meet(
    nodes: &Nodes,
    conjunctions: &mut Results,
    a: Cond,
    b: Cond,
) -> Result<bool, AllocError>
    requires reduced { IsReduced nodes.now }
    requires answers { AreAnswers And (newest_first nodes.now) conjunctions.old }
    requires first { a.index < top (newest_first nodes.now) }
    requires second { b.index < top (newest_first nodes.now) }

    ensures answers { AreAnswers And (newest_first nodes.now) conjunctions.new }
    ensures met { IfOk result (IsMeeting nodes.now.variables (newest_first nodes.now) a b) }
{
    if let Some(both) = Connective::And.shortcut(a, b) {
        return Ok(both != Cond::FALSITY);
    }
    if let Some(both) = conjunctions.find(a, b) {
        return Ok(both != Cond::FALSITY);
    }
    let variable = nodes.level(a).min(nodes.level(b));
    let (a_low, a_high) = nodes.halves(a, variable);
    let (b_low, b_high) = nodes.halves(b, variable);
    if meet(nodes, conjunctions, a_low, b_low)? {
        return Ok(true);
    }
    if meet(nodes, conjunctions, a_high, b_high)? {
        return Ok(true);
    }
    conjunctions.make_room()?;
    conjunctions.record(a, b, Cond::FALSITY);
    Ok(false)
}
