//! One episode under all configurations of a condition.
ghost use Rattle.std.specs.Prelude.{◌≡◌, ◌<◌, ◌≤◌, All, List, length, IfErr, IfOk};
ghost use Rattle.hv_base.specs.declared.limits.TheConstants.{MOST_FACES};
ghost use Rattle.hv_cond.specs.Diagram.{IsNode, Keeps};
ghost use Rattle.hv_cond.specs.Parts.{IsPartition};
ghost use Rattle.hv_faces.specs.Faces.{AreTooMany};
ghost use Rattle.hv_macros.specs.Table.{HasOneBody, IsTableOf};
ghost use Rattle.hv_expand.specs.Outcomes.{AreNumbered, HaveOneFace, IfTooMany, IsOfOneFace, IsRight, conditions};
ghost use Rattle.hv_expand.specs.working.Numbers.{fault_of, numbered};

use crate::episodes::Episodes;
use crate::lone::{lone_outcome, lone_token};
use crate::outcome::{Ending, ExpandFault, Outcome};
use hv_base::{List, Memory};
use hv_cond::{Cond, Store};
use hv_faces::{Class, ClassesFault, find_classes};
use hv_macros::MacroTable;
use hv_plain::RunEnd;
use hv_toks::PpTok;
use std::alloc::Global;

/// Outcomes of classes, numbered in order.
fn number(alloc: Global, classes: List<Class<Ending>>) -> Result<List<Outcome>, Memory>
    requires { length classes ≤ MOST_FACES }
    ensures { IfOk result (λ outcomes. outcomes ≡ numbered 0 classes) }
{
    let mut outcomes = List::new(alloc);
    let mut face = 0;
    for class in classes.into_vec() {
        let Class { cond, value } = class;
        let Ending { result, end } = value;
        outcomes.add(Outcome {
            cond,
            face,
            result,
            end,
        })?;
        face += 1;
    }
    Ok(outcomes)
}

/// The fault of finding no classes.
fn fault_of(fault: ClassesFault) -> ExpandFault
    ensures { result ≡ fault_of fault }
{
    match fault {
        ClassesFault::TooMany { conds } => ExpandFault::TooMany { conds },
        ClassesFault::Memory => ExpandFault::Memory,
    }
}

/// What the episode that begins at a position of a run comes to, in each configuration of a
/// condition: one outcome for each face. On a controlling line, whose episode begins at its first
/// token, `defined` is replaced first.
pub fn expand_episode(
    alloc: Global,
    store: &mut Store,
    table: &MacroTable,
    run: &[PpTok],
    ends: RunEnd,
    at: usize,
    cond: Cond,
) -> Result<List<Outcome>, ExpandFault>
    requires within { at < length run.now }
    requires line { ends ≡ RunEnd.Line → at ≡ 0 }
    requires cond { IsNode store.old cond }
    requires table { IsTableOf store.old table.now }
    requires one_body { HasOneBody store.old table.now }
    ensures keeps { Keeps store.old store.new }
    ensures partition { IfOk result
        (λ outcomes. IsPartition store.new cond (conditions outcomes)) }
    ensures right { IfOk result (λ outcomes.
        All (IsRight ends run.now at store.old table.now store.new) outcomes) }
    ensures by_face { IfOk result (λ outcomes.
        All (IsOfOneFace ends run.now at store.old table.now store.new cond) outcomes) }
    ensures numbers { IfOk result (λ outcomes. AreNumbered 0 outcomes) }
    ensures few { IfOk result (λ outcomes. length outcomes ≤ MOST_FACES) }
    ensures too_many { IfErr result (IfTooMany (AreTooMany store.new cond
        (HaveOneFace ends run.now at store.old table.now))) }
{
    if let Some(token) = lone_token(store, table, run, ends, at, cond) {
        let Ok(outcomes) = lone_outcome(alloc, token, at + 1, cond) else {
            return Err(ExpandFault::Memory);
        };
        return Ok(outcomes);
    }
    let episodes = Episodes {
        alloc,
        table,
        run,
        ends,
        at,
    };
    match find_classes(alloc, &episodes, store, cond) {
        Ok(classes) => match number(alloc, classes) {
            Ok(outcomes) => Ok(outcomes),
            Err(_) => Err(ExpandFault::Memory),
        },
        Err(fault) => Err(fault_of(fault)),
    }
}
