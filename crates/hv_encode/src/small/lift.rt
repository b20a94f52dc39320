//! Lines to statements after the tests of their groups.
ghost use Rattle.std.specs.Prelude.{◌≡◌, ◌≤◌, ◌<◌, [], ◌∷◌, Bool, List, ℕ, IsTrue, IfOk, IfSome, OnOk, MatchBool, map, reverse, length, is_some, false};
ghost use Rattle.std.specs.List.{All};
ghost use Rattle.hv_cond.specs.Diagram.{IsNode, Keeps};
ghost use Rattle.hv_model.specs.Name.{are_distinct};
ghost use Rattle.hv_model.specs.Rule.{Features};
ghost use Rattle.hv_plain.specs.Program.{Statement};
ghost use Rattle.hv_plain.specs.Source.{is_nested};
ghost use Rattle.hv_encode.specs.working.Lift.{HasOptions, tests_in};
ghost use Rattle.hv_encode.specs.working.Lines.{IsKnown, plain};
ghost use Rattle.hv_encode.specs.working.Presence.{AddsPruned, AreOpen, IsAt, IsBelow, IsLifted, IsMet, groups_of};
ghost use Rattle.hv_model.specs.Valid.{IsValidIn};

use crate::small::group::{OpenGroup, cond_within, follow_line};
use crate::small::line::BodyLine;
use crate::small::program::{Block, Metaproduct, OptionTest};
use hv_base::{List, Memory, Stack, Text};
use hv_cond::{Cond, Store};
use hv_model::ModelDiagram;
use std::alloc::Global;

/// The lifting of a body, so far.
#[derive(Drop)]
pub struct Lifting {
    pub open_groups: Stack<OpenGroup>,
    /// The bytes of the statements since the last directive: all of them have one test.
    pub run: Text,
    pub blocks: List<Block>,
}

/// Whether some valid configuration meets the condition: the diagram of the rules is gone down with
/// it to the first path that both allow, and not joined with it.
fn is_met(store: &mut Store, valid: Cond, cond: Cond) -> Result<bool, Memory>
    requires valid { IsNode store.old valid }
    requires cond { IsNode store.old cond }
    ensures keeps { Keeps store.old store.new }
    ensures met { IfOk result (IsMet store.old valid cond) }
{
    Ok(store.meets(valid, cond)?)
}

/// The tests of a statement in these groups, of which the outermost comes first.
fn tests_of(alloc: Global, open_groups: &[OpenGroup]) -> Result<List<OptionTest>, Memory>
    ensures { IfOk result (λ tests. tests ≡ tests_in (groups_of (reverse open_groups.now))) }
{
    let mut tests = List::new(alloc);
    for one in open_groups {
        if !one.group.repeated {
            tests.add(one.group.test)?;
        }
    }
    Ok(tests)
}

/// Adds the statements that write these bytes in these groups, unless no valid configuration has
/// them active. The rules' diagram is asked once for all statements between two directives.
fn add_block(
    alloc: Global,
    store: &mut Store,
    valid: Cond,
    open_groups: &Stack<OpenGroup>,
    run: &Text,
    blocks: &mut List<Block>,
) -> Result<(), Memory>
    requires open { AreOpen store.old open_groups.now }
    requires valid { IsNode store.old valid }
    ensures keeps { Keeps store.old store.new }
    ensures added { OnOk result ((model : Features) → IsValidIn model store.old valid
        → IsTrue (are_distinct model.names)
        → AddsPruned model (groups_of open_groups.now) run.now blocks.old blocks.new) }
{
    if run.is_empty() {
        return Ok(());
    }
    let cond = cond_within(open_groups, store);
    if !is_met(store, valid, cond)? {
        return Ok(());
    }
    let test = tests_of(alloc, open_groups.as_slice())?;
    let bytes = run.copy(alloc)?;
    blocks.add(Block { test, bytes })
}

impl Lifting {
    /// Nothing is lifted yet.
    fn new(alloc: Global) -> Lifting
        ensures groups { result.open_groups ≡ [] }
        ensures run { result.run ≡ [] }
        ensures blocks { result.blocks ≡ [] }
    {
        Lifting {
            open_groups: Stack::new(alloc),
            run: Text::new(alloc),
            blocks: List::new(alloc),
        }
    }
}

impl Lifting {
    /// Lifts one more line, or answers `false` where it may not stand within the open groups.
    fn take_line(
        &mut self,
        alloc: Global,
        store: &mut Store,
        valid: Cond,
        line: BodyLine,
    ) -> Result<bool, Memory>
        requires open { AreOpen store.old self.old.open_groups }
        requires valid { IsNode store.old valid }
        requires option { IsBelow store.old.variables line }
        requires few { store.old.variables ≤ 256 }
        ensures keeps { Keeps store.old store.new }
        ensures goes { IfOk result (λ goes. (model : Features) (all : List Statement)
            (nested : Bool) (rest : List BodyLine) → IsValidIn model store.old valid
            → IsTrue (are_distinct model.names)
            → IsAt model store.old all nested (line ∷ rest) self.old
            → MatchBool goes (IsAt model store.new all nested rest self.new) (nested ≡ false)) }
    {
        if let BodyLine::Put(byte) = line {
            self.run.add(byte)?;
            return Ok(true);
        }
        add_block(
            alloc,
            store,
            valid,
            &self.open_groups,
            &self.run,
            &mut self.blocks,
        )?;
        self.run = Text::new(alloc);
        follow_line(&mut self.open_groups, store, line)
    }
}

/// The metaproduct of a body, or `None` where its groups don't nest.
pub fn lift(
    alloc: Global,
    diagram: &mut ModelDiagram,
    lines: &[BodyLine],
) -> Result<Option<Metaproduct>, Memory>
    requires valid { IsValidIn diagram.old.model diagram.old.store diagram.old.valid }
    requires known { All (IsKnown diagram.old.model.names) lines.now }
    ensures keeps { Keeps diagram.old.store diagram.new.store }
    ensures model { diagram.new.model ≡ diagram.old.model }
    ensures valid { diagram.new.valid ≡ diagram.old.valid }
    ensures lifted { IfOk result (λ answer. IfSome answer (IsLifted diagram.old.model lines.now)) }
    ensures options { IfOk result
        (λ answer. IfSome answer
        (λ product. All (HasOptions diagram.old.model.names) product.blocks)) }
    ensures nested { IfOk result
        (λ answer. is_some answer ≡ is_nested [] (map (plain diagram.old.model.names) lines.now)) }
{
    let _options = diagram.model.options();
    let mut lifting = Lifting::new(alloc);
    for line in lines {
        if !lifting.take_line(alloc, &mut diagram.store, diagram.valid, *line)? {
            return Ok(None);
        }
    }
    if !lifting.open_groups.is_empty() {
        return Ok(None);
    }
    add_block(
        alloc,
        &mut diagram.store,
        diagram.valid,
        &lifting.open_groups,
        &lifting.run,
        &mut lifting.blocks,
    )?;
    Ok(Some(Metaproduct {
        blocks: lifting.blocks,
    }))
}
