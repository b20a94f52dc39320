//! Open groups, each with what a line below it needs.
ghost use Rattle.std.specs.Prelude.{◌≡◌, ◌≤◌, ◌<◌, ◌∷◌, Bool, List, ℕ, cond, false, IsTrue, IfOk, OnOk};
ghost use Rattle.std.specs.List.{list_any};
ghost use Rattle.hv_cond.specs.Diagram.{IsNode, Keeps, holds, value_of};
ghost use Rattle.hv_plain.specs.Source as source;
ghost use Rattle.hv_plain.specs.Source.{SourceLine};
ghost use Rattle.hv_encode.specs.working.Lines.{plain};
ghost use Rattle.hv_encode.specs.working.Lift as lifting;
ghost use Rattle.hv_encode.specs.working.Presence.{AreOpen, IsBelow, IsCondOf, elses_of, groups_of, test_reads};

use crate::small::line::BodyLine;
use crate::small::program::OptionTest;
use hv_base::{MOST_GROUPS, Memory, Stack};
use hv_cond::{Cond, Store};

/// A group, active where its test holds and the groups around it are active.
#[derive(Clone, Copy, Debug)]
pub struct Group {
    pub test: OptionTest,
    /// Whether a group around it has the same test.
    pub repeated: bool,
}

impl Group {
    /// Whether the group has this test.
    fn has_test(&self, test: OptionTest) -> bool
        ensures { result ≡ lifting.has_literal test.option test.negated self.now }
    {
        self.test.option == test.option && self.test.negated == test.negated
    }
}

/// A group that is open at a line.
#[derive(Clone, Copy, Debug)]
pub struct OpenGroup {
    pub group: Group,
    /// Whether its `#else` was seen.
    pub has_else: bool,
    /// Where it and the groups around it are active, whatever the rules of the model say.
    pub cond: Cond,
}

/// Whether one of the groups has this test.
fn is_repeated(open_groups: &[OpenGroup], test: OptionTest) -> bool
    ensures { result ≡ list_any (λ one. lifting.has_literal test.option test.negated one.group)
        open_groups.now }
{
    open_groups.iter().any(|one| one.group.has_test(test))
}

/// The condition under which all of the open groups are active.
pub fn cond_within(open_groups: &Stack<OpenGroup>, store: &Store) -> Cond
    requires { AreOpen store.now open_groups.now }
    ensures { IsCondOf store.now (groups_of open_groups.now) result }
{
    match open_groups.top() {
        Some(innermost) => innermost.cond,
        None => store.truth(),
    }
}

/// The condition under which the test holds.
fn test_cond(store: &mut Store, test: OptionTest) -> Result<Cond, Memory>
    requires option { test.option < store.old.variables }
    requires few { store.old.variables ≤ 256 }
    ensures keeps { Keeps store.old store.new }
    ensures node { IfOk result (IsNode store.new) }
    ensures meaning { IfOk result
        (λ c. (values : List Bool) → holds store.new c values ≡ test_reads values test) }
{
    let on = store.var(test.option as u32)?;
    if test.negated {
        Ok(store.not(on)?)
    } else {
        Ok(on)
    }
}

/// Opens a group within these.
fn open_group(
    open_groups: &mut Stack<OpenGroup>,
    store: &mut Store,
    test: OptionTest,
    has_else: bool,
) -> Result<(), Memory>
    requires open { AreOpen store.old open_groups.old }
    requires option { test.option < store.old.variables }
    requires few { store.old.variables ≤ 256 }
    ensures keeps { Keeps store.old store.new }
    ensures open { OnOk result (AreOpen store.new open_groups.new) }
    ensures groups { OnOk result (groups_of open_groups.new
        ≡ lifting.opened (groups_of open_groups.old) test.option test.negated
        ∷ groups_of open_groups.old) }
    ensures elses { OnOk result (elses_of open_groups.new ≡ has_else ∷ elses_of open_groups.old) }
{
    let outside = cond_within(open_groups, store);
    let own = test_cond(store, test)?;
    let cond = store.and(outside, own)?;
    let repeated = is_repeated(open_groups.as_slice(), test);
    open_groups.push(OpenGroup {
        group: Group { test, repeated },
        has_else,
        cond,
    })
}

/// Opens a group at its directive, or answers `false` where too many are open.
fn open_first(
    open_groups: &mut Stack<OpenGroup>,
    store: &mut Store,
    test: OptionTest,
) -> Result<bool, Memory>
    requires open { AreOpen store.old open_groups.old }
    requires option { test.option < store.old.variables }
    requires few { store.old.variables ≤ 256 }
    ensures keeps { Keeps store.old store.new }
    ensures open { IfOk result (λ goes. IsTrue goes → AreOpen store.new open_groups.new) }
    ensures groups { IfOk result (λ goes. IsTrue goes → groups_of open_groups.new
        ≡ lifting.opened (groups_of open_groups.old) test.option test.negated
        ∷ groups_of open_groups.old) }
    ensures nested { IfOk result (λ goes. (name : List ℕ) (rest : List SourceLine)
        → source.is_nested (elses_of open_groups.old) (source.if_defined name ∷ rest)
        ≡ cond goes (source.is_nested (elses_of open_groups.new) rest) false) }
{
    if open_groups.len() >= MOST_GROUPS {
        return Ok(false);
    }
    open_group(open_groups, store, test, false)?;
    Ok(true)
}

/// Turns the innermost group at its `#else`, or answers `false` where no group is open or its
/// `#else` was seen.
fn turn_group(open_groups: &mut Stack<OpenGroup>, store: &mut Store) -> Result<bool, Memory>
    requires open { AreOpen store.old open_groups.old }
    requires few { store.old.variables ≤ 256 }
    ensures keeps { Keeps store.old store.new }
    ensures open { IfOk result (λ goes. IsTrue goes → AreOpen store.new open_groups.new) }
    ensures groups { IfOk result (λ goes. IsTrue goes → groups_of open_groups.new
        ≡ lifting.after BodyLine.Else (groups_of open_groups.old)) }
    ensures nested { IfOk result (λ goes. (rest : List SourceLine)
        → source.is_nested (elses_of open_groups.old) (source.otherwise ∷ rest)
        ≡ cond goes (source.is_nested (elses_of open_groups.new) rest) false) }
{
    let Some(innermost) = open_groups.pop() else {
        return Ok(false);
    };
    if innermost.has_else {
        return Ok(false);
    }
    let test = OptionTest {
        option: innermost.group.test.option,
        negated: !innermost.group.test.negated,
    };
    open_group(open_groups, store, test, true)?;
    Ok(true)
}

/// Makes the open groups those after the line, or answers `false` where it may not stand within
/// these.
pub fn follow_line(
    open_groups: &mut Stack<OpenGroup>,
    store: &mut Store,
    line: BodyLine,
) -> Result<bool, Memory>
    requires open { AreOpen store.old open_groups.old }
    requires option { IsBelow store.old.variables line }
    requires few { store.old.variables ≤ 256 }
    ensures keeps { Keeps store.old store.new }
    ensures open { IfOk result (λ goes. IsTrue goes → AreOpen store.new open_groups.new) }
    ensures after { IfOk result (λ goes. IsTrue goes
        → groups_of open_groups.new ≡ lifting.after line (groups_of open_groups.old)) }
    ensures nested { IfOk result (λ goes. (names : List (List ℕ)) (rest : List SourceLine)
        → source.is_nested (elses_of open_groups.old) (plain names line ∷ rest)
        ≡ cond goes (source.is_nested (elses_of open_groups.new) rest) false) }
{
    match line {
        BodyLine::Put(_) => Ok(true),
        BodyLine::IfDefined(option) => open_first(
            open_groups,
            store,
            OptionTest {
                option,
                negated: false,
            },
        ),
        BodyLine::IfNotDefined(option) => open_first(
            open_groups,
            store,
            OptionTest {
                option,
                negated: true,
            },
        ),
        BodyLine::Else => turn_group(open_groups, store),
        BodyLine::EndIf => Ok(open_groups.pop().is_some()),
    }
}
