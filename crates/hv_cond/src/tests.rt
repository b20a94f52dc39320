//! Truth tables of three variables. Row r gives variable 0 the highest of its three bits, so rows
//! come in the order of assignments, and bit r of a table is the value there.
ghost use Rattle.std.specs.Prelude.{◌≡◌, ◌<◌, ◌≤◌, IfOk};
ghost use Rattle.hv_cond.specs.Diagram.{IsNode, Keeps};

use crate::{Cond, Node, Store};
use std::alloc::AllocError;
use std::process::Abort;
use std::test::Fail;

/// The condition that has this truth table over the variables from `i` on.
fn build(store: &mut Store, i: u32, table: u32) -> Result<Cond, AllocError>
    requires variables { store.old.variables ≡ 3 }
    requires in_range { i ≤ 3 }
    ensures keeps { Keeps store.old store.new }
    ensures node { IfOk result (IsNode store.new) }
{
    let half = match i {
        0 => 4,
        1 => 2,
        2 => 1,
        _ => return Ok(if table == 0 {
            store.falsity()
        } else {
            store.truth()
        }),
    };
    let low = build(store, i + 1, table & ((1 << half) - 1))?;
    let high = build(store, i + 1, table >> half)?;
    choose(store, i, low, high)
}

/// Variable `i` with `high`, or its complement with `low`.
fn choose(store: &mut Store, i: u32, low: Cond, high: Cond) -> Result<Cond, AllocError>
    requires in_range { i < store.old.variables }
    requires low_node { IsNode store.old low }
    requires high_node { IsNode store.old high }
    ensures keeps { Keeps store.old store.new }
    ensures node { IfOk result (IsNode store.new) }
{
    let variable = store.var(i)?;
    let when_true = store.and(variable, high)?;
    let opposite = store.not(variable)?;
    let when_false = store.and(opposite, low)?;
    store.or(when_true, when_false)
}

fn values_of(row: u32) -> [bool; 3] {
    [row & 4 != 0, row & 2 != 0, row & 1 != 0]
}

fn table_of(store: &Store, c: Cond) -> u32
    requires variables { store.now.variables ≡ 3 }
    requires node { IsNode store.now c }
{
    let mut table = 0;
    for row in 0..8 {
        if store.eval(c, &values_of(row)) {
            table |= 1 << row;
        }
    }
    table
}

/// Each truth table's condition has its table, and its first row is picked.
fn assert_tables(rt: &impl Abort, mut store: Store) -> Result<(), Fail>
    requires { store.variables ≡ 3 }
{
    for table in 0..256 {
        let c = build(&mut store, 0, table)?;
        assert_eq!(rt; table_of(&store, c), table);
        assert_eq!(rt; store.is_false(c), table == 0);
        match store.pick(c)? {
            None => assert_eq!(rt; table, 0),
            Some(found) => assert_eq!(rt;
                found.as_slice(),
                values_of(table.trailing_zeros()).as_slice()
            ),
        }
    }
    Ok(())
}

#[test]
fn truth_tables(rt: HostRuntime) -> Result<(), Fail> {
    let store = Store::new(rt.alloc(), 3)?;
    assert_tables(&rt, store)
}

#[test]
fn truth_tables_where_the_last_variable_is_first(rt: HostRuntime) -> Result<(), Fail> {
    let store = Store::ordered(rt.alloc(), 3, &[2, 7, 1, 2])?;
    assert_tables(&rt, store)
}

#[test]
fn truth_tables_where_the_middle_variable_is_first(rt: HostRuntime) -> Result<(), Fail> {
    let store = Store::ordered(rt.alloc(), 3, &[1])?;
    assert_tables(&rt, store)
}

/// Variable 0 without variable 3, or variable 1 with variable 3. By the numbers, its first
/// assignment has variables 1 and 3 true; with variable 3 tested first, only variable 0.
fn either_with_3(store: &mut Store) -> Result<Cond, AllocError>
    requires { store.old.variables ≡ 4 }
    ensures keeps { Keeps store.old store.new }
    ensures node { IfOk result (IsNode store.new) }
{
    let without = store.var(0)?;
    let with = store.var(1)?;
    choose(store, 3, without, with)
}

#[test]
fn the_least_assignment_goes_by_the_numbers(rt: HostRuntime) -> Result<(), Fail> {
    let mut store = Store::ordered(rt.alloc(), 4, &[3, 2, 1, 0])?;
    let c = either_with_3(&mut store)?;
    let Some(found) = store.pick(c)? else {
        return Err(Fail::from("a condition that holds somewhere"));
    };
    assert_eq!(rt; found.as_slice(), [false, true, false, true].as_slice());
    let Node::Branch { var, .. } = store.node(c) else {
        return Err(Fail::from("the condition is a branch"));
    };
    assert_eq!(rt; var, 3);
    Ok(())
}

#[test]
fn connectives_of_tables(rt: HostRuntime) -> Result<(), Fail> {
    let mut store = Store::new(rt.alloc(), 3)?;
    for table in 0..256 {
        let other = (table * 37 + 11) % 256;
        let a = build(&mut store, 0, table)?;
        let b = build(&mut store, 0, other)?;
        assert_eq!(rt; store.same(a, b), table == other);
        assert_eq!(rt; store.meets(a, b)?, table & other != 0);
        let both = store.and(a, b)?;
        assert_eq!(rt; table_of(&store, both), table & other);
        assert_eq!(rt; store.meets(b, a)?, table & other != 0);
        let either = store.or(a, b)?;
        assert_eq!(rt; table_of(&store, either), table | other);
        let neither = store.not(either)?;
        assert_eq!(rt; table_of(&store, neither), 255 - (table | other));
        let again = build(&mut store, 0, 255 - (table | other))?;
        assert!(rt; store.same(neither, again), "neither {table} nor {other}");
    }
    Ok(())
}

#[test]
fn nodes_of_a_variable(rt: HostRuntime) -> Result<(), Fail> {
    let mut store = Store::new(rt.alloc(), 3)?;
    let c = store.var(1)?;
    assert!(rt; matches!(store.node(store.truth()), Node::Truth));
    assert!(rt; matches!(store.node(store.falsity()), Node::Falsity));
    let Node::Branch { var, low, high } = store.node(c) else {
        return Err(Fail::from("a variable is a branch"));
    };
    assert_eq!(rt; var, 1);
    assert!(rt; store.same(low, store.falsity()));
    assert!(rt; store.same(high, store.truth()));
    Ok(())
}

#[test]
fn a_condition_without_another(rt: HostRuntime) -> Result<(), Fail> {
    let mut store = Store::new(rt.alloc(), 3)?;
    for table in 0..256 {
        let other = (table * 37 + 11) % 256;
        let a = build(&mut store, 0, table)?;
        let b = build(&mut store, 0, other)?;
        let only = store.without(a, b)?;
        assert_eq!(rt; table_of(&store, only), table & (255 - other));
    }
    Ok(())
}

#[test]
fn all_of_some_conditions(rt: HostRuntime) -> Result<(), Fail> {
    let mut store = Store::ordered(rt.alloc(), 3, &[1])?;
    let none = store.all(rt.alloc(), &[])?;
    assert!(rt; store.same(none, store.truth()));
    let a = build(&mut store, 0, 0b0111_1110)?;
    let b = build(&mut store, 0, 0b1100_1111)?;
    let c = build(&mut store, 0, 0b1111_0110)?;
    let all = store.all(rt.alloc(), &[a, b, c])?;
    assert_eq!(rt; table_of(&store, all), 0b0100_0110);
    let reversed = store.all(rt.alloc(), &[c, b, a, b])?;
    assert!(rt; store.same(all, reversed));
    Ok(())
}
