//! Tables over three options. Bit j of a configuration's number says whether option j is on.
ghost use Rattle.std.specs.Prelude.{◌≡◌, IfOk};
ghost use Rattle.hv_cond.specs.Diagram.{IsNode, Keeps};
ghost use Rattle.hv_macros.specs.Table.{IsTableOf};

use super::*;
use hv_base::{List, Memory, Place};
use hv_cond::{Cond, Store};
use hv_model::read_model;
use hv_toks::{PpKind, PpTok};
use std::alloc::{AllocError, Global};
use std::process::Abort;
use std::rc::Rc;
use std::test::Fail;

const MODEL: &str = "option A\noption B\noption C\n";

/// Option k, or its complement.
fn literal(store: &mut Store, k: u32, is_on: bool) -> Result<Cond, AllocError>
    requires { store.old.variables ≡ 3 }
    ensures keeps { Keeps store.old store.new }
    ensures node { IfOk result (IsNode store.new) }
{
    let on = store.var(k % 3)?;
    if is_on { Ok(on) } else { store.not(on) }
}

/// The condition that holds in configuration k alone.
fn configuration(store: &mut Store, k: u32) -> Result<Cond, AllocError>
    requires { store.old.variables ≡ 3 }
    ensures keeps { Keeps store.old store.new }
    ensures node { IfOk result (IsNode store.new) }
{
    let first = literal(store, 0, k & 1 != 0)?;
    let second = literal(store, 1, k & 2 != 0)?;
    let third = literal(store, 2, k & 4 != 0)?;
    let both = store.and(first, second)?;
    store.and(both, third)
}

/// Where option k is on, defines `X` at an offset; at offset 0 removes it.
fn set(
    alloc: Global,
    table: &mut MacroTable,
    store: &mut Store,
    k: u32,
    offset: u64,
) -> Result<(), Memory>
    requires variables { store.old.variables ≡ 3 }
    requires nodes { IsTableOf store.old table.old }
    ensures variables { store.new.variables ≡ 3 }
    ensures nodes { IsTableOf store.new table.new }
{
    let cond = store.var(k % 3)?;
    if offset == 0 {
        return table.undef(store, b"X", cond);
    }
    let place = Place {
        stack: List::new(alloc),
        file: 0,
        offset,
    };
    let body = Rc::new(
        alloc,
        Body::Object {
            body: List::new(alloc),
        },
    )?;
    table.define(store, b"X", cond, place, body)
}

/// The alternatives of a name in configuration k.
fn alternatives_in(
    table: &MacroTable,
    store: &mut Store,
    name: &[u8],
    k: u32,
) -> Result<List<Alternative>, Memory>
    requires variables { store.old.variables ≡ 3 }
    requires nodes { IsTableOf store.old table.now }
    ensures variables { store.new.variables ≡ 3 }
    ensures nodes { IsTableOf store.new table.now }
{
    let cond = configuration(store, k)?;
    table.alternatives(store, name, cond)
}

/// Where the only alternative is defined, 0 where it is no macro.
fn only_offset(parts: &[Alternative]) -> Option<u64> {
    match parts {
        [part] => match &part.meaning {
            Meaning::Undefined => Some(0),
            Meaning::Defined { place, .. } => Some(place.offset),
        },
        _ => None,
    }
}

/// Asserts where `X` is defined in each configuration, 0 standing for no macro.
fn assert_offsets<R: Abort>(
    rt: &R,
    table: &MacroTable,
    store: &mut Store,
    offsets: &[u64],
) -> Result<(), Memory>
    requires variables { store.old.variables ≡ 3 }
    requires nodes { IsTableOf store.old table.now }
    ensures variables { store.new.variables ≡ 3 }
    ensures nodes { IsTableOf store.new table.now }
{
    for k in 0..8u32 {
        let parts = alternatives_in(table, store, b"X", k)?;
        let found = only_offset(parts.as_slice());
        let wanted = offsets.get(k as usize).copied();
        assert_eq!(rt; found, wanted, "in configuration {k}");
    }
    Ok(())
}

/// A name, what it is replaced by, the file and the offset of its definition, and whether it is
/// defined.
type Row = (&'static str, &'static str, u32, u64, bool);

fn is_number(token: &PpTok, text: &str) -> bool {
    token.kind == PpKind::Number && token.text.as_slice() == text.as_bytes()
}

fn is_row(meaning: &Meaning, text: &str, file: u32, offset: u64) -> bool {
    let Meaning::Defined { place, body } = meaning else {
        return false;
    };
    let Body::Object { body } = &**body else {
        return false;
    };
    let is_there = place.stack.len() == 0 && place.file == file && place.offset == offset;
    match body.as_slice() {
        [token] => is_there && is_number(token, text),
        _ => false,
    }
}

/// Asserts what the names that a unit begins with mean in configuration k.
fn assert_beginning<R: Abort>(
    rt: &R,
    table: &MacroTable,
    store: &mut Store,
    k: u32,
) -> Result<(), Memory>
    requires variables { store.old.variables ≡ 3 }
    requires nodes { IsTableOf store.old table.now }
    ensures variables { store.new.variables ≡ 3 }
    ensures nodes { IsTableOf store.new table.now }
{
    let rows: [Row; 7] = [
        ("A", "1", 4_294_967_295, 0, k & 1 != 0),
        ("B", "1", 4_294_967_295, 1, k & 2 != 0),
        ("C", "1", 4_294_967_295, 2, k & 4 != 0),
        ("__STDC__", "1", 4_294_967_294, 0, true),
        ("__STDC_HOSTED__", "1", 4_294_967_294, 1, true),
        ("__STDC_VERSION__", "199901L", 4_294_967_294, 2, true),
        ("X", "", 0, 0, false),
    ];
    for (name, text, file, offset, is_defined) in rows {
        let parts = alternatives_in(table, store, name.as_bytes(), k)?;
        let fits = match parts.as_slice() {
            [part] if is_defined => is_row(&part.meaning, text, file, offset),
            [part] => matches!(&part.meaning, Meaning::Undefined),
            _ => false,
        };
        assert!(rt; fits, "{name} in configuration {k}");
    }
    Ok(())
}

#[test]
fn options_and_predefined_macros_are_there_from_the_start(rt: HostRuntime) -> Result<(), Fail> {
    let alloc = rt.alloc();
    let model = read_model(alloc, MODEL.as_bytes())?;
    assert_eq!(rt; model.options(), 3);
    let mut store = Store::new(alloc, 3)?;
    let table = MacroTable::new(alloc, &model, &mut store)?;
    for k in 0..8u32 {
        assert_beginning(&rt, &table, &mut store, k)?;
    }
    Ok(())
}

#[test]
fn the_latest_line_under_a_configuration_counts(rt: HostRuntime) -> Result<(), Fail> {
    let alloc = rt.alloc();
    let model = read_model(alloc, MODEL.as_bytes())?;
    assert_eq!(rt; model.options(), 3);
    let mut store = Store::new(alloc, 3)?;
    let mut table = MacroTable::new(alloc, &model, &mut store)?;
    let steps: [(u32, u64, [u64; 8]); 5] = [
        (0, 1, [0, 1, 0, 1, 0, 1, 0, 1]),
        (1, 0, [0, 1, 0, 0, 0, 1, 0, 0]),
        (2, 3, [0, 1, 0, 0, 3, 3, 3, 3]),
        (0, 4, [0, 4, 0, 4, 3, 4, 3, 4]),
        (1, 0, [0, 4, 0, 0, 3, 4, 0, 0]),
    ];
    for (k, offset, offsets) in steps {
        set(alloc, &mut table, &mut store, k, offset)?;
        assert_offsets(&rt, &table, &mut store, &offsets)?;
    }
    Ok(())
}

#[test]
fn a_name_defined_under_one_option_has_two_alternatives(rt: HostRuntime) -> Result<(), Fail> {
    let alloc = rt.alloc();
    let model = read_model(alloc, MODEL.as_bytes())?;
    assert_eq!(rt; model.options(), 3);
    let mut store = Store::new(alloc, 3)?;
    let mut table = MacroTable::new(alloc, &model, &mut store)?;
    set(alloc, &mut table, &mut store, 0, 7)?;
    let on = store.var(0)?;
    let off = store.not(on)?;
    let parts = alternatives_of(&table, &mut store, b"X")?;
    let [first, second] = parts.as_slice() else {
        return Err(Fail::from("two alternatives"));
    };
    let (defined, undefined) = if first.cond == on {
        (first, second)
    } else {
        (second, first)
    };
    assert_eq!(rt; defined.cond, on);
    assert_eq!(rt; undefined.cond, off);
    assert!(rt; matches!(&defined.meaning, Meaning::Defined { place, .. } if place.offset == 7));
    assert!(rt; matches!(&undefined.meaning, Meaning::Undefined));
    Ok(())
}

/// The alternatives of a name.
fn alternatives_of(
    table: &MacroTable,
    store: &mut Store,
    name: &[u8],
) -> Result<List<Alternative>, Memory>
    requires variables { store.old.variables ≡ 3 }
    requires nodes { IsTableOf store.old table.now }
    ensures variables { store.new.variables ≡ 3 }
    ensures nodes { IsTableOf store.new table.now }
{
    let always = store.truth();
    table.alternatives(store, name, always)
}

/// Asserts whether a name is no macro anywhere.
fn assert_no_macro<R: Abort>(rt: &R, table: &MacroTable, name: &[u8], is_none: bool) {
    assert_eq!(rt; table.is_no_macro(name), is_none);
}

/// Asserts that `X` has so many alternatives once it is set.
fn assert_counts<R: Abort>(
    rt: &R,
    alloc: Global,
    table: &mut MacroTable,
    store: &mut Store,
    steps: &[(u32, u64, usize)],
) -> Result<(), Memory>
    requires variables { store.old.variables ≡ 3 }
    requires nodes { IsTableOf store.old table.old }
{
    for (k, offset, count) in steps {
        set(alloc, table, store, *k, *offset)?;
        let found = alternatives_of(table, store, b"X")?.len();
        assert_eq!(rt; found, *count, "after option {k} at {offset}");
    }
    Ok(())
}

/// Each row sets `X` under an option, at an offset or 0 for a removal, and has how many
/// alternatives `X` has then.
#[test]
fn no_two_alternatives_have_one_meaning(rt: HostRuntime) -> Result<(), Fail> {
    let alloc = rt.alloc();
    let model = read_model(alloc, MODEL.as_bytes())?;
    assert_eq!(rt; model.options(), 3);
    let mut store = Store::new(alloc, 3)?;
    let mut table = MacroTable::new(alloc, &model, &mut store)?;
    let steps: [(u32, u64, usize); 10] = [
        (0, 0, 1),
        (1, 0, 1),
        (2, 0, 1),
        (0, 5, 2),
        (1, 6, 3),
        (2, 5, 3),
        (1, 5, 2),
        (1, 0, 2),
        (0, 0, 2),
        (2, 0, 1),
    ];
    assert_counts(&rt, alloc, &mut table, &mut store, &steps)?;
    assert_no_macro(&rt, &table, b"X", true);
    assert_no_macro(&rt, &table, b"A", false);
    Ok(())
}
