//! The macros that a translation unit begins with.
ghost use Rattle.std.specs.Prelude.{◌≡◌, ◌∷◌, [], Bool, List, ℕ, length, IfOk, OnOk};
ghost use Rattle.hv_cond.specs.Diagram.{IsNode, Keeps};
ghost use Rattle.hv_model.specs.Beginning.{beginning, options_from, place_in, predefined};
ghost use Rattle.hv_toks.specs.MacroState.{entries_of, meaning_after, meaning_of, number_macro, number_token};
ghost use Rattle.hv_macros.specs.Table.{HasOneBody, IsTableOf, SetsUnder, meaning_in};
ghost use Rattle.hv_toks.specs.declared.macros.Body.TheVariants.{Object};

use crate::tables::MacroTable;
use hv_base::{List, Memory, OPTIONS_FILE, PREDEFINED_FILE, Place, Span, Text};
use hv_cond::{Cond, Store};
use hv_model::Model;
use hv_toks::{Body, PpKind, PpTok};
use std::alloc::Global;
use std::rc::Rc;

/// The replacement list that is one pp-number.
fn number_body(alloc: Global, text: &[u8], file: u32, offset: u64) -> Result<Rc<Body>, Memory>
    ensures { IfOk result
        (λ body. body.value ≡ Object (number_token text.now (place_in file offset) ∷ [])) }
{
    let token = PpTok {
        kind: PpKind::Number,
        span: Span {
            file,
            start: offset,
            end: offset,
        },
        text: Text::from_slice(alloc, text)?,
        space: true,
        first: false,
    };
    let mut body = List::new(alloc);
    body.add(token)?;
    Ok(Rc::new(alloc, Body::Object { body })?)
}

/// Defines a name as a number under a condition.
fn define_number(
    alloc: Global,
    table: &mut MacroTable,
    store: &mut Store,
    name: &[u8],
    cond: Cond,
    text: &[u8],
    file: u32,
    offset: u64,
) -> Result<(), Memory>
    requires cond { IsNode store.old cond }
    requires nodes { IsTableOf store.old table.old }
    ensures keeps { Keeps store.old store.new }
    ensures nodes { IsTableOf store.new table.new }
    ensures defined { OnOk result (SetsUnder store.old store.new table.old table.new
        name.now cond (number_macro text.now (place_in file offset))) }
{
    let body = number_body(alloc, text, file, offset)?;
    let place = Place {
        stack: List::new(alloc),
        file,
        offset,
    };
    table.define(store, name, cond, place, body)
}

/// Defines each option as 1 where it is on.
fn define_options(
    alloc: Global,
    table: &mut MacroTable,
    model: &Model,
    store: &mut Store,
) -> Result<(), Memory>
    requires variables { store.old.variables ≡ length model.now.names }
    requires nodes { IsTableOf store.old table.old }
    ensures keeps { Keeps store.old store.new }
    ensures nodes { IsTableOf store.new table.new }
    ensures defined { OnOk result
        ((values : List Bool) (other : List ℕ) → meaning_in store.new table.new values other
        ≡ meaning_after (meaning_in store.old table.old values other)
        (entries_of (options_from 0 model.now.names values)) other) }
{
    for i in 0..model.options() {
        let on = store.var(i as u32)?;
        let name = model.name(i).as_bytes();
        define_number(alloc, table, store, name, on, b"1", OPTIONS_FILE, i as u64)?;
    }
    Ok(())
}

/// Defines the macros that are the same in each configuration.
fn define_predefined(alloc: Global, table: &mut MacroTable, store: &mut Store) -> Result<(), Memory>
    requires nodes { IsTableOf store.old table.old }
    ensures keeps { Keeps store.old store.new }
    ensures nodes { IsTableOf store.new table.new }
    ensures defined { OnOk result
        ((values : List Bool) (other : List ℕ) → meaning_in store.new table.new values other
        ≡ meaning_after (meaning_in store.old table.old values other)
        (entries_of predefined) other) }
{
    let file = PREDEFINED_FILE;
    let always = store.truth();
    define_number(alloc, table, store, b"__STDC__", always, b"1", file, 0)?;
    let always = store.truth();
    define_number(
        alloc,
        table,
        store,
        b"__STDC_HOSTED__",
        always,
        b"1",
        file,
        1,
    )?;
    let always = store.truth();
    define_number(
        alloc,
        table,
        store,
        b"__STDC_VERSION__",
        always,
        b"199901L",
        file,
        2,
    )
}

impl MacroTable {
    /// The macros that a translation unit begins with: each option of the model is 1 where it is
    /// on, and the predefined macros have their values. Variable i of the store is option i.
    pub fn new(alloc: Global, model: &Model, store: &mut Store) -> Result<MacroTable, Memory>
        requires { store.old.variables ≡ length model.now.names }
        ensures keeps { Keeps store.old store.new }
        ensures nodes { IfOk result (λ table. IsTableOf store.new table) }
        ensures begins { IfOk result
            (λ table. (values : List Bool) (name : List ℕ) →
            meaning_in store.new table values name
            ≡ meaning_of (entries_of (beginning model.now.names values)) name) }
        ensures one_body { IfOk result (λ table. HasOneBody store.new table) }
    {
        let mut table = MacroTable::empty(alloc);
        define_options(alloc, &mut table, model, store)?;
        define_predefined(alloc, &mut table, store)?;
        Ok(table)
    }
}
