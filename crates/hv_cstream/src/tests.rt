//! A source of three options, in each of their configurations.
ghost use Rattle.std.specs.Prelude.{◌≡◌, All, length, IfOk, OnOk};
ghost use Rattle.hv_cond.specs.Diagram.{IsNode};

use super::*;
use hv_base::{Config, List, Memory, Place, Span, Text};
use hv_cond::{Cond, Store};
use hv_ctoks::{ReservedNames, spell};
use hv_given::Given;
use hv_toks::{PpKind, PpTok, Stream, project};
use std::alloc::Global;
use std::test::Fail;

/// Adds an episode that gives one token.
fn add(
    alloc: Global,
    store: &Store,
    given: &mut List<Given>,
    cond: Cond,
    offset: u64,
    kind: PpKind,
    text: &[u8],
) -> Result<(), Memory>
    requires cond { IsNode store.now cond }
    requires given { All (λ g. IsNode store.now g.cond) given.old }
    ensures { OnOk result (All (λ g. IsNode store.now g.cond) given.new) }
{
    let span = Span {
        file: 0,
        start: offset,
        end: offset,
    };
    let mut tokens = List::new(alloc);
    tokens.add(PpTok {
        kind,
        span,
        text: Text::from_slice(alloc, text)?,
        space: true,
        first: false,
    })?;
    let place = Place {
        stack: List::new(alloc),
        file: 0,
        offset,
    };
    given.add(Given {
        cond,
        place,
        face: 0,
        tokens,
    })
}

/// What a source gives in which `x`, a string and `;` always stand, another string under the first
/// option, a bad constant under the second, and a name between the strings under the third.
fn entries(alloc: Global, store: &mut Store) -> Result<List<Given>, Memory>
    requires { store.old.variables ≡ 3 }
    ensures variables { store.new.variables ≡ 3 }
    ensures nodes { IfOk result (λ given. All (λ g. IsNode store.new g.cond) given) }
{
    let always = store.truth();
    let first = store.var(0)?;
    let second = store.var(1)?;
    let third = store.var(2)?;
    let mut given = List::new(alloc);
    add(
        alloc,
        store,
        &mut given,
        always,
        0,
        PpKind::Identifier,
        b"x",
    )?;
    add(
        alloc,
        store,
        &mut given,
        first,
        1,
        PpKind::StringLiteral,
        b"\"s\"",
    )?;
    add(alloc, store, &mut given, second, 2, PpKind::Number, b"1x")?;
    add(alloc, store, &mut given, third, 3, PpKind::Identifier, b"y")?;
    add(
        alloc,
        store,
        &mut given,
        always,
        4,
        PpKind::StringLiteral,
        b"\"t\"",
    )?;
    add(
        alloc,
        store,
        &mut given,
        always,
        5,
        PpKind::Punctuator,
        b";",
    )?;
    Ok(given)
}

/// The tokens of a configuration, each in its spelling and a space after it.
fn spelled(alloc: Global, store: &Store, stream: &Stream, on: &[bool]) -> Result<Text, Memory>
    requires conditions { All (λ token. IsNode store.now token.cond) stream.now }
    requires values { length on.now ≡ store.now.variables }
{
    let config = Config {
        on: List::from_slice(alloc, on)?,
    };
    let mut text = List::new(alloc);
    for token in project(alloc, store, stream, &config)?.as_slice() {
        spell(&mut text, token)?;
        text.add(b' ')?;
    }
    Ok(text)
}

/// The tokens of a configuration, or why it is refused.
fn read(alloc: Global, on: [bool; 3]) -> Result<Text, Memory> {
    let mut store = Store::new(alloc, 3)?;
    let given = entries(alloc, &mut store)?;
    let live = store.truth();
    let parted = convert_all(
        alloc,
        &mut store,
        given.as_slice(),
        live,
        ReservedNames::Refused,
    )?;
    let stream = join_strings(alloc, &mut store, parted.good, parted.value)?;
    if store.eval(parted.good, &on) {
        return spelled(alloc, &store, &stream, &on);
    }
    match parted.failing.as_slice() {
        [only] => Text::from_slice(alloc, only.why.name().as_bytes()),
        _ => Text::from_slice(alloc, b"several causes"),
    }
}

#[test]
fn strings_are_joined_where_nothing_is_between_them(rt: HostRuntime) -> Result<(), Fail> {
    let alloc = rt.alloc();
    for (on, wanted) in [
        ([false, false, false], "x \"t\" ; "),
        ([true, false, false], "x \"st\" ; "),
        ([false, true, false], "BadConstant"),
        ([true, true, false], "BadConstant"),
        ([false, false, true], "x y \"t\" ; "),
        ([true, false, true], "x \"s\" y \"t\" ; "),
        ([false, true, true], "BadConstant"),
        ([true, true, true], "BadConstant"),
    ] {
        let text = read(alloc, on)?;
        assert!(rt; text.is_text(wanted.as_bytes()), "{wanted}");
    }
    Ok(())
}
