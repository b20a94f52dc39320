//! Rows by the plain function, which knows one configuration, and examples of the standard.
use super::{Definition, row_of};
use crate::bodies::{cut, function, object};
use crate::conditions::Literal;
use crate::family::begin_of;
use hv_base::{List, Memory, Place, Text};
use hv_expand::{Entry, Expanded, RunEnd, plain_episode};
use hv_toks::{Body, Meaning, PpTok};
use std::alloc::Global;
use std::process::Abort;
use std::rc::Rc;
use std::test::Fail;

/// A definition that stands at this offset of file 0.
fn entry(alloc: Global, name: &str, offset: u64, body: Body) -> Result<Entry, Memory> {
    let place = Place {
        stack: List::new(alloc),
        file: 0,
        offset,
    };
    Ok(Entry {
        name: Text::from_slice(alloc, name.as_bytes())?,
        meaning: Meaning::Defined {
            place,
            body: Rc::new(alloc, body)?,
        },
    })
}

/// Whether the options have the values that all of these ask for.
fn are_true(literals: &[Literal], values: &[bool; 3]) -> bool {
    for (option, is_on) in literals {
        if values.get(*option as usize) != Some(is_on) {
            return false;
        }
    }
    true
}

/// What names mean where the options have these values.
fn entries_in(
    alloc: Global,
    definitions: &[Definition],
    values: &[bool; 3],
) -> Result<List<Entry>, Memory> {
    let mut entries = List::new(alloc);
    for (name, is_on) in ["O0", "O1", "O2"].iter().zip(values) {
        if *is_on {
            entries.add(entry(alloc, name, 0, object(alloc, b"1")?)?)?;
        }
    }
    for (number, definition) in definitions.iter().enumerate() {
        let (name, params, text, under) = *definition;
        let body = match params {
            None => object(alloc, text.as_bytes())?,
            Some(names) => function(alloc, names, text.as_bytes())?,
        };
        if are_true(under, values) {
            entries.add(entry(alloc, name, number as u64, body)?)?;
        }
    }
    Ok(entries)
}

/// The row of each configuration of three options.
pub(crate) fn rows_of(
    alloc: Global,
    definitions: &[Definition],
    ends: RunEnd,
    run: &str,
    at: usize,
) -> Result<List<Text>, Fail> {
    let tokens = cut(alloc, run.as_bytes())?;
    let at = begin_of(ends, at);
    if at >= tokens.len() {
        return Err(Fail::from("the run is shorter"));
    }
    let mut rows = List::new(alloc);
    for number in 0..8u32 {
        let values = [number & 1 != 0, number & 2 != 0, number & 4 != 0];
        let entries = entries_in(alloc, definitions, &values)?;
        let ending = plain_episode(alloc, entries.as_slice(), tokens.as_slice(), ends, at)?;
        rows.add(row_of(alloc, &ending.result, ending.end)?)?;
    }
    Ok(rows)
}

/// Adds the tokens that the episode at a position of a file gives, and says where it goes on.
fn add_episode(
    alloc: Global,
    entries: &[Entry],
    run: &[PpTok],
    at: usize,
    text: &mut Text,
) -> Result<usize, Fail> {
    if at >= run.len() {
        return Ok(at);
    }
    let ending = plain_episode(alloc, entries, run, RunEnd::FileEnd, at)?;
    let Expanded::Tokens(tokens) = &ending.result else {
        return Err(Fail::from("a refusal"));
    };
    for token in tokens.as_slice() {
        text.extend_from_slice(token.text.as_slice())?;
        text.add(b' ')?;
    }
    Ok(ending.end)
}

/// The tokens of a file, each with a blank after it.
fn expanded(alloc: Global, definitions: &[Definition], file: &str) -> Result<Text, Fail> {
    let entries = entries_in(alloc, definitions, &[false; 3])?;
    let run = cut(alloc, file.as_bytes())?;
    let mut text: Text = List::new(alloc);
    let mut at = 0;
    for _ in 0..run.len() {
        at = add_episode(alloc, entries.as_slice(), run.as_slice(), at, &mut text)?;
    }
    Ok(text)
}

/// ISO/IEC 9899:1999, 6.10.3.5, paragraph 5 (example 3).
const CALLS: [Definition; 12] = [
    ("x", None, "2", &[]),
    ("f", Some(&["a"]), "f(x * (a))", &[]),
    ("g", None, "f", &[]),
    ("z", None, "z[0]", &[]),
    ("h", None, "g(~", &[]),
    ("m", Some(&["a"]), "a(w)", &[]),
    ("w", None, "0,1", &[]),
    ("t", Some(&["a"]), "a", &[]),
    ("p", Some(&[]), "int", &[]),
    ("q", Some(&["x"]), "x", &[]),
    ("r", Some(&["x", "y"]), "x ## y", &[]),
    ("str", Some(&["x"]), "# x", &[]),
];

/// Paragraphs 6, 7 and 9 (examples 4, 5 and 7).
const STRINGS: [Definition; 9] = [
    ("str", Some(&["s"]), "# s", &[]),
    ("xstr", Some(&["s"]), "str(s)", &[]),
    ("INCFILE", Some(&["n"]), "vers ## n", &[]),
    ("glue", Some(&["a", "b"]), "a ## b", &[]),
    ("xglue", Some(&["a", "b"]), "glue(a, b)", &[]),
    ("HIGHLOW", None, "\"hello\"", &[]),
    ("LOW", None, "LOW \", world\"", &[]),
    ("showlist", Some(&["..."]), "puts(#__VA_ARGS__)", &[]),
    (
        "report",
        Some(&["test", "..."]),
        "((test) ? puts(#test) : printf(__VA_ARGS__))",
        &[],
    ),
];

/// Paragraph 7 (example 5): an empty argument beside `##` leaves nothing.
const EMPTY: [Definition; 1] = [("t", Some(&["x", "y", "z"]), "x ## y ## z", &[])];

/// A file, and the tokens that are left of it.
type Example = (&'static str, &'static str);

/// The tokens that paragraph 5 gives.
const CALLS_LEFT: [Example; 4] = [
    (
        "f(y+1) + f(f(z)) % t(t(g)(0) + t)(1);",
        "f ( 2 * ( y + 1 ) ) + f ( 2 * ( f ( 2 * ( z [ 0 ] ) ) ) ) \
         % f ( 2 * ( 0 ) ) + t ( 1 ) ; ",
    ),
    (
        "g(x+(3,4)-w) | h 5) & m\n(f)^m(m);",
        "f ( 2 * ( 2 + ( 3 , 4 ) - 0 , 1 ) ) | f ( 2 * ( ~ 5 ) ) & f ( 2 * ( 0 , 1 ) ) \
         ^ m ( 0 , 1 ) ; ",
    ),
    (
        "p() i[q()] = { q(1), r(2,3), r(4,), r(,5), r(,) };",
        "int i [ ] = { 1 , 23 , 4 , 5 , } ; ",
    ),
    ("c = { str(hello), str() };", "c = { \"hello\" , \"\" } ; "),
];

/// The tokens that paragraphs 6 and 9 give.
const STRINGS_LEFT: [Example; 3] = [
    (
        "xstr(strncmp(\"abc\\0d\", '\\4') == 0) xstr(INCFILE(2).h) str(: @\\n)",
        "\"strncmp(\\\"abc\\\\0d\\\", '\\\\4') == 0\" \"vers2.h\" \": @\\n\" ",
    ),
    (
        "glue(HIGH, LOW); xglue(HIGH, LOW)",
        "\"hello\" ; \"hello\" \", world\" ",
    ),
    (
        "showlist(The first, second.); report(x>y, \"%d, %d\", x, y)",
        "puts ( \"The first, second.\" ) ; ( ( x > y ) ? puts ( \"x>y\" ) \
         : printf ( \"%d, %d\" , x , y ) ) ",
    ),
];

/// The tokens that paragraph 7 gives.
const EMPTY_LEFT: [Example; 1] = [(
    "t(1,2,3), t(,4,5), t(6,,7), t(8,9,), t(10,,), t(,11,), t(,,12), t(,,)",
    "123 , 45 , 67 , 89 , 10 , 11 , 12 , ",
)];

/// Each file has the tokens that are said.
fn assert_examples(
    rt: &impl Abort,
    alloc: Global,
    definitions: &[Definition],
    examples: &[Example],
) -> Result<(), Fail> {
    for (file, wanted) in examples {
        let found = expanded(alloc, definitions, file)?;
        assert!(rt; found.is_text(wanted.as_bytes()), "{file}");
    }
    Ok(())
}

#[test]
fn examples_of_the_standard(rt: HostRuntime) -> Result<(), Fail> {
    assert_examples(&rt, rt.alloc(), &CALLS, &CALLS_LEFT)?;
    assert_examples(&rt, rt.alloc(), &STRINGS, &STRINGS_LEFT)?;
    assert_examples(&rt, rt.alloc(), &EMPTY, &EMPTY_LEFT)
}
