//! Expansions in each configuration of three options, whose tokens are worked out by hand. Bit i of
//! a configuration's number says whether option i is on.
ghost use Rattle.std.specs.Prelude.{◌≡◌, IfOk, List, length};
ghost use Rattle.hv_cond.specs.Diagram.{AllNodes};
ghost use Rattle.hv_expand.specs.Outcomes.{conditions};
ghost use Rattle.hv_expand_bench.specs.Families.{IsFamily};

use crate::bodies::{cut, function, object};
use crate::conditions::Literal;
use crate::family::Family;
use crate::works::{Answer, Work, run};
use hv_base::{List, Memory, Text};
use hv_cond::Store;
use hv_expand::{ExpandFault, Expanded, Outcome, RunEnd};
use std::alloc::Global;
use std::process::Abort;
use std::test::Fail;

mod plain;

/// A macro: its name, its parameters where it is function-like, its replacement list, and where it
/// is defined.
type Definition = (
    &'static str,
    Option<&'static [&'static str]>,
    &'static str,
    &'static [Literal],
);

/// An expansion: the end of the run, its text, the position where the episode begins, how many
/// outcomes there are, and what each configuration gives: the tokens or the name of the refusal,
/// and the position where it goes on.
type Row = (RunEnd, &'static str, usize, usize, [&'static str; 8]);

fn family_of(alloc: Global, definitions: &[Definition]) -> Result<Family, Memory>
    ensures { IfOk result IsFamily }
{
    let mut family = Family::new(alloc, 3)?;
    for definition in definitions {
        let (name, params, text, under) = *definition;
        let body = match params {
            None => object(alloc, text.as_bytes())?,
            Some(names) => function(alloc, names, text.as_bytes())?,
        };
        family.define(name, under, body)?;
    }
    Ok(family)
}

/// The outcome of the configuration in which the options have these values.
fn outcome_in<'a>(store: &Store, outcomes: &'a [Outcome], values: &[bool]) -> Option<&'a Outcome>
    requires nodes { AllNodes store.now (conditions outcomes.now) }
    requires values { length values.now ≡ store.now.variables }
{
    for outcome in outcomes {
        if store.eval(outcome.cond, values) {
            return Some(outcome);
        }
    }
    None
}

/// An outcome as it stands in a row.
fn row_of(alloc: Global, found: &Expanded, end: usize) -> Result<Text, Memory> {
    let mut text: Text = List::new(alloc);
    match found {
        Expanded::Tokens(tokens) => {
            for token in tokens.as_slice() {
                text.extend_from_slice(token.text.as_slice())?;
                text.add(b' ')?;
            }
        }
        Expanded::Fails(why) => {
            text.extend_from_slice(why.name().as_bytes())?;
            text.add(b' ')?;
        }
    }
    let end = format!(in alloc; "@{end}")?;
    text.extend_from_slice(end.as_bytes())?;
    Ok(text)
}

/// How many outcomes there are, and the row of each configuration.
fn rows_of(
    alloc: Global,
    family: &mut Family,
    ends: RunEnd,
    run: &str,
    at: usize,
) -> Result<(usize, List<Text>), Fail>
    requires { IsFamily family.old }
    ensures { IsFamily family.new }
{
    let tokens = cut(alloc, run.as_bytes())?;
    let outcomes = match family.expand(ends, tokens.as_slice(), at, None) {
        Ok(outcomes) => outcomes,
        Err(ExpandFault::TooMany { .. }) => return Err(Fail::from("too many faces")),
        Err(ExpandFault::Memory) => return Err(Fail::from("out of memory")),
    };
    if family.options != 3 {
        return Err(Fail::from("three options"));
    }
    let mut rows = List::new(alloc);
    for number in 0..8u32 {
        let values = [number & 1 != 0, number & 2 != 0, number & 4 != 0];
        if let Some(outcome) = outcome_in(&family.store, outcomes.as_slice(), &values) {
            rows.add(row_of(alloc, &outcome.result, outcome.end)?)?;
        }
    }
    Ok((outcomes.len(), rows))
}

fn assert_rows<R: Abort>(
    rt: &R,
    alloc: Global,
    definitions: &[Definition],
    rows: &[Row],
) -> Result<(), Fail> {
    let mut family = family_of(alloc, definitions)?;
    for row in rows {
        let (ends, run, at, count, wanted) = *row;
        let (found_count, found) = rows_of(alloc, &mut family, ends, run, at)?;
        assert_eq!(rt; found_count, count, "outcomes of {run}");
        assert_wanted(rt, run, found.as_slice(), &wanted);
        let plain = plain::rows_of(alloc, definitions, ends, run, at)?;
        assert_wanted(rt, run, plain.as_slice(), &wanted);
    }
    Ok(())
}

fn assert_wanted<R: Abort>(rt: &R, run: &str, found: &[Text], wanted: &[&'static str]) {
    assert_eq!(rt; found.len(), wanted.len(), "configurations of {run}");
    for (number, (text, row)) in found.iter().zip(wanted).enumerate() {
        assert!(rt;
            text.is_text(row.as_bytes()),
            "{run} in configuration {number}"
        );
    }
}

const CHOICES: [Definition; 7] = [
    ("X", None, "1", &[(0, true)]),
    ("X", None, "2 + Y", &[(0, false), (1, true)]),
    ("Y", None, "3", &[(2, true)]),
    ("F", Some(&["a"]), "a a", &[(1, true)]),
    ("F", None, "7", &[(0, true), (1, false)]),
    ("S", None, "1", &[(0, true)]),
    ("S", None, "1", &[(0, false)]),
];

#[test]
fn each_configuration_has_its_own_tokens(rt: HostRuntime) -> Result<(), Fail> {
    assert_rows(
        &rt,
        rt.alloc(),
        &CHOICES,
        &[
            (
                RunEnd::FileEnd,
                "X",
                0,
                4,
                [
                    "X @1", "1 @1", "2 + Y @1", "1 @1", "X @1", "1 @1", "2 + 3 @1", "1 @1",
                ],
            ),
            (
                RunEnd::FileEnd,
                "F(X) ;",
                0,
                5,
                [
                    "F @1",
                    "7 @1",
                    "2 + Y 2 + Y @4",
                    "1 1 @4",
                    "F @1",
                    "7 @1",
                    "2 + 3 2 + 3 @4",
                    "1 1 @4",
                ],
            ),
            // The tokens are one, the definitions are two.
            (
                RunEnd::Directive,
                "S",
                0,
                2,
                [
                    "1 @1", "1 @1", "1 @1", "1 @1", "1 @1", "1 @1", "1 @1", "1 @1",
                ],
            ),
        ],
    )
}

const ONE_MOVE: [Definition; 5] = [
    ("F", Some(&["a"]), "a", &[(0, true)]),
    ("F", Some(&["a"]), "a a", &[(0, false), (2, true)]),
    ("U", Some(&["a"]), "a", &[(1, true)]),
    ("M", None, "F M U", &[]),
    ("G", Some(&["a"]), "5", &[]),
];

#[test]
fn what_is_done_alike_is_one_outcome(rt: HostRuntime) -> Result<(), Fail> {
    assert_rows(
        &rt,
        rt.alloc(),
        &ONE_MOVE,
        &[
            (RunEnd::FileEnd, "M", 0, 1, ["F M U @1"; 8]),
            (
                RunEnd::Line,
                "G(defined F || defined(U))",
                0,
                1,
                ["5 @10"; 8],
            ),
            (
                RunEnd::Line,
                "defined O0 && defined(O1)",
                0,
                4,
                [
                    "0 && 0 @7",
                    "1 && 0 @7",
                    "0 && 1 @7",
                    "1 && 1 @7",
                    "0 && 0 @7",
                    "1 && 0 @7",
                    "0 && 1 @7",
                    "1 && 1 @7",
                ],
            ),
        ],
    )?;
    let answer = run(rt.alloc(), Work::WithoutParenthesis, 60)?;
    let wanted = Answer::Outcomes {
        outcomes: 1,
        tokens: 60,
        refused: 0,
    };
    assert_eq!(rt; answer, wanted, "sixty names without a parenthesis");
    Ok(())
}

const REFUSED: [Definition; 6] = [
    ("glue", Some(&["a", "b"]), "a ## b", &[(0, true)]),
    ("eight", Some(&["a"]), "a a a a a a a a", &[(0, true)]),
    ("f", Some(&["a"]), "f(x * (a))", &[]),
    ("g", None, "f", &[(0, true)]),
    ("x", None, "2", &[]),
    ("t", Some(&["a"]), "a", &[]),
];

/// What configurations give in which option 0 is off, and in which it is on.
const fn by_turns(off: &'static str, on: &'static str) -> [&'static str; 8] {
    [off, on, off, on, off, on, off, on]
}

#[test]
fn refusals_go_on_where_the_episode_began(rt: HostRuntime) -> Result<(), Fail> {
    assert_rows(
        &rt,
        rt.alloc(),
        &REFUSED,
        &[
            (
                RunEnd::FileEnd,
                "; glue(+, x)",
                1,
                2,
                by_turns("glue @2", "BadPaste @1"),
            ),
            (
                RunEnd::FileEnd,
                "; glue(1",
                1,
                2,
                by_turns("glue @2", "BadInvocation @1"),
            ),
            (
                RunEnd::Directive,
                "; glue(1",
                1,
                2,
                by_turns("glue @2", "DirectiveInArguments @1"),
            ),
            (
                RunEnd::Directive,
                "; glue",
                1,
                2,
                by_turns("glue @2", "DirectiveInArguments @1"),
            ),
            (
                RunEnd::FileEnd,
                "eight(eight(eight(eight(eight(eight(y))))))",
                0,
                2,
                by_turns("eight @1", "EpisodeTooLong @0"),
            ),
            (
                RunEnd::FileEnd,
                "t(t(g)(0) + t)(1)",
                0,
                2,
                by_turns("g ( 0 ) + t @12", "f ( 2 * ( 0 ) ) + t @12"),
            ),
        ],
    )
}
