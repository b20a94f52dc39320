//! The works that can be asked for.
ghost use Rattle.std.specs.Prelude.{IfOk};
ghost use Rattle.hv_expand_bench.specs.Families.{IsFamily};

use crate::bodies::{cut, function, object, repeated};
use crate::family::Family;
use hv_base::{List, Memory, Text};
use hv_expand::{ExpandFault, Expanded, Outcome, RunEnd};
use std::alloc::Global;
use std::fmt;

/// How many options the families have whose outcomes are counted.
const FACE_OPTIONS: u32 = 11;

/// What is expanded.
#[derive(Clone, Copy, PartialEq, Eq, Debug)]
pub enum Work {
    /// An object-like macro of N tokens, so N events and one more.
    Events,
    /// `f(f(..(x)..))`, N calls deep, where `f(x)` is `x`; twice N events and one more.
    Nested,
    /// An episode of some 20 events, under the first N configurations of eleven options, each of
    /// which has a face of its own.
    Faces,
    /// A macro of N names, each a function-like macro under an option of its own, without a `(`.
    WithoutParenthesis,
}

/// What an expansion comes to.
#[derive(Clone, Copy, PartialEq, Eq, Debug)]
pub enum Answer {
    Outcomes {
        outcomes: usize,
        /// Of all outcomes together.
        tokens: u64,
        /// How many outcomes are refused.
        refused: u64,
    },
    /// There are too many faces; so many conditions differ in face.
    TooMany(usize),
}

impl Work {
    /// The work of this name.
    pub fn from_name(name: &str) -> Option<Work> {
        match name {
            "events" => Some(Work::Events),
            "nested" => Some(Work::Nested),
            "faces" => Some(Work::Faces),
            "without-parenthesis" => Some(Work::WithoutParenthesis),
            _ => None,
        }
    }

    /// The name of this work.
    pub fn name(self) -> &'static str {
        match self {
            Work::Events => "events",
            Work::Nested => "nested",
            Work::Faces => "faces",
            Work::WithoutParenthesis => "without-parenthesis",
        }
    }
}

impl fmt::Display for Answer {
    fn fmt<W: fmt::Write>(&self, f: &mut fmt::Formatter<W>) -> fmt::Result {
        match self {
            Answer::Outcomes {
                outcomes,
                tokens,
                refused,
            } => write!(f, "outcomes {outcomes}, tokens {tokens}, refused {refused}"),
            Answer::TooMany(conditions) => write!(f, "too many faces, {conditions} conditions"),
        }
    }
}

/// What a work comes to.
pub fn run(alloc: Global, work: Work, n: u32) -> Result<Answer, Memory> {
    match work {
        Work::Events => events(alloc, n),
        Work::Nested => nested(alloc, n),
        Work::Faces => faces(alloc, n),
        Work::WithoutParenthesis => without_parenthesis(alloc, n),
    }
}

/// Counts what outcomes have.
fn count(outcomes: &[Outcome]) -> Answer {
    let mut tokens: u64 = 0;
    let mut refused: u64 = 0;
    for outcome in outcomes {
        match &outcome.result {
            Expanded::Tokens(given) => tokens = tokens.wrapping_add(given.len() as u64),
            Expanded::Fails(_) => refused = refused.wrapping_add(1),
        }
    }
    Answer::Outcomes {
        outcomes: outcomes.len(),
        tokens,
        refused,
    }
}

/// What the first episode of a file comes to in the configurations whose number is below a limit,
/// or in all.
fn expanded(
    alloc: Global,
    family: &mut Family,
    text: &[u8],
    limit: Option<u32>,
) -> Result<Answer, Memory>
    requires { IsFamily family.old }
{
    let run = cut(alloc, text)?;
    match family.expand(RunEnd::FileEnd, run.as_slice(), 0, limit) {
        Ok(outcomes) => Ok(count(outcomes.as_slice())),
        Err(ExpandFault::TooMany { conds }) => Ok(Answer::TooMany(conds.len())),
        Err(ExpandFault::Memory) => Err(Memory),
    }
}

fn events(alloc: Global, n: u32) -> Result<Answer, Memory> {
    let mut family = Family::new(alloc, 1)?;
    let text = repeated(alloc, "a ", n)?;
    family.define("M", &[], object(alloc, text.as_slice())?)?;
    expanded(alloc, &mut family, b"M", None)
}

fn nested(alloc: Global, n: u32) -> Result<Answer, Memory> {
    let mut family = Family::new(alloc, 1)?;
    family.define("f", &[], function(alloc, &["x"], b"x")?)?;
    let mut text = repeated(alloc, "f(", n)?;
    text.add(b'x')?;
    let closing = repeated(alloc, ")", n)?;
    text.extend_from_slice(closing.as_slice())?;
    expanded(alloc, &mut family, text.as_slice(), None)
}

/// A family of so many options, with a macro `M` of the names `X0`, `X1` and so on, each of which
/// is a macro of this body where its option is on, and a text after them.
fn with_names(
    alloc: Global,
    options: u32,
    params: Option<&[&str]>,
    after: &str,
) -> Result<Family, Memory>
    ensures { IfOk result IsFamily }
{
    let mut family = Family::new(alloc, options)?;
    let mut text: Text = List::new(alloc);
    for i in 0..options {
        let name = format!(in alloc; "X{i}")?;
        let body = match params {
            Some(names) => function(alloc, names, b"1")?,
            None => object(alloc, b"1")?,
        };
        family.define(name.as_str(), &[(i, true)], body)?;
        text.extend_from_slice(name.as_bytes())?;
        text.add(b' ')?;
    }
    text.extend_from_slice(after.as_bytes())?;
    family.define("M", &[], object(alloc, text.as_slice())?)?;
    Ok(family)
}

fn faces(alloc: Global, n: u32) -> Result<Answer, Memory> {
    let mut family = with_names(alloc, FACE_OPTIONS, None, "+ + +")?;
    expanded(alloc, &mut family, b"M", Some(n))
}

fn without_parenthesis(alloc: Global, n: u32) -> Result<Answer, Memory> {
    let mut family = with_names(alloc, n, Some(&["x"]), "")?;
    expanded(alloc, &mut family, b"M", None)
}
