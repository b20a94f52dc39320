//! The parts of a macro's replacement list (ISO/IEC 9899:1999, 6.10.3.1 to 6.10.3.3).
ghost use Rattle.std.specs.Prelude.{◌≡◌, ◌<◌, ◌∷◌, ◌++◌, [], ℕ, List, Bool, Option, length, map, IfOk, OnSome};
ghost use Rattle.hv_plain.specs.episode.Bodies as bodies;
ghost use Rattle.hv_rescan.specs.Values.{operand_of, part_of};
ghost use Rattle.hv_rescan.specs.working.Steps.{before_of, parameters_of, quoted_after};
ghost use Rattle.hv_toks.specs.Spelled.{spelled};

use hv_base::{Memory, Stack, Text};
use hv_toks::{Body, PpKind, PpTok};
use std::alloc::Global;
use std::rc::Rc;

/// What stands for itself or for an argument that isn't expanded.
#[derive(Debug, Drop)]
pub enum Operand {
    Token {
        kind: PpKind,
        text: Rc<Text>,
        space: bool,
    },
    Parameter {
        index: usize,
        space: bool,
    },
    /// `#` and a parameter (6.10.3.2).
    Str {
        index: usize,
        space: bool,
    },
}

#[derive(Debug, Drop)]
pub enum Part {
    /// A parameter that stands neither beside `##` nor after `#` (6.10.3.1).
    Expanded { index: usize, space: bool },
    /// An operand that no `##` stands before.
    Single(Operand),
    /// An operand after `##` (6.10.3.3).
    Joined(Operand),
}

/// The parameters of a macro; `__VA_ARGS__` is the last of a variadic one.
#[derive(Clone, Copy)]
struct Parameters<'a> {
    names: &'a [Text],
    variadic: bool,
}

/// What stands before a token of a replacement list.
#[derive(Clone, Copy)]
enum Before {
    Nothing,
    Part,
    /// A part and `##`.
    Paste,
}

/// The index of the text among texts.
fn index_in(names: &[Text], name: &[u8]) -> Option<usize>
    ensures { result ≡ bodies.index_of names.now name.now }
{
    for (i, own) in names.iter().enumerate() {
        if own.as_slice() == name {
            return Some(i);
        }
    }
    None
}

impl<'a> Parameters<'a> {
    fn of(body: &'a Body) -> Parameters<'a>
        ensures { parameters_of result ≡ bodies.parameters body.now }
    {
        match body {
            Body::Object { .. } => Parameters {
                names: &[],
                variadic: false,
            },
            Body::Function {
                params,
                variadic,
                ..
            } => Parameters {
                names: params.as_slice(),
                variadic: *variadic,
            },
        }
    }

    /// The index of the parameter of this name.
    fn index_of(self, name: &[u8]) -> Option<usize>
        ensures { result ≡ bodies.index_of (parameters_of self.entry) name.now }
    {
        if let Some(i) = index_in(self.names, name) {
            return Some(i);
        }
        if self.variadic && b"__VA_ARGS__".as_slice() == name {
            return Some(self.names.len());
        }
        None
    }

    /// The parameter that the operator `#` stands before, where these tokens follow it.
    fn quoted_after(self, token: &PpTok, after: &[PpTok]) -> Option<usize>
        ensures value { result ≡ quoted_after (parameters_of self.entry) token.now after.now }
        ensures within { OnSome result (0 < length after.now) }
    {
        let [next, ..] = after else {
            return None;
        };
        if token.text.as_slice() != b"#".as_slice() {
            return None;
        }
        self.index_of(next.text.as_slice())
    }

    /// A token that is no operator.
    fn token_part(
        self,
        alloc: Global,
        before: Before,
        token: &PpTok,
        after: &[PpTok],
    ) -> Result<Part, Memory>
        ensures { IfOk result (λ part. part_of part
            ≡ bodies.token_part (parameters_of self.entry) (before_of before) token.now after.now) }
    {
        if let Some(index) = self.index_of(token.text.as_slice()) {
            return Ok(parameter_part(before, after, index, token.space));
        }
        let text = Text::from_slice(alloc, token.text.as_slice())?;
        let operand = Operand::Token {
            kind: token.kind,
            text: Rc::new(alloc, text)?,
            space: token.space,
        };
        Ok(operand_part(before, operand))
    }
}

/// Whether the token is the operator `##`, where these tokens follow it.
fn pastes(before: Before, token: &PpTok, after: &[PpTok]) -> bool
    ensures { result ≡ bodies.pastes (before_of before) token.now after.now }
{
    match before {
        Before::Part => token.text.as_slice() == b"##".as_slice() && !after.is_empty(),
        Before::Nothing | Before::Paste => false,
    }
}

/// Whether the operator `##` follows.
fn paste_follows(after: &[PpTok]) -> bool
    ensures { result ≡ bodies.paste_follows after.now }
{
    match after {
        [] => false,
        [token, after @ ..] => pastes(Before::Part, token, after),
    }
}

/// An operand, and whether `##` stands before it.
fn operand_part(before: Before, operand: Operand) -> Part
    ensures { part_of result ≡ bodies.part (before_of before) (operand_of operand) }
{
    match before {
        Before::Nothing | Before::Part => Part::Single(operand),
        Before::Paste => Part::Joined(operand),
    }
}

/// A parameter, after this and before these tokens.
fn parameter_part(before: Before, after: &[PpTok], index: usize, space: bool) -> Part
    ensures { part_of result ≡ bodies.parameter_part (before_of before) after.now index space }
{
    match before {
        Before::Paste => Part::Joined(Operand::Parameter { index, space }),
        Before::Nothing | Before::Part => {
            if paste_follows(after) {
                Part::Single(Operand::Parameter { index, space })
            } else {
                Part::Expanded { index, space }
            }
        }
    }
}

/// The replacement list of a macro.
fn replacement(body: &Body) -> &[PpTok]
    ensures { result.now ≡ bodies.replacement body.now }
{
    match body {
        Body::Object { body } => body.as_slice(),
        Body::Function { body, .. } => body.as_slice(),
    }
}

/// The parts of a replacement list, in order.
fn parts_of(
    alloc: Global,
    parameters: Parameters<'_>,
    tokens: &[PpTok],
) -> Result<Vec<Part>, Memory>
    ensures { IfOk result (λ parts. map part_of parts.items
        ≡ bodies.parts_after (parameters_of parameters.entry) bodies.nothing tokens.now) }
{
    let mut parts = Vec::new(alloc);
    let mut before = Before::Nothing;
    let mut rest = tokens;
    while let [token, after @ ..] = rest {
        rest = after;
        if pastes(before, token, after) {
            before = Before::Paste;
            continue;
        }
        if let Some(index) = parameters.quoted_after(token, after) {
            let space = token.space;
            parts.push(operand_part(before, Operand::Str { index, space }))?;
            rest = &after[1..];
        } else {
            parts.push(parameters.token_part(alloc, before, token, after)?)?;
        }
        before = Before::Part;
    }
    Ok(parts)
}

/// The parts of a macro's replacement list.
pub(crate) fn parts(alloc: Global, body: &Body) -> Result<Stack<Part>, Memory>
    ensures { IfOk result (λ parts. map part_of parts ≡ bodies.parts body.now) }
{
    let mut cut = parts_of(alloc, Parameters::of(body), replacement(body))?;
    let mut parts = Stack::new(alloc);
    while let Some(part) = cut.pop() {
        parts.push(part)?;
    }
    Ok(parts)
}
