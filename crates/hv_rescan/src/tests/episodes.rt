//! Texts expanded episode by episode, with macros that are told from a list.
use crate::{Following, Machine, Pending};
use hv_base::{List, Memory, Text, Why};
use hv_lexer::lex;
use hv_plain::RunEnd;
use hv_toks::{Body, PpKind, PpTok};
use std::alloc::Global;
use std::process::Abort;
use std::rc::Rc;
use std::test::Fail;

/// A macro that a name may mean.
#[derive(Drop)]
struct Told {
    name: Text,
    body: Rc<Body>,
}

/// What expanding a text comes to: its tokens, each after a blank, or the refusal.
#[derive(Drop)]
enum Outcome {
    Tokens(Text),
    Refused(Why),
}

fn cut(alloc: Global, text: &str) -> Result<List<PpTok>, Fail> {
    match lex(alloc, 0, text.as_bytes()) {
        Ok(tokens) => Ok(tokens),
        Err(_) => Err(Fail::from("not cut")),
    }
}

/// The body of a function-like macro, from the tokens of its parameters.
fn function_like(alloc: Global, parameters: &[PpTok], body: List<PpTok>) -> Result<Body, Memory> {
    let mut params = List::new(alloc);
    let mut variadic = false;
    for token in parameters {
        if token.kind == PpKind::Identifier {
            params.add(Text::from_slice(alloc, token.text.as_slice())?)?;
        }
        variadic = variadic || token.text.is_text(b"...".as_slice());
    }
    Ok(Body::Function {
        params,
        variadic,
        body,
    })
}

/// The macro of a line as it stands after `#define`; its first blank stands before the replacement
/// list.
fn macro_of(alloc: Global, line: &str) -> Result<Told, Fail> {
    let Some((head, replacement)) = line.split_once(' ') else {
        return Err(Fail::from("no replacement list"));
    };
    let head = cut(alloc, head)?;
    let body = cut(alloc, replacement)?;
    let [name, parameters @ ..] = head.as_slice() else {
        return Err(Fail::from("no name"));
    };
    let body = match parameters {
        [] => Body::Object { body },
        _ => function_like(alloc, parameters, body)?,
    };
    Ok(Told {
        name: Text::from_slice(alloc, name.text.as_slice())?,
        body: Rc::new(alloc, body)?,
    })
}

fn macros_of(alloc: Global, lines: &[&str]) -> Result<List<Told>, Fail> {
    let mut macros = List::new(alloc);
    for line in lines {
        macros.add(macro_of(alloc, line)?)?;
    }
    Ok(macros)
}

/// The macro that a name means.
fn meaning<'a>(macros: &'a [Told], name: &[u8]) -> Option<&'a Rc<Body>> {
    for told in macros {
        if told.name.as_slice() == name {
            return Some(&told.body);
        }
    }
    None
}

/// The machine after an event, or after the answer to a question.
fn turn<'a>(machine: Machine<'a>, macros: &[Told]) -> Result<Machine<'a>, Memory> {
    match machine.pending() {
        Pending::Done | Pending::Refused(_) => Ok(machine),
        Pending::Digit { name } => {
            let is_defined = meaning(macros, name).is_some();
            machine.settle(is_defined)
        }
        Pending::Token {
            text,
            is_open: true,
            follows,
            ..
        } => match meaning(macros, text) {
            None => machine.give(),
            Some(body) => match (&**body, follows) {
                (Body::Function { .. }, Following::Otherwise) => machine.give(),
                (Body::Function { .. }, Following::Directive) => Ok(machine.stop()),
                _ => machine.use_macro(body),
            },
        },
        Pending::Token { .. } => machine.give(),
    }
}

/// The machine after all events.
fn run_on<'a>(machine: Machine<'a>, macros: &[Told]) -> Result<Machine<'a>, Memory> {
    let mut machine = machine;
    for _ in 0..100_000 {
        if let Pending::Done | Pending::Refused(_) = machine.pending() {
            return Ok(machine);
        }
        machine = turn(machine, macros)?;
    }
    Ok(machine)
}

/// Adds tokens, each after a blank.
fn add_tokens(text: &mut Text, tokens: &[PpTok]) -> Result<(), Memory> {
    for token in tokens {
        text.add(b' ')?;
        text.extend_from_slice(token.text.as_slice())?;
    }
    Ok(())
}

/// What one episode comes to; its tokens are added to the text. Answers where it goes on.
fn episode(
    alloc: Global,
    macros: &[Told],
    ends: RunEnd,
    run: &[PpTok],
    at: usize,
    text: &mut Text,
) -> Result<Result<usize, Why>, Fail> {
    let at = match ends {
        RunEnd::Line => 0,
        RunEnd::Directive | RunEnd::FileEnd => at,
    };
    if at >= run.len() {
        return Ok(Ok(run.len()));
    }
    let machine = run_on(Machine::start(alloc, ends, run, at)?, macros)?;
    if let Pending::Refused(why) = machine.pending() {
        return Ok(Err(why));
    }
    let expansion = machine.expansion()?;
    add_tokens(text, expansion.tokens.as_slice())?;
    Ok(Ok(expansion.goes_on))
}

/// What a text comes to, episode by episode.
fn expanded(
    alloc: Global,
    definitions: &[&str],
    ends: RunEnd,
    source: &str,
) -> Result<Outcome, Fail> {
    let macros = macros_of(alloc, definitions)?;
    let run = cut(alloc, source)?;
    let run = run.as_slice();
    let mut text = List::new(alloc);
    let mut at = 0;
    for _ in 0..run.len() {
        match episode(alloc, macros.as_slice(), ends, run, at, &mut text)? {
            Ok(next) => at = next,
            Err(why) => return Ok(Outcome::Refused(why)),
        }
        if at >= run.len() {
            break;
        }
    }
    Ok(Outcome::Tokens(text))
}

pub(crate) fn assert_expands<R: Abort>(
    rt: &R,
    alloc: Global,
    definitions: &[&str],
    ends: RunEnd,
    rows: &[(&str, &str)],
) -> Result<(), Fail> {
    for row in rows {
        let (source, want) = *row;
        let outcome = expanded(alloc, definitions, ends, source)?;
        let wanted = cut(alloc, want)?;
        let mut text = List::new(alloc);
        add_tokens(&mut text, wanted.as_slice())?;
        match outcome {
            Outcome::Tokens(tokens) => assert!(rt; tokens == text, "expansion of {source}"),
            Outcome::Refused(_) => assert!(rt; false, "refusal of {source}"),
        }
    }
    Ok(())
}

pub(crate) fn assert_refuses<R: Abort>(
    rt: &R,
    alloc: Global,
    definitions: &[&str],
    rows: &[(RunEnd, &str, Why)],
) -> Result<(), Fail> {
    for row in rows {
        let (ends, source, want) = *row;
        match expanded(alloc, definitions, ends, source)? {
            Outcome::Tokens(_) => assert!(rt; false, "no refusal of {source}"),
            Outcome::Refused(why) => assert_eq!(rt; why, want, "refusal of {source}"),
        }
    }
    Ok(())
}
