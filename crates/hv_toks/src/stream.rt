//! The tokens of a translation unit under all configurations.
ghost use Rattle.std.specs.Prelude.{◌≡◌, length, All, IfOk};
ghost use Rattle.hv_cond.specs.Diagram.{IsNode};
ghost use Rattle.hv_toks.specs.Stream.{projected};

use hv_base::{CTok, Config, List, Memory, Start, Text};
use hv_cond::{Cond, Store};
use std::alloc::Global;

/// A C token with the condition under which the translation unit has it.
#[derive(Debug, Drop)]
pub struct StreamTok {
    pub tok: CTok,
    pub cond: Cond,
    /// Where it comes from: two tokens of one configuration have one start exactly where they are
    /// one.
    pub start: Start,
}

/// A C token of one configuration, with what the declarations in scope make of it.
#[derive(Debug, Drop)]
pub struct Classified {
    pub tok: CTok,
    pub start: Start,
    /// Whether it is a name that stands for a type.
    pub typedef: bool,
}

/// The tokens of a translation unit under all configurations, in order.
pub type Stream = List<StreamTok>;

fn copied_text(alloc: Global, text: &Text) -> Result<Text, Memory>
    ensures { IfOk result (λ copy. copy ≡ text.now) }
{
    Text::from_slice(alloc, text.as_slice())
}

fn copied(alloc: Global, tok: &CTok) -> Result<CTok, Memory>
    ensures { IfOk result (λ copy. copy ≡ tok.now) }
{
    match tok {
        CTok::Keyword(keyword) => Ok(CTok::Keyword(*keyword)),
        CTok::Name(name) => Ok(CTok::Name(copied_text(alloc, name)?)),
        CTok::Int { value, kind } => Ok(CTok::Int {
            value: *value,
            kind: *kind,
        }),
        CTok::Char(value) => Ok(CTok::Char(*value)),
        CTok::Str(text) => Ok(CTok::Str(copied_text(alloc, text)?)),
        CTok::Punct(punct) => Ok(CTok::Punct(*punct)),
    }
}

/// The tokens that a configuration keeps of a stream, in order.
pub fn project(
    alloc: Global,
    store: &Store,
    stream: &Stream,
    config: &Config,
) -> Result<List<CTok>, Memory>
    requires conditions { All (λ token. IsNode store.now token.cond) stream.now }
    requires values { length config.now.on ≡ store.now.variables }
    ensures { IfOk result (λ tokens. tokens ≡ projected store.now config.now.on stream.now) }
{
    let mut tokens = List::new(alloc);
    for token in stream.as_slice() {
        if store.eval(token.cond, config.on.as_slice()) {
            let copy = copied(alloc, &token.tok)?;
            if tokens.push(copy).is_err() {
                return Err(Memory);
            }
        }
    }
    Ok(tokens)
}
