//! What macros are defined as.
ghost use Rattle.std.specs.Prelude.{◌≡◌, IfOk};
ghost use Rattle.std.specs.Bool.{Decides};
ghost use Rattle.hv_toks.specs.Macro.{macro_of};

use crate::PpTok;
use hv_base::{List, Memory, Place, Text};
use std::alloc::Global;
use std::rc::Rc;

/// What a macro is replaced by (ISO/IEC 9899:1999, 6.10.3).
#[derive(Debug, Drop)]
pub enum Body {
    /// An object-like macro, with its replacement list.
    Object {
        body: List<PpTok>,
    },
    /// A function-like macro: its parameters without `...`, whether it takes variable arguments,
    /// and its replacement list.
    Function {
        params: List<Text>,
        variadic: bool,
        body: List<PpTok>,
    },
}

/// What a name means to the preprocessor at a point of a translation unit.
#[derive(Debug, Drop)]
pub enum Meaning {
    /// No macro has this name.
    Undefined,
    /// The macro that the `#define` at this place defines.
    Defined { place: Place, body: Rc<Body> },
}

/// Whether two replacement lists are equal, token by token.
fn same_tokens(tokens: &[PpTok], others: &[PpTok]) -> bool
    ensures exact { Decides result (tokens.now ≡ others.now) }
{
    if tokens.len() != others.len() {
        return false;
    }
    for i in 0..tokens.len() {
        if !tokens[i].same(&others[i]) {
            return false;
        }
    }
    true
}

/// Whether two lists of parameters are equal, name by name.
fn same_params(params: &[Text], others: &[Text]) -> bool
    ensures exact { Decides result (params.now ≡ others.now) }
{
    if params.len() != others.len() {
        return false;
    }
    for i in 0..params.len() {
        if !params[i].is_text(others[i].as_slice()) {
            return false;
        }
    }
    true
}

impl Body {
    /// Whether two bodies are equal, the places of their tokens included.
    pub fn same(&self, other: &Body) -> bool
        ensures exact { Decides result (self.now ≡ other.now) }
    {
        match (self, other) {
            (Body::Object { body }, Body::Object { body: list }) => {
                same_tokens(body.as_slice(), list.as_slice())
            }
            (
                Body::Function {
                    params,
                    variadic,
                    body,
                },
                Body::Function {
                    params: names,
                    variadic: more,
                    body: list,
                },
            ) => {
                same_params(params.as_slice(), names.as_slice())
                    && variadic == more
                    && same_tokens(body.as_slice(), list.as_slice())
            }
            _ => false,
        }
    }
}

impl Meaning {
    /// An equal meaning.
    pub fn copy(&self, alloc: Global) -> Result<Meaning, Memory>
        ensures { IfOk result (λ copy. macro_of copy ≡ macro_of self.now) }
    {
        match self {
            Meaning::Undefined => Ok(Meaning::Undefined),
            Meaning::Defined { place, body } => Ok(Meaning::Defined {
                place: place.copy(alloc)?,
                body: body.clone()?,
            }),
        }
    }

    /// Whether two meanings are no macro, or the macro of one definition with one replacement list.
    pub fn same(&self, other: &Meaning) -> bool
        ensures exact { Decides result (macro_of self.now ≡ macro_of other.now) }
    {
        match (self, other) {
            (Meaning::Undefined, Meaning::Undefined) => true,
            (
                Meaning::Defined { place, body },
                Meaning::Defined {
                    place: at,
                    body: with,
                },
            ) => { place == at && body.same(with) }
            _ => false,
        }
    }
}
