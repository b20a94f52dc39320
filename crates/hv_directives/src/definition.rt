//! What a `#define` line says.
ghost use Rattle.std.specs.Prelude.{◌≡◌, IfOk};
ghost use Rattle.std.specs.Option.{option_map};
ghost use Rattle.hv_plainpp.specs.Definitions as definitions;
ghost use Rattle.hv_directives.specs.Values.{definition_of};

use crate::name::is_free_name;
use crate::parameters::{Parameters, parameters_in};
use crate::replacement::is_well_formed;
use hv_base::{List, Memory, Text};
use hv_toks::{Body, PpTok};
use std::alloc::Global;

/// A name and what it is defined as (ISO/IEC 9899:1999, 6.10.3).
#[derive(Debug, Drop)]
pub struct Definition {
    pub name: Text,
    pub body: Body,
}

/// Equal tokens.
fn copied(alloc: Global, tokens: &[PpTok]) -> Result<List<PpTok>, Memory>
    ensures { IfOk result (λ copies. copies ≡ tokens.now) }
{
    let mut copies = List::new(alloc);
    for token in tokens {
        copies.add(token.copy(alloc)?)?;
    }
    Ok(copies)
}

/// The body of a function-like macro whose parameters, after the `(`, begin these tokens; `None`
/// where they are malformed.
fn function_body(alloc: Global, tokens: &[PpTok]) -> Result<Option<Body>, Memory>
    ensures { IfOk result (λ body.
        body ≡ definitions.function_body (definitions.parameters_in tokens.now)) }
{
    let Some(
        Parameters {
            names,
            variadic,
            after,
        },
    ) = parameters_in(alloc, tokens)?
    else {
        return Ok(None);
    };
    Ok(Some(Body::Function {
        params: names,
        variadic,
        body: copied(alloc, after)?,
    }))
}

/// The body that the tokens after a macro's name are; `None` where its parameters are malformed.
fn body_of(alloc: Global, tokens: &[PpTok]) -> Result<Option<Body>, Memory>
    ensures { IfOk result (λ body. body ≡ definitions.body_of tokens.now) }
{
    match tokens {
        [token, after @ ..] if token.text.as_slice() == b"(".as_slice() && !token.space => {
            function_body(alloc, after)
        }
        _ => Ok(Some(Body::Object {
            body: copied(alloc, tokens)?,
        })),
    }
}

/// The definition that a `#define` line makes, by the tokens after `define`. `None` where the line
/// isn't well-formed (6.10.3, 6.10.3.2, 6.10.3.3, 6.10.3.5, 6.10.8).
pub fn definition_on(alloc: Global, line: &[PpTok]) -> Result<Option<Definition>, Memory>
    ensures meaning { IfOk result (λ found.
        option_map definition_of found ≡ definitions.definition line.now) }
{
    let [name, tokens @ ..] = line else {
        return Ok(None);
    };
    if !is_free_name(name) {
        return Ok(None);
    }
    let Some(body) = body_of(alloc, tokens)? else {
        return Ok(None);
    };
    if !is_well_formed(alloc, &body)? {
        return Ok(None);
    }
    Ok(Some(Definition {
        name: name.text.copy(alloc)?,
        body,
    }))
}
