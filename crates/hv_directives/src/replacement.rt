//! When a macro's parameters and replacement list are well-formed (ISO/IEC 9899:1999, 6.10.3).
ghost use Rattle.std.specs.Prelude.{◌≡◌, IfOk};
ghost use Rattle.hv_plain.specs.episode.Bodies as bodies;
ghost use Rattle.hv_plainpp.specs.Definitions as definitions;

use crate::parameter_set::ParameterSet;
use hv_base::Memory;
use hv_toks::{Body, PpTok};
use std::alloc::Global;

/// Whether `__VA_ARGS__` is among the tokens (6.10.3, paragraph 5).
fn names_variable(tokens: &[PpTok]) -> bool
    ensures { result ≡ definitions.names_variable tokens.now }
{
    tokens
        .iter()
        .any(|token| token.text.as_slice() == b"__VA_ARGS__".as_slice())
}

/// Whether the parameters are distinct, none is `__VA_ARGS__`, and `#` and `__VA_ARGS__` stand only
/// where they may.
fn is_fit(alloc: Global, body: &Body) -> Result<bool, Memory>
    ensures { IfOk result (λ fit. fit ≡ definitions.is_fit body.now) }
{
    match body {
        Body::Object { body } => Ok(!names_variable(body.as_slice())),
        Body::Function {
            params,
            variadic,
            body,
        } => {
            let Some(params) = ParameterSet::new(alloc, params.as_slice(), *variadic)? else {
                return Ok(false);
            };
            let tokens = body.as_slice();
            Ok(params.are_quoted(tokens) && (*variadic || !names_variable(tokens)))
        }
    }
}

/// Whether a token is spelled `##` (6.10.3.3).
fn is_paste(token: &PpTok) -> bool
    ensures { result ≡ bodies.is_paste token.now }
{
    token.text.as_slice() == b"##".as_slice()
}

/// Whether a replacement list begins with `##`.
fn begins_with_paste(tokens: &[PpTok]) -> bool
    ensures { result ≡ definitions.begins_with_paste tokens.now }
{
    match tokens {
        [] => false,
        [token, ..] => is_paste(token),
    }
}

/// Whether a replacement list ends with `##`.
fn ends_with_paste(tokens: &[PpTok]) -> bool
    ensures { result ≡ definitions.ends_with_paste tokens.now }
{
    match tokens {
        [] => false,
        [.., token] => is_paste(token),
    }
}

/// The replacement list of a macro.
fn replacement(body: &Body) -> &[PpTok]
    ensures { result.now ≡ bodies.replacement body.now }
{
    match body {
        Body::Object { body } => body.as_slice(),
        Body::Function { body, .. } => body.as_slice(),
    }
}

/// Whether a macro's parameters and replacement list are well-formed; at both ends of the list
/// stands no `##` (6.10.3.3, paragraph 1).
pub(crate) fn is_well_formed(alloc: Global, body: &Body) -> Result<bool, Memory>
    ensures { IfOk result (λ fit. fit ≡ definitions.is_well_formed body.now) }
{
    let tokens = replacement(body);
    let is_open = begins_with_paste(tokens) || ends_with_paste(tokens);
    Ok(is_fit(alloc, body)? && !is_open)
}
