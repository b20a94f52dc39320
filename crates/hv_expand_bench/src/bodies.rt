//! Texts as tokens, and as what macros are replaced by.
use hv_base::{List, Memory, Text};
use hv_lexer::lex;
use hv_toks::{Body, PpTok};
use std::alloc::Global;

/// The tokens of a text, in which each comment is closed.
pub fn cut(alloc: Global, text: &[u8]) -> Result<List<PpTok>, Memory> {
    match lex(alloc, 0, text) {
        Ok(tokens) => Ok(tokens),
        Err(_) => Err(Memory),
    }
}

/// The body of an object-like macro.
pub fn object(alloc: Global, text: &[u8]) -> Result<Body, Memory> {
    let body = cut(alloc, text)?;
    Ok(Body::Object { body })
}

/// The body of a function-like macro; where the last name is `...`, of a variadic one.
pub fn function(alloc: Global, names: &[&str], text: &[u8]) -> Result<Body, Memory> {
    let mut params = List::new(alloc);
    let mut variadic = false;
    for name in names {
        if *name == "..." {
            variadic = true;
        } else {
            params.add(Text::from_slice(alloc, name.as_bytes())?)?;
        }
    }
    Ok(Body::Function {
        params,
        variadic,
        body: cut(alloc, text)?,
    })
}

/// A text so many times.
pub fn repeated(alloc: Global, text: &str, count: u32) -> Result<Text, Memory> {
    let mut all = List::new(alloc);
    for _ in 0..count {
        all.extend_from_slice(text.as_bytes())?;
    }
    Ok(all)
}
