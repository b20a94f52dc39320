//! What a file mentions.
ghost use Rattle.std.specs.Prelude.{◌≡◌, [], ◌∷◌, ◌++◌, IfOk, OnOk, IsTrue};
ghost use Rattle.std.specs.List.{list_all};
ghost use Rattle.std.specs.String.{string_bytes};
ghost use Rattle.hv_base.specs.Ascii as ascii;
ghost use Rattle.hv_plain.specs.gathering.Mentions as mentioning;

use hv_base::{List, Memory, is_printable};
use hv_lexer::{LexRefusal, lex};
use hv_toks::{PpKind, PpTok};
use std::alloc::Global;
use std::marker::Model;

/// A header as an `#include` line names it.
#[derive(Drop)]
pub struct Header {
    /// Within quotes, and not within `<` and `>`.
    pub quoted: bool,
    pub name: String,
}

impl Model for Header {
    ghost use Rattle.std.specs.String.{string_bytes};
    ghost use Rattle.hv_plain.specs.gathering.Mentions as mentioning;

    ghost Value = { mentioning.Header };

    ghost view = { λ header. record { quoted = header.quoted; name = string_bytes header.name } };
}

/// The headers that a file with these bytes mentions, in order.
pub fn mentions(alloc: Global, bytes: &[u8]) -> Result<List<Header>, Memory>
    ensures { IfOk result (λ headers. headers ≡ mentioning.mentions bytes.now) }
{
    match lex(alloc, 0, bytes) {
        Ok(tokens) => headers_in(alloc, tokens.as_slice()),
        Err(LexRefusal::OpenComment { .. }) => Ok(List::new(alloc)),
        Err(LexRefusal::Memory) => Err(Memory),
    }
}

/// The headers that these tokens mention, in order.
fn headers_in(alloc: Global, tokens: &[PpTok]) -> Result<List<Header>, Memory>
    ensures { IfOk result (λ headers. headers ≡ mentioning.headers_in tokens.now) }
{
    let mut headers = List::new(alloc);
    for token in tokens {
        if is_mention(token) {
            headers.add(header_of(alloc, token.text.as_slice())?)?;
        }
    }
    Ok(headers)
}

/// Whether a token is the header name of an `#include` line, all of it printable.
fn is_mention(token: &PpTok) -> bool
    ensures { result ≡ mentioning.is_mention token.now }
{
    matches!(token.kind, PpKind::HeaderName) && is_all_printable(token.text.as_slice())
}

/// Whether each byte is printable.
fn is_all_printable(bytes: &[u8]) -> bool
    ensures { result ≡ list_all ascii.is_printable bytes.now }
{
    bytes.iter().all(|byte| is_printable(*byte))
}

/// The header of a header name.
fn header_of(alloc: Global, text: &[u8]) -> Result<Header, Memory>
    requires { IsTrue (list_all ascii.is_printable text.now) }
    ensures { IfOk result (λ header. header ≡ mentioning.header_of text.now) }
{
    let quoted = text.starts_with(b"\"");
    let name = if text.len() < 2 {
        String::new(alloc)
    } else {
        printable(alloc, &text[1..text.len() - 1])?
    };
    Ok(Header { quoted, name })
}

/// These bytes as a text.
fn printable(alloc: Global, bytes: &[u8]) -> Result<String, Memory>
    requires { IsTrue (list_all ascii.is_printable bytes.now) }
    ensures { IfOk result (λ text. string_bytes text ≡ bytes.now) }
{
    let mut text = String::new(alloc);
    for byte in bytes {
        push_printable(&mut text, *byte)?;
    }
    Ok(text)
}

/// Adds one byte to a text.
fn push_printable(text: &mut String, byte: u8) -> Result<(), Memory>
    requires { IsTrue (ascii.is_printable byte) }
    ensures { OnOk result (string_bytes text.new ≡ string_bytes text.old ++ byte ∷ []) }
{
    text.push(char::from(byte))?;
    Ok(())
}

/// A file or a built-in header that was reached, and the headers that it mentions.
#[derive(Drop)]
pub struct Reached {
    pub name: String,
    pub mentioned: List<Header>,
}

impl Model for Reached {
    ghost use Rattle.std.specs.String.{string_bytes};
    ghost use Rattle.hv_plain.specs.gathering.Told as telling;

    ghost Value = { telling.Reached };

    ghost view = { λ reached. record {
      name = string_bytes reached.name;
      mentioned = reached.mentioned;
    } };
}
