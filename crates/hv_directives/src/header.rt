//! The header that an `#include` line names.
ghost use Rattle.std.specs.Prelude.{◌≡◌, IsTrue};
ghost use Rattle.std.specs.List.{list_all};
ghost use Rattle.std.specs.Option.{option_map};
ghost use Rattle.hv_base.specs.Ascii as ascii;
ghost use Rattle.hv_plain.specs.gathering.Mentions as mentions;
ghost use Rattle.hv_plainpp.specs.Preprocessing as preprocessing;
ghost use Rattle.hv_directives.specs.Values.{header_of as value_of};

use hv_base::is_printable;
use hv_toks::{PpKind, PpTok};

/// A header as an `#include` line names it (ISO/IEC 9899:1999, 6.10.2).
#[derive(Clone, Copy, Debug)]
pub struct Header<'a> {
    /// Within quotes, and not within `<` and `>`.
    pub quoted: bool,
    pub name: &'a str,
}

/// Whether each byte is printable.
fn is_all_printable(bytes: &[u8]) -> bool
    ensures { result ≡ list_all ascii.is_printable bytes.now }
{
    bytes.iter().all(|byte| is_printable(*byte))
}

/// Whether a token is a header name, all of it printable.
fn is_mention(token: &PpTok) -> bool
    ensures { result ≡ mentions.is_mention token.now }
{
    matches!(token.kind, PpKind::HeaderName) && is_all_printable(token.text.as_slice())
}

/// What stands between the delimiters of a header name (6.4.7).
fn name_of(text: &[u8]) -> &str
    requires { IsTrue (list_all ascii.is_printable text.now) }
    ensures { result.now ≡ (mentions.header_of text.now).name }
{
    if text.len() < 2 {
        return "";
    }
    match str::from_utf8(&text[1..text.len() - 1]) {
        Ok(name) => name,
        Err(_) => unreachable!("printable bytes are ASCII"),
    }
}

/// The header of a header name.
fn header_of(text: &[u8]) -> Header<'_>
    requires { IsTrue (list_all ascii.is_printable text.now) }
    ensures { value_of result ≡ mentions.header_of text.now }
{
    Header {
        quoted: text.starts_with(b"\""),
        name: name_of(text),
    }
}

/// The header that an `#include` line names, by the tokens after `include`. What follows it is
/// ignored. `None` where no header name stands there, or one with a byte that isn't printable.
pub fn header_on(line: &[PpTok]) -> Option<Header<'_>>
    ensures meaning { option_map value_of result ≡ preprocessing.header_on line.now }
{
    match line {
        [name, ..] if is_mention(name) => Some(header_of(name.text.as_slice())),
        _ => None,
    }
}
