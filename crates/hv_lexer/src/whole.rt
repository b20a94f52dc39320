//! Texts that are one token.

ghost use Rattle.std.specs.Prelude.{◌≡◌, [], IfSome, is_some, true};
ghost use Rattle.hv_base.specs.Puncts as puncts;
ghost use Rattle.hv_base.specs.declared.punct.Punct.{Punct};
ghost use Rattle.hv_lexer.specs.Laws.{IsLongestToken};
ghost use Rattle.hv_toks.specs.Cutting as cutting;

use crate::cursor::Cursor;
use crate::prefix::prefix;
use hv_toks::{LinePrefix, PpKind, Prefix};

/// The kind of what a text of this length begins with, if that is all of it and a token.
fn whole_kind(len: usize, prefix: Prefix) -> Option<PpKind>
    ensures { result ≡ cutting.whole_kind len prefix }
{
    match prefix {
        Prefix::Token(found) if found.len == len => Some(found.kind),
        _ => None,
    }
}

/// The kind of a text that is one preprocessing token, as the result of `##` must be (ISO/IEC
/// 9899:1999, 6.10.3.3), or `None` where it is none. Takes no memory.
pub fn whole_token(text: &[u8]) -> Option<PpKind>
    ensures value { result ≡ cutting.whole_token text.now }
    // all of it is the longest token that it begins with
    ensures longest { IfSome result (λ kind. IsLongestToken kind text.now []) }
    // the punctuators are those of the table of spellings, all of them and no other
    ensures punctuators { (sign : Punct) →
        cutting.whole_token (puncts.spelling_of sign) ≡ Some PpKind.Punctuator }
    ensures table { result ≡ Some PpKind.Punctuator → is_some (puncts.punct_of text.now) ≡ true }
{
    if text.contains(&b'\n') {
        return None;
    }
    whole_kind(text.len(), prefix(LinePrefix::Rest, Cursor::new(text)))
}
