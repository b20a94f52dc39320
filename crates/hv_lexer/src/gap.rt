//! White space and comments.

ghost use Rattle.std.specs.Prelude.{◌≡◌, ◌≤◌, length};
ghost use Rattle.hv_lexer.specs.working.Cursors.{text_of, text_from};
ghost use Rattle.hv_base.specs.Ascii.{is_line_space};
ghost use Rattle.hv_toks.specs.Cutting.{ends_line, line_len, closing_len};

use crate::cursor::{Cursor, Next};

/// Whether a line ends here.
fn ends_line(first: Next) -> bool
    ensures { result ≡ ends_line (text_from first.entry) }
{
    first.byte == b'\n' || first.begins(b'\r', b'\n')
}

/// How many bytes there are to the end of the line.
pub(crate) fn line_len(text: Cursor) -> usize
    ensures value { result ≡ line_len (text_of text.entry) }
    ensures within { result ≤ length (text_of text.entry) }
{
    let mut rest = text;
    let mut len = 0;
    while let Some(next) = rest.next() {
        if ends_line(next) {
            return len;
        }
        rest = next.rest;
        len += 1;
    }
    len
}

/// How many bytes there are up to and with the first `*/`; 0 where there is none.
pub(crate) fn closing_len(text: Cursor) -> usize
    ensures value { result ≡ closing_len (text_of text.entry) }
    ensures within { result ≤ length (text_of text.entry) }
{
    let mut rest = text;
    let mut len = 0;
    while let Some(next) = rest.next() {
        if next.begins(b'*', b'/') {
            return len + 2;
        }
        rest = next.rest;
        len += 1;
    }
    0
}
