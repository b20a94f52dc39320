//! What pends.
use hv_base::Why;
use hv_toks::PpKind;

/// What follows a token in its text.
#[derive(Clone, Copy, Debug, PartialEq, Eq)]
pub enum Following {
    /// A `(`.
    Parenthesis,
    /// Another token, or an end that ends the text.
    Otherwise,
    /// A directive.
    Directive,
}

/// What a machine comes to next.
#[derive(Clone, Copy, Debug)]
pub enum Pending<'a> {
    /// Nothing is left.
    Done,
    /// The episode is refused.
    Refused(Why),
    /// A token whose spelling has a digit that tells whether this name is defined.
    Digit {
        name: &'a [u8],
    },
    /// A token with its kind and spelling, whether it may be a macro's name (ISO/IEC 9899:1999,
    /// 6.10.3.4, paragraph 2), and what follows it.
    Token {
        kind: PpKind,
        text: &'a [u8],
        is_open: bool,
        follows: Following,
    },
}
