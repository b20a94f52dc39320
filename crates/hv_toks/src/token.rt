//! Preprocessing tokens.
ghost use Rattle.std.specs.Prelude.{◌≡◌, IfOk};
ghost use Rattle.std.specs.Bool.{Decides};

use hv_base::{Memory, Span, Text};
use std::alloc::Global;

/// The category of a preprocessing token (ISO/IEC 9899:1999, 6.4).
#[derive(Clone, Copy, Debug, PartialEq, Eq)]
pub enum PpKind {
    Identifier,
    Number,
    CharConstant,
    StringLiteral,
    HeaderName,
    Punctuator,
    /// A byte that fits nothing else, or all from an unclosed quote to the end of its line.
    Other,
}

/// A preprocessing token of a source file (ISO/IEC 9899:1999, 6.4).
#[derive(Debug, Drop)]
pub struct PpTok {
    pub kind: PpKind,
    /// Where it stands in the file as it was read.
    pub span: Span,
    /// Its spelling after the splicing of lines.
    pub text: Text,
    /// Whether white space other than a newline, or a comment, stands directly before it.
    pub space: bool,
    /// Whether it is the first token of its line.
    pub first: bool,
}

impl PpTok {
    /// An equal token.
    pub fn copy(&self, alloc: Global) -> Result<PpTok, Memory>
        ensures { IfOk result (λ copy. copy ≡ self.now) }
    {
        Ok(PpTok {
            kind: self.kind,
            span: self.span,
            text: Text::from_slice(alloc, self.text.as_slice())?,
            space: self.space,
            first: self.first,
        })
    }

    /// Whether two tokens are equal, their places included.
    pub fn same(&self, other: &PpTok) -> bool
        ensures exact { Decides result (self.now ≡ other.now) }
    {
        self.kind == other.kind
            && self.span == other.span
            && self.text == other.text
            && self.space == other.space
            && self.first == other.first
    }
}
