//! One line of a body.
ghost use Rattle.std.specs.Prelude.{◌≡◌, ◌≢◌, ◌<◌, ◌++◌, ℕ, List, IfSome, IfNone, decimal, codes, Contains};
ghost use Rattle.hv_plain.specs.Source.{SourceLine, put, spelled, IsSourceLine};
ghost use Rattle.hv_encode.specs.working.Lines.{name_at, plain, IsOption, IsKnown};

use hv_model::Model;
use hv_plain::byte_of;

/// A line of the body of a small source. Options go by their numbers in the model.
#[derive(Clone, Copy, Debug, PartialEq, Eq)]
pub enum BodyLine {
    Put(u8),
    IfDefined(usize),
    IfNotDefined(usize),
    Else,
    EndIf,
}

/// The byte that the line writes.
fn put_of(text: &[u8]) -> Option<u8>
    ensures some { IfSome result (λ n. (n < 256) × (text.now ≡ spelled (put n))) }
    ensures none { IfNone result ((n : ℕ) → n < 256 → text.now ≢ spelled (put n)) }
{
    byte_of(text.strip_prefix(b"putchar(")?.strip_suffix(b");")?)
}

/// The number of the option whose name stands after the directive.
fn option_after(model: &Model, directive: &[u8], text: &[u8]) -> Option<usize>
    ensures some { IfSome result (λ option. IsOption model.now.names option
        × (text.now ≡ directive.now ++ name_at model.now.names option)) }
    ensures none { IfNone result ((name : List ℕ) → Contains model.now.names name
        → text.now ≢ directive.now ++ name) }
{
    model.position(text.strip_prefix(directive)?)
}

/// The line that the text, without blanks at its ends, is.
pub fn line_of(model: &Model, text: &[u8]) -> Option<BodyLine>
    ensures some { IfSome result (λ line. IsKnown model.now.names line
        × (text.now ≡ spelled (plain model.now.names line))) }
    ensures none { IfNone result ((line : SourceLine) → IsSourceLine model.now.names line
        → text.now ≢ spelled line) }
{
    if let Some(byte) = put_of(text) {
        Some(BodyLine::Put(byte))
    } else if let Some(option) = option_after(model, b"#ifdef ", text) {
        Some(BodyLine::IfDefined(option))
    } else if let Some(option) = option_after(model, b"#ifndef ", text) {
        Some(BodyLine::IfNotDefined(option))
    } else if text == b"#else".as_slice() {
        Some(BodyLine::Else)
    } else if text == b"#endif".as_slice() {
        Some(BodyLine::EndIf)
    } else {
        None
    }
}
