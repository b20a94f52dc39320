//! The body of a small source.
ghost use Rattle.std.specs.Prelude.{◌≡◌, ◌<◌, ◌++◌, [], ◌∷◌, ℕ, List, Some, IfOk, IfSome, IfNone, codes, length, map, position};
ghost use Rattle.std.specs.List.{All, slice_split};
ghost use Rattle.hv_base.specs.Ascii.{is_newline};
ghost use Rattle.hv_plain.specs.Source.{SourceLine, IsSourceLine, spelled};
ghost use Rattle.hv_encode.specs.working.Lines.{IsKnown, IsCutInto, plain};

use crate::small::line::{BodyLine, line_of};
use crate::small::trim::trimmed;
use hv_base::Memory;
use hv_model::Model;
use std::alloc::Global;

/// Where the first newline stands.
fn newline_in(text: &[u8]) -> Option<usize>
    ensures { result ≡ position is_newline text.now }
{
    text.iter().position(|byte| *byte == b'\n')
}

/// The first line and what stands after its newline, if the text has a newline.
fn cut_line(text: &[u8]) -> Option<(&[u8], &[u8])>
    ensures some { IfSome result (λ cut. (slice_split is_newline text.now
        ≡ cut.0.now ∷ slice_split is_newline cut.1.now)
        × (length cut.1.now < length text.now)) }
    ensures none { IfNone result (slice_split is_newline text.now ≡ text.now ∷ []) }
{
    let end = newline_in(text)?;
    Some((&text[..end], &text[end + 1..]))
}

/// What stands after the first line, if that is this one, blanks at its ends aside.
pub fn rest_after_line<'a>(text: &'a [u8], line: &[u8]) -> Option<&'a [u8]>
    ensures onto { IfSome result (λ rest. (lines : List (List ℕ)) → IsCutInto rest.now lines
        → IsCutInto text.now (line.now ∷ lines)) }
    ensures kept { IfSome result (λ rest. (lines : List (List ℕ))
        → IsCutInto text.now (line.now ∷ lines) → IsCutInto rest.now lines) }
    ensures none { IfNone result ((lines : List (List ℕ))
        → ¬ (IsCutInto text.now (line.now ∷ lines))) }
{
    let (first, rest) = cut_line(text)?;
    if trimmed(first) == line {
        Some(rest)
    } else {
        None
    }
}

/// The lines of a body, which the closing line and nothing else follows.
pub fn body_of(alloc: Global, model: &Model, text: &[u8]) -> Result<Option<Vec<BodyLine>>, Memory>
    ensures known { IfOk result
        (λ answer. IfSome answer (λ lines. All (IsKnown model.now.names) lines.items)) }
    ensures some { IfOk result (λ answer. IfSome answer (λ lines.
        IsCutInto text.now (map spelled (map (plain model.now.names) lines.items)
        ++ codes "}"
        ∷ []))) }
    ensures none { IfOk result (λ answer. IfNone answer ((body : List SourceLine)
        → All (IsSourceLine model.now.names) body
        → ¬ (IsCutInto text.now (map spelled body ++ codes "}" ∷ [])))) }
{
    let mut lines = Vec::new(alloc);
    let mut rest = text;
    while let Some((line, after)) = cut_line(rest) {
        let line = trimmed(line);
        if line == b"}".as_slice() {
            if after.is_empty() {
                return Ok(Some(lines));
            }
            return Ok(None);
        }
        let Some(line) = line_of(model, line) else {
            return Ok(None);
        };
        lines.push(line)?;
        rest = after;
    }
    Ok(None)
}
