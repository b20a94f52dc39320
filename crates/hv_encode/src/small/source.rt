//! The lines of a small source.
ghost use Rattle.std.specs.Prelude.{◌∷◌, ◌++◌, [], List, ℕ, IfOk, IfSome, IfNone, IsTrue, map, codes};
ghost use Rattle.std.specs.List.{All};
ghost use Rattle.hv_plain.specs.Source.{SourceLine, IsSmallSource, spelled};
ghost use Rattle.hv_encode.specs.working.Lines.{IsKnown, IsFree, IsCutInto, plain};

use crate::small::body::{body_of, rest_after_line};
use crate::small::line::BodyLine;
use hv_base::Memory;
use hv_model::Model;
use std::alloc::Global;

/// Whether no option has a name that every small source uses.
fn is_free(model: &Model) -> bool
    ensures free { IsTrue result → IsFree model.now.names }
    ensures taken { IsFree model.now.names → IsTrue result }
{
    model.position(b"main").is_none() && model.position(b"putchar").is_none()
}

/// The rest of a small source after the two lines at its head.
fn rest_after_head(source: &[u8]) -> Option<&[u8]>
    ensures onto { IfSome result (λ rest. (lines : List (List ℕ)) → IsCutInto rest.now lines
        → IsCutInto source.now (codes "int putchar(int);" ∷ codes "int main(void) {" ∷ lines)) }
    ensures kept { IfSome result (λ rest. (lines : List (List ℕ))
        → IsCutInto source.now (codes "int putchar(int);" ∷ codes "int main(void) {" ∷ lines)
        → IsCutInto rest.now lines) }
    ensures none { IfNone result ((lines : List (List ℕ))
        → ¬ (IsCutInto source.now (codes "int putchar(int);" ∷ codes "int main(void) {" ∷ lines))) }
{
    rest_after_line(
        rest_after_line(source, b"int putchar(int);")?,
        b"int main(void) {",
    )
}

/// The body of a small source, whose groups may still not nest, unless the source isn't a small
/// one.
pub fn lines_of(
    alloc: Global,
    model: &Model,
    source: &[u8],
) -> Result<Option<Vec<BodyLine>>, Memory>
    ensures known { IfOk result
        (λ answer. IfSome answer (λ lines. All (IsKnown model.now.names) lines.items)) }
    ensures free { IfOk result (λ answer. IfSome answer (λ _. IsFree model.now.names)) }
    ensures some { IfOk result (λ answer. IfSome answer (λ lines. IsCutInto source.now
        (codes "int putchar(int);" ∷ codes "int main(void) {"
        ∷ (map spelled (map (plain model.now.names) lines.items) ++ codes "}" ∷ [])))) }
    ensures none { IfOk result (λ answer. IfNone answer ((body : List SourceLine)
        → ¬ (IsSmallSource model.now.names source.now body))) }
{
    if !is_free(model) {
        return Ok(None);
    }
    let Some(rest) = rest_after_head(source) else {
        return Ok(None);
    };
    let Some(lines) = body_of(alloc, model, rest)? else {
        return Ok(None);
    };
    Ok(Some(lines))
}
