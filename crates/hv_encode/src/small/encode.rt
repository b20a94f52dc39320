//! A small source to its metaproduct.
ghost use Rattle.std.specs.Prelude.{◌≡◌, List, IfOk, IfSome, IfNone};
ghost use Rattle.hv_cond.specs.Diagram.{Keeps};
ghost use Rattle.hv_plain.specs.Run.{Encodes};
ghost use Rattle.hv_plain.specs.Source.{SourceLine, IsSmallSource};
ghost use Rattle.hv_model.specs.Valid.{IsValidIn};

use crate::small::lift::lift;
use crate::small::print::print;
use crate::small::source::lines_of;
use hv_base::{Memory, Text};
use hv_model::ModelDiagram;
use std::alloc::Global;

/// The metaproduct of a small source: one program for all configurations. `None` says that the
/// source isn't a small one.
pub fn encode_small(
    alloc: Global,
    diagram: &mut ModelDiagram,
    source: &[u8],
) -> Result<Option<Text>, Memory>
    requires { IsValidIn diagram.old.model diagram.old.store diagram.old.valid }
    ensures encodes { IfOk result (λ answer. IfSome answer (Encodes diagram.old.model source.now)) }
    ensures small { IfOk result (λ answer. IfSome answer
        (λ _. (body : List SourceLine) × IsSmallSource diagram.old.model.names source.now body)) }
    ensures refused { IfOk result (λ answer. IfNone answer
        ((body : List SourceLine) → ¬ (IsSmallSource diagram.old.model.names source.now body))) }
    ensures keeps { Keeps diagram.old.store diagram.new.store }
    ensures model { diagram.new.model ≡ diagram.old.model }
    ensures valid { diagram.new.valid ≡ diagram.old.valid }
{
    let Some(lines) = lines_of(alloc, &diagram.model, source)? else {
        return Ok(None);
    };
    let Some(product) = lift(alloc, diagram, lines.as_slice())? else {
        return Ok(None);
    };
    let text = print(alloc, &diagram.model, &product)?;
    Ok(Some(text))
}
