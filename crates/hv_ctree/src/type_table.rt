//! The table of the structure and union types of a program.
ghost use Rattle.hv_ctree.specs.types.Settled.{IsSettled};

use crate::types::CompoundType;
use hv_base::List;

/// The structure and union types of a program; a `Compound` is known by its index here. Each that
/// is complete has a layout within the limit on objects, which is kept with it, so that a size is
/// looked up and never computed twice.
// DECISIONS: kept layouts
#[derive(Debug, Drop)]
pub struct Types {
    pub compounds: List<CompoundType>,
    pub ghost settled: { ∥ IsSettled compounds ∥₁ },
}
