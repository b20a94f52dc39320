//! Why a controlling expression has no truth.

/// Why a controlling expression has no truth.
#[derive(Clone, Copy, Debug, PartialEq, Eq)]
pub enum IfFault {
    /// The tokens aren't an expression, or evaluating it divides by zero or shifts by a negative
    /// amount or too far (6.6, 6.10.1).
    Bad,
    /// Memory ran out.
    Memory,
}
