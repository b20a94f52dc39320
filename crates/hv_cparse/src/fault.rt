//! Why tokens have no tree.

use hv_base::Why;

/// Why tokens have no tree.
#[derive(Clone, Copy, Debug, PartialEq, Eq)]
pub enum ParseFault {
    /// The first refusal: the index of its token, or the number of the tokens where they end too
    /// early, and its cause, `Syntax` or `TooDeep`.
    Plain { at: usize, why: Why },
    /// Memory ran out.
    Memory,
}
