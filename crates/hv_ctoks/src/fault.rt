//! Why a preprocessing token becomes no C token.
use hv_base::Why;
use thiserror::Error;

/// Why a preprocessing token becomes no C token.
#[derive(Clone, Copy, Debug, PartialEq, Eq, Error)]
pub enum TokenFault {
    /// The source is refused so.
    #[error("the token is refused")]
    Plain(Why),
    /// Memory ran out.
    #[error("want of memory")]
    Memory,
}
