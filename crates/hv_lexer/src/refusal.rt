//! Why a file has no cutting.
use thiserror::Error;

/// Why a file is not cut.
#[derive(Clone, Copy, Debug, PartialEq, Eq, Error)]
pub enum LexRefusal {
    /// A comment is not closed.
    #[error("the comment at {offset} isn't closed")]
    OpenComment {
        /// The offset of its `/` in the file as it was read.
        offset: u64,
    },
    /// Memory ran out.
    #[error("want of memory")]
    Memory,
}
