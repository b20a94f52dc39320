//! What one block of memory is.
use crate::address::BlockName;
use crate::cells::Bytes;

/// What a block holds.
#[derive(Drop)]
pub enum Contents {
    /// The bytes of a live block.
    Live(Bytes),
    /// A block that has ended has no bytes; its size is known still.
    Ended { size: u64 },
}

/// A block of memory.
#[derive(Drop)]
pub struct Block {
    pub name: BlockName,
    /// Whether the block is read-only.
    pub sealed: bool,
    pub contents: Contents,
}
