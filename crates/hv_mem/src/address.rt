/// The number of a block: blocks are numbered from 0 in the order of adding.
#[derive(Clone, Copy, Debug, PartialEq, Eq)]
pub struct BlockId {
    pub index: u64,
}

/// A byte of a block, or with no block a null pointer. The offset may lie outside of the block.
#[derive(Clone, Copy, Debug, PartialEq, Eq)]
pub struct Address {
    pub block: Option<BlockId>,
    /// In bytes, from the block's start.
    pub offset: i64,
}

/// What a block was made for. It is kept with the block, and only `Blocks::is_allocated` and
/// `Blocks::allocations` look at it.
#[derive(Clone, Copy, Debug, PartialEq, Eq)]
pub enum BlockName {
    /// An object of static storage duration, by the number of its declarator.
    Declared { number: u64 },
    /// An object of automatic storage duration, by the activation and the number of its declarator.
    Local { activation: u128, number: u64 },
    /// A block that `malloc` or `calloc` made.
    Allocated { number: u64 },
    /// The object of a string literal.
    Literal { number: u64 },
    /// A structure or union that a call gave.
    Temporary { number: u64 },
}
