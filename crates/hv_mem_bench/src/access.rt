//! Accesses to a memory whose answers are counted.
use hv_mem::{Address, BlockId, BlockName, Blocks, IntKind, Memory, Scalar, Value};

/// An address in a block.
pub fn place(block: BlockId, offset: u32) -> Address {
    Address {
        block: Some(block),
        offset: offset as i64,
    }
}

/// Stores a number of four bytes, and loads it again. 1 where the same came back, else 0.
pub fn store_and_load(blocks: &mut Blocks, at: Address, number: u32) -> u64 {
    let value = Value::Number {
        bits: number as u64,
        kind: IntKind::UnsignedInt,
    };
    same_again(blocks, at, value, Scalar::Integer(IntKind::UnsignedInt))
}

/// Stores a pointer, and loads it again. 1 where the same came back, else 0.
pub fn store_and_load_pointer(blocks: &mut Blocks, at: Address, to: Address) -> u64 {
    same_again(blocks, at, Value::Pointer(to), Scalar::Pointer)
}

fn same_again(blocks: &mut Blocks, at: Address, value: Value, scalar: Scalar) -> u64 {
    if !blocks.has(at) || blocks.store(at, value).is_err() || !blocks.has(at) {
        return 0;
    }
    match blocks.load(at, scalar) {
        Ok(loaded) => { if loaded == value { 1 } else { 0 } }
        Err(_) => 0,
    }
}

/// Copies so many bytes from the start of one block to that of another. Whether that was allowed.
pub fn copy(blocks: &mut Blocks, from: BlockId, to: BlockId, bytes: u32) -> bool {
    let from = place(from, 0);
    let to = place(to, 0);
    blocks.has(from) && blocks.has(to) && blocks.copy(from, to, bytes as u64, 4).is_ok()
}

/// Ends a block.
pub fn end(blocks: &mut Blocks, block: BlockId) {
    let start = Address {
        block: Some(block),
        offset: 0,
    };
    if blocks.has(start) {
        blocks.end(block);
    }
}

/// An allocation of so many bytes, up to the limit.
pub fn allocate(blocks: &mut Blocks, bytes: u32) -> Result<BlockId, Memory> {
    let number = blocks.allocations();
    blocks.add(
        BlockName::Allocated { number },
        bytes.min(1_073_741_824) as u64,
    )
}
