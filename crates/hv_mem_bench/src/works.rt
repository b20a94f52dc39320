//! The works that can be asked for.
use crate::access::{allocate, copy, end, place, store_and_load, store_and_load_pointer};
use hv_mem::{BlockId, Blocks, Memory};
use std::alloc::Global;

/// How many stores and loads a work of accesses does.
const ACCESSES: u32 = 1_000_000;

/// A step between accesses, odd, so that they go over the whole block in no order.
const STEP: u32 = 7_919;

/// What is done.
#[derive(Clone, Copy, PartialEq, Eq, Debug)]
pub enum Work {
    /// A million stores and loads of numbers in a block of N bytes.
    Accesses,
    /// A million stores and loads of pointers in a block of N bytes.
    Pointers,
    /// N blocks of 16 bytes, each made, written and ended.
    Blocks,
    /// A block of numbers that grows by doubling until it has N bytes.
    Growth,
    /// A million stores and loads in a block of 4096 bytes, beside one of N bytes that is never
    /// written.
    Unwritten,
}

impl Work {
    /// The work of this name.
    pub fn from_name(name: &str) -> Option<Work> {
        match name {
            "accesses" => Some(Work::Accesses),
            "pointers" => Some(Work::Pointers),
            "blocks" => Some(Work::Blocks),
            "growth" => Some(Work::Growth),
            "unwritten" => Some(Work::Unwritten),
            _ => None,
        }
    }

    /// The name of this work.
    pub fn name(self) -> &'static str {
        match self {
            Work::Accesses => "accesses",
            Work::Pointers => "pointers",
            Work::Blocks => "blocks",
            Work::Growth => "growth",
            Work::Unwritten => "unwritten",
        }
    }
}

/// How many accesses of the work gave what they should.
pub fn run(alloc: Global, work: Work, n: u32) -> Result<u64, Memory> {
    let mut blocks = Blocks::new(alloc);
    match work {
        Work::Accesses => {
            let block = allocate(&mut blocks, n)?;
            Ok(accesses(&mut blocks, block, n))
        },
        Work::Pointers => {
            let block = allocate(&mut blocks, n)?;
            Ok(pointers(&mut blocks, block, n))
        },
        Work::Blocks => short_lives(&mut blocks, n),
        Work::Growth => growth(&mut blocks, n),
        Work::Unwritten => {
            let _unwritten = allocate(&mut blocks, n)?;
            let block = allocate(&mut blocks, 4_096)?;
            Ok(accesses(&mut blocks, block, 4_096))
        },
    }
}

/// The next of the indices below a count, in no order.
fn next_index(index: u32, count: u32) -> u32 {
    if count == 0 {
        0
    } else {
        index.wrapping_add(STEP) % count
    }
}

/// Stores and loads numbers in a block.
fn accesses(blocks: &mut Blocks, block: BlockId, bytes: u32) -> u64 {
    let count = bytes / 4;
    let mut index: u32 = 0;
    let mut good: u64 = 0;
    for i in 0..ACCESSES {
        good = good.wrapping_add(store_and_load(blocks, place(block, index.wrapping_mul(4)), i));
        index = next_index(index, count);
    }
    good
}

/// Stores and loads pointers in a block.
fn pointers(blocks: &mut Blocks, block: BlockId, bytes: u32) -> u64 {
    let count = bytes / 8;
    let mut index: u32 = 0;
    let mut good: u64 = 0;
    for i in 0..ACCESSES {
        let at = place(block, index.wrapping_mul(8));
        good = good.wrapping_add(store_and_load_pointer(blocks, at, place(block, i)));
        index = next_index(index, count);
    }
    good
}

/// Makes so many blocks of 16 bytes, and ends each before the next.
fn short_lives(blocks: &mut Blocks, count: u32) -> Result<u64, Memory> {
    let mut good: u64 = 0;
    for i in 0..count {
        let block = allocate(blocks, 16)?;
        good = good.wrapping_add(store_and_load(blocks, place(block, 12), i));
        end(blocks, block);
    }
    Ok(good)
}

/// Writes numbers one after another into a block, which is copied into one of twice its size where
/// it is full.
fn growth(blocks: &mut Blocks, bytes: u32) -> Result<u64, Memory> {
    let mut room: u32 = 4;
    let mut block = allocate(blocks, room)?;
    let mut good: u64 = 0;
    for i in 0..bytes / 4 {
        let offset = i.wrapping_mul(4);
        if offset >= room {
            let larger = allocate(blocks, room.wrapping_mul(2))?;
            if copy(blocks, block, larger, room) {
                good = good.wrapping_add(1);
            }
            end(blocks, block);
            block = larger;
            room = room.wrapping_mul(2);
        }
        good = good.wrapping_add(store_and_load(blocks, place(block, offset), i));
    }
    Ok(good)
}
