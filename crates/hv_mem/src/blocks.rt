//! Memory.
ghost use Rattle.std.specs.Prelude.{true, ◌≡◌, ◌↔◌, ◌∷◌, ◌++◌, ◌<◌, ◌≤◌, [], None, Some, IfOk, IfErr, IfSome, IsTrue, OnOk, OnErr, length, slice_get};
ghost use Rattle.hv_mem.specs.Memory.{allocation_count, bytes_at, changed, ended, fresh, is_allocation_start, size_in};
ghost use Rattle.hv_mem.specs.Scalars.{scalar_of, scalar_size};
ghost use Rattle.hv_mem.specs.Access.{IsAddress, copied, copy_event, loaded, store_event, stored};
ghost use Rattle.hv_mem.specs.Laws.{Becomes, GivesBack, SameOutside};

use crate::address::{Address, BlockId, BlockName};
use crate::block::{Block, Contents};
use crate::cells::Bytes;
use crate::changes::{contents_size, end_in, is_allocation, is_live, seal_in};
use crate::copies::copy_in;
use crate::kind::Kind;
use crate::loads::{load_in, store_in};
use crate::value::{Scalar, Value};
use hv_base::{MOST_OBJECT_BYTES, Memory};
use std::alloc::Global;
use std::marker::Model;

/// A memory of named blocks of abstract bytes. Contracts see it as the list of its blocks.
#[derive(Drop)]
pub struct Blocks {
    alloc: Global,
    blocks: Vec<Block>,
    allocations: u64,
}

impl Model for Blocks {
    ghost use Rattle.std.specs.Prelude.{◌≡◌};
    ghost use Rattle.hv_mem.specs.Memory.{Blocks as MemoryBlocks, allocation_count};

    ghost Value = { MemoryBlocks };

    ghost view = { λ m. m.blocks.items };

    ghost invariant = { λ m. m.allocations ≡ allocation_count m.blocks.items };
}

impl Blocks {
    /// The memory without a block.
    pub fn new(alloc: Global) -> Blocks
        ensures { result ≡ [] }
    {
        Blocks {
            alloc,
            blocks: Vec::new(alloc),
            allocations: 0,
        }
    }

    /// Adds a live block of so many indeterminate bytes, and hands out its number. Room for all its
    /// bytes is taken now, so that no store needs any.
    pub fn add(&mut self, name: BlockName, size: u64) -> Result<BlockId, Memory>
        requires { size ≤ MOST_OBJECT_BYTES }
        ensures ok { OnOk result (self.new ≡ self.old ++ fresh name size ∷ []) }
        ensures number { IfOk result (λ id. id.index ≡ length self.old) }
        ensures unchanged { OnErr result (self.new ≡ self.old) }
        ensures becomes { Becomes self.old self.new }
    {
        // No memory holds so many blocks.
        if self.allocations == u64::MAX {
            return Err(Memory);
        }
        let bytes = Bytes::new(self.alloc, size as usize)?;
        let index = self.blocks.len() as u64;
        let contents = Contents::Live(bytes);
        self.blocks.push(Block {
            name,
            sealed: false,
            contents,
        })?;
        if is_allocation(name) {
            self.allocations += 1;
        }
        Ok(BlockId { index })
    }

    /// Makes a block read-only.
    pub fn seal(&mut self, block: BlockId)
        requires { block.index < length self.old }
        ensures sealed { self.new ≡ changed (λ b. record b { sealed = true }) block.index self.old }
        ensures number { length self.new ≡ length self.old }
        ensures becomes { Becomes self.old self.new }
    {
        seal_in(&mut self.blocks, block.index as usize);
    }

    /// Ends a block: it is dead from now on, and its bytes are given back.
    pub fn end(&mut self, block: BlockId)
        requires { block.index < length self.old }
        ensures ended { self.new
            ≡ changed (λ b. record b { contents = ended b.contents }) block.index self.old }
        ensures number { length self.new ≡ length self.old }
        ensures becomes { Becomes self.old self.new }
    {
        end_in(&mut self.blocks, block.index as usize);
    }

    /// The scalar at an address, or the event that reading it meets.
    pub fn load(&self, at: Address, kind: Scalar) -> Result<Value, Kind>
        requires { IsAddress self.now at }
        ensures { result ≡ loaded self.now at kind }
    {
        load_in(self.blocks.as_slice(), at, kind)
    }

    /// Stores a value at an address, or answers the event that this meets.
    pub fn store(&mut self, at: Address, value: Value) -> Result<(), Kind>
        requires { IsAddress self.old at }
        ensures ok { OnOk result
            ((store_event self.old at value ≡ None) × (self.new ≡ stored self.old at value)) }
        ensures err { IfErr result (λ kind. store_event self.old at value ≡ Some kind) }
        ensures unchanged { OnErr result (self.new ≡ self.old) }
        ensures number { length self.new ≡ length self.old }
        ensures becomes { Becomes self.old self.new }
        ensures elsewhere { OnOk result
            (SameOutside self.old self.new at (scalar_size (scalar_of value))) }
        ensures loads { OnOk result (GivesBack self.new at value) }
    {
        store_in(&mut self.blocks, at, value)
    }

    /// Makes so many bytes at `to` what those at `from` were, as they are, or answers the event
    /// that this meets: `from` is checked first, as a read, then `to`, as a write. The ranges may
    /// overlap.
    pub fn copy(&mut self, from: Address, to: Address, bytes: u64, align: u64) -> Result<(), Kind>
        requires from { IsAddress self.old from }
        requires to { IsAddress self.old to }
        requires align { 0 < align }
        ensures ok { OnOk result
            ((copy_event self.old from to bytes align ≡ None)
            × (self.new ≡ copied self.old from to bytes)) }
        ensures err { IfErr result
            (λ kind. copy_event self.old from to bytes align ≡ Some kind) }
        ensures unchanged { OnErr result (self.new ≡ self.old) }
        ensures number { length self.new ≡ length self.old }
        ensures becomes { Becomes self.old self.new }
        ensures elsewhere { OnOk result (SameOutside self.old self.new to bytes) }
        ensures moved { OnOk result
            (bytes_at self.new to bytes ≡ bytes_at self.old from bytes) }
    {
        copy_in(&mut self.blocks, from, to, bytes, align)
    }

    /// Whether an address is null or its block is one of this memory, as the other calls require.
    pub fn has(&self, at: Address) -> bool
        ensures { IsTrue result ↔ IsAddress self.now at }
    {
        match at.block {
            Some(id) => (id.index as usize) < self.blocks.len(),
            None => true,
        }
    }

    /// The size of a block in bytes, also of one that has ended.
    pub fn size(&self, block: BlockId) -> u64
        requires { block.index < length self.now }
        ensures { IfSome (slice_get self.now block.index) (λ b. result ≡ size_in b.contents) }
    {
        let block = &self.blocks[block.index as usize];
        contents_size(&block.contents)
    }

    /// Whether an address is the start of a live block that is named as an allocation.
    pub fn is_allocated(&self, at: Address) -> bool
        requires { IsAddress self.now at }
        ensures { result ≡ is_allocation_start self.now at }
    {
        let Some(id) = at.block else {
            return false;
        };
        let block = &self.blocks[id.index as usize];
        at.offset == 0 && is_allocation(block.name) && is_live(&block.contents)
    }

    /// How many blocks were added under the name of an allocation.
    pub fn allocations(&self) -> u64
        ensures { result ≡ allocation_count self.now }
    {
        self.allocations
    }
}
