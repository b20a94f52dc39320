//! The bytes of one block.
ghost use Rattle.std.specs.Prelude.{◌≡◌, ◌≢◌, ◌<◌, ◌≤◌, ℕ, length, replicate, slice_index_or, slice_set, IfOk};
ghost use Rattle.std.specs.Vec.{vec_capacity};
ghost use Rattle.hv_mem.specs.declared.value.Byte.TheVariants.{Indeterminate, Part};
ghost use Rattle.hv_mem.specs.working.Cells.{byte_at, byte_of};

use crate::address::{Address, BlockId};
use crate::value::{Byte, Pointer};
use hv_base::Memory;
use std::alloc::Global;
use std::marker::Model;

/// One byte as it is kept. A part of a pointer is told by the pointer's form and the part's index;
/// the pointer's number and offset stand beside the cells, at the same index.
#[derive(Clone, Copy, Debug)]
pub enum Cell {
    Unset,
    Number(u8),
    NullPart(u8),
    ObjectPart(u8),
    FunctionPart(u8),
}

/// The bytes of a live block. Room for all is taken when the block is made, and only what was
/// written, or lies before a byte that was, is filled in.
#[derive(Drop)]
pub struct Bytes {
    size: usize,
    cells: Vec<Cell>,
    /// Of a part of a pointer, the number of the block or function that it leads to.
    numbers: Vec<u64>,
    /// Of a part of a pointer, the offset.
    offsets: Vec<i64>,
}

impl Model for Bytes {
    ghost use Rattle.std.specs.Prelude.{◌≤◌, List};
    ghost use Rattle.std.specs.Vec.{vec_capacity};
    ghost use Rattle.hv_mem.specs.declared.value.Byte.{Byte};

    ghost Value = { List Byte };

    ghost use Rattle.hv_mem.specs.working.Cells.{seen};

    ghost view = { λ b. seen b.size b.cells.items b.numbers.items b.offsets.items };

    ghost invariant = { λ b. (b.size ≤ vec_capacity b.cells)
        × (b.size ≤ vec_capacity b.numbers)
        × (b.size ≤ vec_capacity b.offsets) };
}

impl Bytes {
    /// So many indeterminate bytes.
    pub fn new(alloc: Global, size: usize) -> Result<Bytes, Memory>
        ensures { IfOk result (λ bytes. bytes ≡ replicate size Indeterminate) }
    {
        let cells = Vec::with_capacity(alloc, size)?;
        let numbers = Vec::with_capacity(alloc, size)?;
        let offsets = Vec::with_capacity(alloc, size)?;
        Ok(Bytes {
            size,
            cells,
            numbers,
            offsets,
        })
    }

    /// How many bytes there are.
    pub fn len(&self) -> usize
        ensures { result ≡ length self.now }
    {
        self.size
    }

    /// The byte at an index.
    pub fn get(&self, k: usize) -> Byte
        requires { k < length self.now }
        ensures { result ≡ slice_index_or self.now k Indeterminate }
    {
        let cell = item_at(&self.cells, k, Cell::Unset);
        let number = item_at(&self.numbers, k, 0);
        let offset = item_at(&self.offsets, k, 0);
        kept_byte(cell, number, offset)
    }

    /// Puts a byte at an index. It takes no memory.
    pub fn put(&mut self, k: usize, byte: Byte)
        requires { k < length self.old }
        ensures { self.new ≡ slice_set self.old k byte }
    {
        put_kept(
            &mut self.cells,
            &mut self.numbers,
            &mut self.offsets,
            k,
            byte,
        );
    }
}

// Puts a byte at an index of what is kept.
fn put_kept(
    cells: &mut Vec<Cell>,
    numbers: &mut Vec<u64>,
    offsets: &mut Vec<i64>,
    k: usize,
    byte: Byte,
)
    requires cells { k < vec_capacity cells.old }
    requires numbers { k < vec_capacity numbers.old }
    requires offsets { k < vec_capacity offsets.old }
    ensures here { byte_at cells.new.items numbers.new.items offsets.new.items k ≡ byte }
    ensures elsewhere { (j : ℕ) → j ≢ k
        → byte_at cells.new.items numbers.new.items offsets.new.items j
        ≡ byte_at cells.old.items numbers.old.items offsets.old.items j }
    ensures more_cells { vec_capacity cells.old ≤ vec_capacity cells.new }
    ensures more_numbers { vec_capacity numbers.old ≤ vec_capacity numbers.new }
    ensures more_offsets { vec_capacity offsets.old ≤ vec_capacity offsets.new }
{
    match byte {
        Byte::Indeterminate => put_item(cells, k, Cell::Unset, Cell::Unset),
        Byte::Number(n) => put_item(cells, k, Cell::Number(n), Cell::Unset),
        Byte::Part { pointer, index } => {
            let (cell, number, offset) = kept_part(pointer, index);
            put_item(cells, k, cell, Cell::Unset);
            put_item(numbers, k, number, 0);
            put_item(offsets, k, offset, 0);
        },
    }
}

// The byte that a cell is, with the number and the offset beside it.
fn kept_byte(cell: Cell, number: u64, offset: i64) -> Byte
    ensures { result ≡ byte_of cell number offset }
{
    match cell {
        Cell::Unset => Byte::Indeterminate,
        Cell::Number(n) => Byte::Number(n),
        Cell::NullPart(index) => Byte::Part {
            pointer: Pointer::ToObject(Address {
                block: None,
                offset,
            }),
            index,
        },
        Cell::ObjectPart(index) => Byte::Part {
            pointer: Pointer::ToObject(Address {
                block: Some(BlockId { index: number }),
                offset,
            }),
            index,
        },
        Cell::FunctionPart(index) => Byte::Part {
            pointer: Pointer::ToFunction { number },
            index,
        },
    }
}

// How a part of a pointer is kept: its cell, number and offset.
fn kept_part(pointer: Pointer, index: u8) -> (Cell, u64, i64)
    ensures { byte_of result.0 result.1 result.2
        ≡ Part pointer index }
{
    match pointer {
        Pointer::ToObject(
            Address {
                block: None,
                offset,
            },
        ) => (Cell::NullPart(index), 0, offset),
        Pointer::ToObject(
            Address {
                block: Some(id),
                offset,
            },
        ) => (Cell::ObjectPart(index), id.index, offset),
        Pointer::ToFunction { number } => (Cell::FunctionPart(index), number, 0),
    }
}

// The item at an index of a list that is `rest` beyond its end.
fn item_at<T: Copy + Drop>(items: &Vec<T>, k: usize, rest: T) -> T
    ensures { result ≡ slice_index_or items.now.items k rest }
{
    if k < items.len() { items[k] } else { rest }
}

// Puts an item at an index of a list that is `rest` beyond its end. It takes no memory, since there
// is room.
fn put_item<T: Copy + Drop>(items: &mut Vec<T>, k: usize, item: T, rest: T)
    requires { k < vec_capacity items.old }
    ensures here { slice_index_or items.new.items k rest ≡ item }
    ensures elsewhere { (j : ℕ) → j ≢ k
        → slice_index_or items.new.items j rest ≡ slice_index_or items.old.items j rest }
    ensures capacity { vec_capacity items.old ≤ vec_capacity items.new }
{
    if k >= items.len() {
        match items.resize(k + 1, rest) {
            Ok(()) => {},
            Err(_) => unreachable!(),
        }
    }
    items[k] = item;
}
