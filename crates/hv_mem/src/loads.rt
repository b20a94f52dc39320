//! Loads and stores of scalars in memory.
ghost use Rattle.std.specs.Prelude.{◌≡◌, ◌+◌, ◌≤◌, None, Some, IfErr, OnErr, OnOk, length, pos, true};
ghost use Rattle.hv_mem.specs.Memory.{bytes_in, is_live, rewritten};
ghost use Rattle.hv_mem.specs.Scalars.{bytes_of, scalar_of, scalar_size};
ghost use Rattle.hv_mem.specs.Access.{IsAddress, loaded, store_event, stored};

use crate::access::{Way, find};
use crate::address::Address;
use crate::block::{Block, Contents};
use crate::kind::Kind;
use crate::scalars::{read, scalar_of, scalar_size, write};
use crate::value::{Scalar, Value};

/// The scalar at an address.
pub fn load_in(blocks: &[Block], at: Address, kind: Scalar) -> Result<Value, Kind>
    requires { IsAddress blocks.now at }
    ensures { result ≡ loaded blocks.now at kind }
{
    let size = scalar_size(kind);
    let spot = find(blocks, at, size as u64, size as u64, Way::Read)?;
    match &blocks[spot.block].contents {
        Contents::Live(bytes) => read(bytes, spot.offset, kind),
        Contents::Ended { .. } => unreachable!(),
    }
}

/// Stores a value at an address.
pub fn store_in(blocks: &mut Vec<Block>, at: Address, value: Value) -> Result<(), Kind>
    requires { IsAddress blocks.old.items at }
    ensures ok { OnOk result
        ((store_event blocks.old.items at value ≡ None)
        × (blocks.new.items ≡ stored blocks.old.items at value)) }
    ensures err { IfErr result (λ kind. store_event blocks.old.items at value ≡ Some kind) }
    ensures unchanged { OnErr result (blocks.new.items ≡ blocks.old.items) }
{
    let size = scalar_size(scalar_of(value));
    let spot = find(blocks.as_slice(), at, size as u64, size as u64, Way::Write)?;
    write_in(&mut blocks[spot.block], spot.offset, value);
    Ok(())
}

// Stores a value at an offset of a live block.
fn write_in(block: &mut Block, offset: usize, value: Value)
    requires live { is_live block.old.contents ≡ true }
    requires within { offset + scalar_size (scalar_of value)
        ≤ length (bytes_in block.old.contents) }
    ensures { block.new ≡ rewritten (pos offset) (bytes_of value) block.old }
{
    match &mut block.contents {
        Contents::Live(bytes) => write(bytes, offset, value),
        Contents::Ended { .. } => unreachable!(),
    }
}
