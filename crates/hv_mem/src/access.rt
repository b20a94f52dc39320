//! Which accesses are allowed.
ghost use Rattle.std.specs.Prelude.{◌≡◌, ◌<◌, ◌&&◌, pos, length, Some, None, MatchResult};
ghost use Rattle.hv_mem.specs.Access.{IsAddress, contents_event, event, is_write};
ghost use Rattle.hv_mem.specs.working.Spots.{IsOffset, IsSpot};

use crate::address::Address;
use crate::block::{Block, Contents};
use crate::kind::Kind;

/// Whether an access reads or writes.
#[derive(Clone, Copy, Debug, PartialEq, Eq)]
pub enum Way {
    Read,
    Write,
}

/// Where an allowed access takes place.
#[derive(Clone, Copy, Debug)]
pub struct Spot {
    /// The block's index.
    pub block: usize,
    /// The first byte's index in the block.
    pub offset: usize,
}

/// Where an access to so many bytes takes place, or the event that it meets.
pub fn find(blocks: &[Block], at: Address, count: u64, align: u64, way: Way) -> Result<Spot, Kind>
    requires address { IsAddress blocks.now at }
    requires align { 0 < align }
    ensures { MatchResult result
        (λ spot. (event blocks.now at count align way ≡ None) × IsSpot blocks.now at count spot)
        (λ kind. event blocks.now at count align way ≡ Some kind) }
{
    let Some(id) = at.block else {
        return Err(Kind::NullAccess);
    };
    let index = id.index as usize;
    let block = &blocks[index];
    let forbidden = is_forbidden(way, block.sealed);
    match find_offset(&block.contents, at.offset, count, align, forbidden) {
        Ok(offset) => Ok(Spot {
            block: index,
            offset,
        }),
        Err(event) => Err(event),
    }
}

// Whether an access is forbidden to a block that is read-only or isn't.
fn is_forbidden(way: Way, sealed: bool) -> bool
    ensures { result ≡ (is_write way && sealed) }
{
    match way {
        Way::Read => false,
        Way::Write => sealed,
    }
}

// The index of the first byte of an access to a block, or the event that the access meets.
fn find_offset(
    contents: &Contents,
    offset: i64,
    count: u64,
    align: u64,
    forbidden: bool,
) -> Result<usize, Kind>
    requires { 0 < align }
    ensures { MatchResult result
        (λ index. (contents_event contents.now offset count align forbidden ≡ None)
        × IsOffset contents.now offset count index)
        (λ kind. contents_event contents.now offset count align forbidden ≡ Some kind) }
{
    let Contents::Live(bytes) = contents else {
        return Err(Kind::DeadObject);
    };
    if offset < 0 {
        return Err(Kind::OutsideObject);
    }
    let first = offset as u64;
    let size = bytes.len() as u64;
    if count > size || first > size - count {
        return Err(Kind::OutsideObject);
    }
    if first % align != 0 {
        return Err(Kind::Misaligned);
    }
    if forbidden {
        return Err(Kind::ReadOnly);
    }
    Ok(first as usize)
}
