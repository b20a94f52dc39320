//! What is asked of one block, and what happens to it.
ghost use Rattle.std.specs.Prelude.{◌≡◌, ◌<◌, length, true};
ghost use Rattle.hv_mem.specs.Memory.{changed, ended, is_allocation, is_live, size_in};

use crate::address::BlockName;
use crate::block::{Block, Contents};

/// Whether a name is that of an allocation.
pub fn is_allocation(name: BlockName) -> bool
    ensures { result ≡ is_allocation name }
{
    match name {
        BlockName::Allocated { .. } => true,
        BlockName::Declared { .. }
        | BlockName::Local { .. }
        | BlockName::Literal { .. }
        | BlockName::Temporary { .. } => false,
    }
}

/// Whether a block that holds this is live.
pub fn is_live(contents: &Contents) -> bool
    ensures { result ≡ is_live contents.now }
{
    match contents {
        Contents::Live(_) => true,
        Contents::Ended { .. } => false,
    }
}

/// The size of a block that holds this.
pub fn contents_size(contents: &Contents) -> u64
    ensures { result ≡ size_in contents.now }
{
    match contents {
        Contents::Live(bytes) => bytes.len() as u64,
        Contents::Ended { size } => *size,
    }
}

/// Makes the block of an index read-only.
pub fn seal_in(blocks: &mut Vec<Block>, index: usize)
    requires { index < length blocks.old.items }
    ensures { blocks.new.items ≡ changed (λ b. record b { sealed = true }) index blocks.old.items }
{
    let block = &mut blocks[index];
    block.sealed = true;
}

/// Ends the block of an index.
pub fn end_in(blocks: &mut Vec<Block>, index: usize)
    requires { index < length blocks.old.items }
    ensures { blocks.new.items
        ≡ changed (λ b. record b { contents = ended b.contents }) index blocks.old.items }
{
    let block = &mut blocks[index];
    let size = contents_size(&block.contents);
    block.contents = Contents::Ended { size };
}
