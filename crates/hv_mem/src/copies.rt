//! Copies of bytes in memory.
ghost use Rattle.std.specs.Prelude.{◌≡◌, ◌≢◌, ◌+◌, ◌<◌, ◌≤◌, None, Some, IfErr, IfSome, OnErr, OnOk, drop, length, pos, slice_get, take, true};
ghost use Rattle.hv_mem.specs.declared.block.Contents.TheVariants.{Ended, Live};
ghost use Rattle.hv_mem.specs.Memory.{block_bytes, bytes_in, changed, is_live, rewritten, spliced};
ghost use Rattle.hv_mem.specs.Access.{IsAddress, copied, copy_event};
ghost use Rattle.hv_mem.specs.working.Spots.{HasRoom};

use crate::access::{Spot, Way, find};
use crate::address::Address;
use crate::block::{Block, Contents};
use crate::kind::Kind;
use crate::moves::{copy_between, move_within};
use std::mem;

/// Copies bytes as they are.
pub fn copy_in(
    blocks: &mut Vec<Block>,
    from: Address,
    to: Address,
    count: u64,
    align: u64,
) -> Result<(), Kind>
    requires from { IsAddress blocks.old.items from }
    requires to { IsAddress blocks.old.items to }
    requires align { 0 < align }
    ensures ok { OnOk result
        ((copy_event blocks.old.items from to count align ≡ None)
        × (blocks.new.items ≡ copied blocks.old.items from to count)) }
    ensures err { IfErr result
        (λ kind. copy_event blocks.old.items from to count align ≡ Some kind) }
    ensures unchanged { OnErr result (blocks.new.items ≡ blocks.old.items) }
{
    let source = find(blocks.as_slice(), from, count, align, Way::Read)?;
    let target = find(blocks.as_slice(), to, count, align, Way::Write)?;
    if source.block == target.block {
        move_in(
            &mut blocks[target.block],
            source.offset,
            target.offset,
            count as usize,
        );
    } else {
        copy_across(blocks, source, target, count as usize);
    }
    Ok(())
}

// Moves bytes within a live block.
fn move_in(block: &mut Block, from: usize, to: usize, count: usize)
    requires live { is_live block.old.contents ≡ true }
    requires source { from + count ≤ length (bytes_in block.old.contents) }
    requires target { to + count ≤ length (bytes_in block.old.contents) }
    ensures { block.new
        ≡ rewritten (pos to) (take count (drop from (bytes_in block.old.contents))) block.old }
{
    match &mut block.contents {
        Contents::Live(bytes) => move_within(bytes, from, to, count),
        Contents::Ended { .. } => unreachable!(),
    }
}

// Copies bytes of a live block into another one. The other's bytes are taken out of it meanwhile.
fn copy_across(blocks: &mut Vec<Block>, source: Spot, target: Spot, count: usize)
    requires apart { source.block ≢ target.block }
    requires source { HasRoom blocks.old.items count source }
    requires target { HasRoom blocks.old.items count target }
    ensures { blocks.new.items
        ≡ changed
        (rewritten (pos target.offset)
        (take count (drop source.offset (block_bytes (slice_get blocks.old.items source.block)))))
        target.block blocks.old.items }
{
    let taken = take_contents(blocks, target.block);
    let new = filled(
        &blocks[source.block].contents,
        source.offset,
        taken,
        target.offset,
        count,
    );
    put_contents(blocks, target.block, new);
}

// Takes out what a block holds, and leaves an ended one of no bytes.
fn take_contents(blocks: &mut Vec<Block>, index: usize) -> Contents
    requires { index < length blocks.old.items }
    ensures taken { IfSome (slice_get blocks.old.items index) (λ b. result ≡ b.contents) }
    ensures left { blocks.new.items
        ≡ changed (λ b. record b { contents = Ended 0 }) index blocks.old.items }
{
    let block = &mut blocks[index];
    mem::replace(&mut block.contents, Contents::Ended { size: 0 })
}

// Puts what a block holds into it.
fn put_contents(blocks: &mut Vec<Block>, index: usize, contents: Contents)
    requires { index < length blocks.old.items }
    ensures { blocks.new.items
        ≡ changed (λ b. record b { contents = contents }) index blocks.old.items }
{
    let block = &mut blocks[index];
    block.contents = contents;
}

// What a live block holds after bytes of another one were copied into it.
fn filled(source: &Contents, from: usize, target: Contents, to: usize, count: usize) -> Contents
    requires source_live { is_live source.now ≡ true }
    requires source { from + count ≤ length (bytes_in source.now) }
    requires target_live { is_live target ≡ true }
    requires target { to + count ≤ length (bytes_in target) }
    ensures { result
        ≡ Live (spliced (pos to) (take count (drop from (bytes_in source.now))) (bytes_in target)) }
{
    match (source, target) {
        (Contents::Live(source), Contents::Live(mut target)) => {
            copy_between(source, from, &mut target, to, count);
            Contents::Live(target)
        },
        (_, target) => target,
    }
}
