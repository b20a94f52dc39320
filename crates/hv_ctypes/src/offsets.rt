//! The offsets of members.
ghost use Rattle.std.specs.Prelude.{◌≡◌, ◌≤◌, IsTrue, IsSome, IfOk, IfSome, Some, map};
ghost use Rattle.std.specs.Option.{option_map};
ghost use Rattle.hv_base.specs.declared.limits.TheConstants.{MOST_OBJECT_BYTES};
ghost use Rattle.hv_ctree.specs.types.Erasure.{member_of};
ghost use Rattle.hv_ctree.specs.types.Table.{compounds_of};
ghost use Rattle.hv_ctree.specs.types.Layouts.{member_layouts, is_alignment};
ghost use Rattle.hv_ctree.specs.types.Offsets as offsets;
ghost use Rattle.hv_ctypes.specs.Compounds.{layouts_in, layout_of_members};
ghost use Rattle.hv_ctypes.specs.Members.{offsets_at, LieApartAt};
ghost use Rattle.hv_ctypes.specs.working.Walks as walks;

use crate::layouts::{kept_layout, layout};
use crate::members::{next_offset, taken_after};
use hv_base::{List, Memory};
use hv_ctree::{Layout, Member, Types};
use std::alloc::Global;

/// The offsets of the members of the structure or union with this number, in order (ISO/IEC
/// 9899:1999, 6.7.2.1), or `None` where it is incomplete. Members of a structure don't overlap.
pub fn member_offsets(
    alloc: Global,
    types: &Types,
    number: u64,
) -> Result<Option<List<u64>>, Memory>
    ensures value { IfOk result (λ found. found ≡ offsets_at (compounds_of types.now) number) }
    ensures apart { IfOk result
        (λ found. IfSome found (λ offsets. LieApartAt (compounds_of types.now) number offsets)) }
{
    if kept_layout(types, number).is_none() {
        return Ok(None);
    }
    match types.compounds.get(number as usize) {
        None => Ok(None),
        Some(compound) => match &compound.members {
            None => Ok(None),
            Some(members) => {
                let offsets = offsets_of_members(alloc, types, compound.is_union, members)?;
                Ok(Some(offsets))
            }
        },
    }
}

// The offsets of members that have a layout together.
fn offsets_of_members(
    alloc: Global,
    types: &Types,
    is_union: bool,
    members: &List<Member>,
) -> Result<List<u64>, Memory>
    requires { IsSome
        (layout_of_members (compounds_of types.now) is_union (map member_of members.now)) }
    ensures { IfOk result
        (λ found.
        option_map (offsets.offsets is_union)
        (member_layouts (layouts_in (compounds_of types.now)) (map member_of members.now))
        ≡ Some found) }
{
    let mut offsets = List::new(alloc);
    let mut taken = 0;
    for member in members.as_slice() {
        match layout(types, &member.of) {
            Some(layout) => {
                offsets.add(offset_after(is_union, taken, layout))?;
                taken = taken_after(is_union, taken, layout);
            }
            None => unreachable!(),
        }
    }
    Ok(offsets)
}

// Where a member stands after members that take these bytes.
fn offset_after(is_union: bool, taken: u64, member: Layout) -> u64
    requires taken { taken ≤ MOST_OBJECT_BYTES }
    requires align { IsTrue (is_alignment member.align) }
    ensures { result ≡ walks.offset_after is_union taken member }
{
    if is_union {
        0
    } else {
        next_offset(taken, member.align)
    }
}
