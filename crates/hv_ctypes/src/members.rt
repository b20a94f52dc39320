//! Members one after another, and the layout of them all.
ghost use Rattle.std.specs.Prelude.{◌≡◌, ◌+◌, ◌%◌, ◌<◌, ◌≤◌, IsTrue, IfSome, max, map, Some};
ghost use Rattle.hv_base.specs.declared.limits.TheConstants.{MOST_OBJECT_BYTES};
ghost use Rattle.hv_ctree.specs.types.Erasure.{member_of};
ghost use Rattle.hv_ctree.specs.types.Table.{compounds_of};
ghost use Rattle.hv_ctree.specs.types.Layouts as layouts;
ghost use Rattle.hv_ctree.specs.types.Layouts.{within_limit, is_alignment};
ghost use Rattle.hv_ctypes.specs.Compounds.{layout_of_members};
ghost use Rattle.hv_ctypes.specs.working.Walks as walks;

use crate::layouts::layout;
use hv_base::{List, MOST_OBJECT_BYTES};
use hv_ctree::{Layout, Member, Types};

// The layout of a structure or union with these members, or `None` where it has none, one of them
// has none, or it is larger than the limit on objects.
pub(crate) fn members_layout(
    types: &Types,
    is_union: bool,
    members: &List<Member>,
) -> Option<Layout>
    ensures value { result
        ≡ layout_of_members (compounds_of types.now) is_union (map member_of members.now) }
    ensures aligned { IfSome result (λ l. IsTrue (is_alignment l.align)) }
{
    if members.len() == 0 {
        return None;
    }
    let mut taken = 0;
    let mut align = 1;
    for member in members.as_slice() {
        let layout = layout(types, &member.of)?;
        taken = taken_after(is_union, taken, layout);
        if taken > MOST_OBJECT_BYTES {
            return None;
        }
        align = larger_alignment(align, layout.align);
    }
    padded(taken, align)
}

// The bytes that members take once one more stands after them, or over them in a union.
pub(crate) fn taken_after(is_union: bool, taken: u64, member: Layout) -> u64
    requires taken { taken ≤ MOST_OBJECT_BYTES }
    requires size { member.size ≤ MOST_OBJECT_BYTES }
    requires align { IsTrue (is_alignment member.align) }
    ensures { result ≡ walks.taken_after is_union taken member }
{
    if is_union {
        taken.max(member.size)
    } else {
        next_offset(taken, member.align) + member.size
    }
}

fn larger_alignment(a: u64, b: u64) -> u64
    requires left { IsTrue (is_alignment a) }
    requires right { IsTrue (is_alignment b) }
    ensures value { result ≡ max a b }
    ensures aligned { IsTrue (is_alignment result) }
{
    a.max(b)
}

// The layout of a structure or union whose members take these bytes.
fn padded(taken: u64, align: u64) -> Option<Layout>
    requires taken { taken ≤ MOST_OBJECT_BYTES }
    requires align { IsTrue (is_alignment align) }
    ensures value { result
        ≡ within_limit (Some (record { size = layouts.rounded_up taken align; align = align })) }
    ensures aligned { IfSome result (λ l. IsTrue (is_alignment l.align)) }
{
    let size = next_offset(taken, align);
    if size > MOST_OBJECT_BYTES {
        None
    } else {
        Some(Layout { size, align })
    }
}

/// Where a member with this alignment begins that stands after `position` bytes of its structure:
/// at the least multiple of its alignment from there on (ISO/IEC 9899:1999, 6.7.2.1).
pub fn next_offset(position: u64, align: u64) -> u64
    requires position { position ≤ MOST_OBJECT_BYTES }
    requires align { IsTrue (is_alignment align) }
    ensures value { result ≡ layouts.rounded_up position align }
    ensures after { position ≤ result }
    ensures multiple { result % align ≡ 0 }
    ensures within { result < position + align }
    ensures small { align ≤ 8 }
{
    position + (align - position % align) % align
}
