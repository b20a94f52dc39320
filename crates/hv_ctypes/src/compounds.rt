//! The table of structures and unions: how it begins, and how it grows.
ghost use Rattle.std.specs.Prelude.{◌≡◌, ◌++◌, ◌∷◌, [], Some, length, map, IfOk, IfNone, OnOk, OnErr, OnSome};
ghost use Rattle.hv_ctree.specs.types.Erasure.{member_of};
ghost use Rattle.hv_ctree.specs.types.Table.{compounds_of};
ghost use Rattle.hv_ctypes.specs.Compounds.{incomplete, incomplete_kind, with_members, layout_of_members, layout_with};

use crate::members::members_layout;
use hv_base::{List, Memory, Text};
use hv_ctree::{CompoundType, Layout, Member, Types};
use std::alloc::Global;

/// A table without structures and unions.
pub fn new_types(alloc: Global) -> Types
    ensures { compounds_of result ≡ [] }
{
    Types {
        compounds: List::new(alloc),
    }
}

/// Adds a structure or union without members, and gives its number (ISO/IEC 9899:1999, 6.7.2.3).
pub fn declare_compound(types: &mut Types, is_union: bool, tag: Option<Text>) -> Result<u64, Memory>
    ensures number { IfOk result (λ number. number ≡ length (compounds_of types.old)) }
    ensures ok { OnOk result
        (compounds_of types.new ≡ compounds_of types.old ++ incomplete is_union tag ∷ []) }
    ensures unchanged { OnErr result (compounds_of types.new ≡ compounds_of types.old) }
{
    let number = types.compounds.len() as u64;
    types.compounds.add(CompoundType {
        is_union,
        tag,
        members: None,
        layout: None,
    })?;
    Ok(number)
}

/// Gives an incomplete structure or union its members, and computes its layout once for all
/// (ISO/IEC 9899:1999, 6.7.2.1). `None` where nothing incomplete has this number, there is no
/// member, one of them has no layout, or all together are larger than the limit on objects; then
/// nothing changes.
pub fn complete_compound(types: &mut Types, number: u64, members: List<Member>) -> Option<Layout>
    ensures value { result ≡ layout_with (compounds_of types.old) number (map member_of members) }
    ensures some { OnSome result
        (compounds_of types.new
        ≡ with_members (compounds_of types.old) number (map member_of members)) }
    ensures none { IfNone result (compounds_of types.new ≡ compounds_of types.old) }
{
    let is_union = kind_of_incomplete(types, number)?;
    let layout = members_layout(types, is_union, &members)?;
    put_members(types, number as usize, is_union, members, layout);
    Some(layout)
}

// Whether the incomplete structure or union with this number is a union.
fn kind_of_incomplete(types: &Types, number: u64) -> Option<bool>
    ensures { result ≡ incomplete_kind (compounds_of types.now) number }
{
    let compound = types.compounds.get(number as usize)?;
    match &compound.members {
        None => Some(compound.is_union),
        Some(_) => None,
    }
}

// Puts the members of an incomplete structure or union in, with the layout that they give it.
fn put_members(
    types: &mut Types,
    number: usize,
    is_union: bool,
    members: List<Member>,
    layout: Layout,
)
    requires incomplete { incomplete_kind (compounds_of types.old) number ≡ Some is_union }
    requires layout { layout_of_members (compounds_of types.old) is_union (map member_of members)
        ≡ Some layout }
    ensures { compounds_of types.new
        ≡ with_members (compounds_of types.old) number (map member_of members) }
{
    let none = CompoundType {
        is_union,
        tag: None,
        members: None,
        layout: None,
    };
    let before = types.compounds.replace(number, none);
    let complete = CompoundType {
        is_union,
        tag: before.tag,
        members: Some(members),
        layout: Some(layout),
    };
    let _ = types.compounds.replace(number, complete);
}
