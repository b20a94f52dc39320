//! Sizes and alignments.
ghost use Rattle.std.specs.Prelude.{◌≡◌, ◌%◌, ◌≤◌, IsTrue, IfSome, IsSomeAnd};
ghost use Rattle.hv_base.specs.declared.limits.TheConstants.{MOST_OBJECT_BYTES};
ghost use Rattle.hv_ctree.specs.types.Erasure.{type_of};
ghost use Rattle.hv_ctree.specs.types.Table.{compounds_of};
ghost use Rattle.hv_ctree.specs.types.Kinds as kinds;
ghost use Rattle.hv_ctree.specs.types.Layouts as layouts;
ghost use Rattle.hv_ctree.specs.types.Layouts.{within_limit, layout_by, is_alignment};
ghost use Rattle.hv_ctypes.specs.Compounds.{layouts_in};
ghost use Rattle.hv_ctypes.specs.working.Walks as walks;

use hv_base::MOST_OBJECT_BYTES;
use hv_ctree::{CType, IntKind, Layout, Shape, Types};

/// The size and the alignment of a type (ISO/IEC 9899:1999, 6.7.2.1), or `None` where it is
/// incomplete, a function, or larger than the limit on objects. It takes a step for each dimension
/// of an array, and one more: the layout of a structure or union is looked up.
pub fn layout(types: &Types, t: &CType) -> Option<Layout>
    ensures value { result
        ≡ within_limit (layouts.layout (compounds_of types.now) (type_of t.now)) }
    ensures whole { IfSome result (λ l. l.size % l.align ≡ 0) }
    ensures aligned { IfSome result (λ l. IsTrue (is_alignment l.align)) }
{
    let of = match innermost(t) {
        Some(number) => kept_layout(types, number),
        None => None,
    };
    layout_around(t, &of)
}

// The layout of the structure or union with this number.
pub(crate) fn kept_layout(types: &Types, number: u64) -> Option<Layout>
    ensures value { result ≡ within_limit (layouts_in (compounds_of types.now) number) }
    ensures aligned { IfSome result (λ l. IsTrue (is_alignment l.align)) }
{
    let compound = types.compounds.get(number as usize)?;
    compound.layout
}

/// The bytes of a complete type.
pub fn size_of(types: &Types, t: &CType) -> u64
    requires { IsSomeAnd (layouts.layout (compounds_of types.now) (type_of t.now))
        (λ l. l.size ≤ MOST_OBJECT_BYTES) }
    ensures value { IfSome (layouts.layout (compounds_of types.now) (type_of t.now))
        (λ l. result ≡ l.size) }
{
    match layout(types, t) {
        Some(layout) => layout.size,
        None => unreachable!(),
    }
}

/// The alignment of a complete type.
pub fn align_of(types: &Types, t: &CType) -> u64
    requires { IsSomeAnd (layouts.layout (compounds_of types.now) (type_of t.now))
        (λ l. l.size ≤ MOST_OBJECT_BYTES) }
    ensures value { IfSome (layouts.layout (compounds_of types.now) (type_of t.now))
        (λ l. result ≡ l.align) }
{
    match layout(types, t) {
        Some(layout) => layout.align,
        None => unreachable!(),
    }
}

// The structure or union that a type is, or that the elements of an array are, through all its
// dimensions.
fn innermost(t: &CType) -> Option<u64>
    ensures { result ≡ walks.innermost (type_of t.now) }
{
    match &t.shape {
        Shape::Compound { number } => Some(*number),
        Shape::Array { of, .. } => innermost(of),
        Shape::Void
        | Shape::Integer(_)
        | Shape::Enumeration { .. }
        | Shape::Pointer(_)
        | Shape::Function { .. } => None,
    }
}

// The layout of a type whose innermost structure or union has this one.
fn layout_around(t: &CType, of: &Option<Layout>) -> Option<Layout>
    requires within { IfSome of.now (λ l. l.size ≤ MOST_OBJECT_BYTES) }
    requires align { IfSome of.now (λ l. IsTrue (is_alignment l.align)) }
    ensures value { result ≡ within_limit (layout_by (λ _. of.now) (type_of t.now)) }
    ensures aligned { IfSome result (λ l. IsTrue (is_alignment l.align)) }
{
    match &t.shape {
        Shape::Void | Shape::Function { .. } => None,
        Shape::Integer(kind) => Some(scalar(size_of_kind(*kind))),
        Shape::Enumeration { .. } => Some(scalar(4)),
        Shape::Pointer(_) => Some(scalar(8)),
        Shape::Compound { .. } => *of,
        Shape::Array {
            of: element,
            length,
        } => repeated(*length, layout_around(element, of)),
    }
}

fn scalar(bytes: u64) -> Layout
    ensures { result ≡ layouts.scalar bytes }
{
    Layout {
        size: bytes,
        align: bytes,
    }
}

// An array of `count` such elements.
fn repeated(count: Option<u64>, element: Option<Layout>) -> Option<Layout>
    ensures value { result ≡ within_limit (layouts.repeated count element) }
    ensures aligned { IfSome element (λ e. IsTrue (is_alignment e.align))
        → IfSome result (λ l. IsTrue (is_alignment l.align)) }
{
    let count = count?;
    let element = element?;
    if count == 0 {
        return None;
    }
    match count.checked_mul(element.size) {
        Some(size) if size <= MOST_OBJECT_BYTES => Some(Layout {
            size,
            align: element.align,
        }),
        _ => None,
    }
}

/// The bytes of an integer type, which are its alignment too.
pub fn size_of_kind(kind: IntKind) -> u64
    ensures value { result ≡ kinds.kind_size kind }
    ensures aligned { IsTrue (is_alignment result) }
{
    match kind {
        IntKind::Boolean | IntKind::Char | IntKind::SignedChar | IntKind::UnsignedChar => 1,
        IntKind::Short | IntKind::UnsignedShort => 2,
        IntKind::Int | IntKind::UnsignedInt => 4,
        IntKind::Long | IntKind::UnsignedLong | IntKind::LongLong | IntKind::UnsignedLongLong => 8,
    }
}
