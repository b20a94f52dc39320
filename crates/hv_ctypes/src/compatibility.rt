//! Whether two types are compatible.
ghost use Rattle.std.specs.Prelude.{◌≡◌, IsTrue};
ghost use Rattle.hv_ctree.specs.types.Erasure.{type_of, shape_of, parameters_of};
ghost use Rattle.hv_ctree.specs.types.Kinds as kinds;
ghost use Rattle.hv_ctree.specs.types.Compatible as types;
ghost use Rattle.hv_ctree.specs.types.Plain.{void, integer, enumeration, compound};

use hv_base::List;
use hv_ctree::{CType, IntKind, Shape, Types};

/// Whether two types are compatible (ISO/IEC 9899:1999, 6.2.7). Two arrays are where one length is
/// unknown; an array type within them has a length in both or in neither.
pub fn compatible(_types: &Types, a: &CType, b: &CType) -> bool
    ensures value { result ≡ types.compatible (type_of a.now) (type_of b.now) }
    ensures symmetric { result ≡ types.compatible (type_of b.now) (type_of a.now) }
    ensures itself { type_of a.now ≡ type_of b.now → IsTrue result }
{
    let compatible = types_compatible(a, b);
    compatible
}

fn types_compatible(a: &CType, b: &CType) -> bool
    ensures { result ≡ types.compatible (type_of a.now) (type_of b.now) }
{
    a.constant == b.constant && shapes_compatible(&a.shape, &b.shape)
}

fn shapes_compatible(a: &Shape, b: &Shape) -> bool
    ensures { result ≡ types.shapes_compatible (shape_of a.now) (shape_of b.now) }
{
    match (a, b) {
        (
            Shape::Array { of, length },
            Shape::Array {
                of: of_b,
                length: length_b,
            },
        ) => { lengths_agree(*length, *length_b) && alike(of, of_b) }
        _ => shapes_alike(a, b),
    }
}

fn lengths_agree(a: Option<u64>, b: Option<u64>) -> bool
    ensures { result ≡ types.lengths_agree a b }
{
    match (a, b) {
        (Some(one), Some(other)) => one == other,
        (None, _) | (_, None) => true,
    }
}

fn same_length(a: Option<u64>, b: Option<u64>) -> bool
    ensures { result ≡ types.same_length a b }
{
    match (a, b) {
        (Some(a), Some(b)) => a == b,
        (None, None) => true,
        (Some(_), None) | (None, Some(_)) => false,
    }
}

fn same_kind(a: IntKind, b: IntKind) -> bool
    ensures { result ≡ kinds.same_kind a b }
{
    a == b
}

#[cycle(alike)]
fn alike(a: &CType, b: &CType) -> bool
    ensures { result ≡ types.alike (type_of a.now) (type_of b.now) }
{
    a.constant == b.constant && shapes_alike(&a.shape, &b.shape)
}

#[cycle(alike)]
fn shapes_alike(a: &Shape, b: &Shape) -> bool
    ensures { result ≡ types.shapes_alike (shape_of a.now) (shape_of b.now) }
{
    match a {
        Shape::Void => is_void(b),
        Shape::Integer(kind) => is_like_integer(b, *kind),
        Shape::Enumeration { number } => is_like_enumeration(b, *number),
        Shape::Compound { number } => is_compound(b, *number),
        Shape::Pointer(to) => match b {
            Shape::Pointer(to_b) => alike(to, to_b),
            _ => false,
        },
        Shape::Array { of, length } => match b {
            Shape::Array {
                of: of_b,
                length: length_b,
            } => { same_length(*length, *length_b) && alike(of, of_b) }
            _ => false,
        },
        Shape::Function {
            result: of,
            params,
            variadic,
        } => match b {
            Shape::Function {
                result: of_b,
                params: params_b,
                variadic: variadic_b,
            } => {
                alike(of, of_b) && *variadic == *variadic_b && parameters_alike(params, params_b)
            }
            _ => false,
        },
    }
}

fn is_void(shape: &Shape) -> bool
    ensures { result ≡ types.shapes_alike void (shape_of shape.now) }
{
    match shape {
        Shape::Void => true,
        Shape::Integer(_)
        | Shape::Enumeration { .. }
        | Shape::Compound { .. }
        | Shape::Pointer(_)
        | Shape::Array { .. }
        | Shape::Function { .. } => false,
    }
}

fn is_like_integer(shape: &Shape, kind: IntKind) -> bool
    ensures { result ≡ types.shapes_alike (integer kind) (shape_of shape.now) }
{
    match shape {
        Shape::Integer(other) => same_kind(kind, *other),
        Shape::Enumeration { .. } => same_kind(kind, IntKind::Int),
        Shape::Void
        | Shape::Compound { .. }
        | Shape::Pointer(_)
        | Shape::Array { .. }
        | Shape::Function { .. } => false,
    }
}

fn is_like_enumeration(shape: &Shape, number: u64) -> bool
    ensures { result ≡ types.shapes_alike (enumeration number) (shape_of shape.now) }
{
    match shape {
        Shape::Integer(kind) => same_kind(IntKind::Int, *kind),
        Shape::Enumeration { number: other } => number == *other,
        Shape::Void
        | Shape::Compound { .. }
        | Shape::Pointer(_)
        | Shape::Array { .. }
        | Shape::Function { .. } => false,
    }
}

fn is_compound(shape: &Shape, number: u64) -> bool
    ensures { result ≡ types.shapes_alike (compound number) (shape_of shape.now) }
{
    match shape {
        Shape::Compound { number: other } => number == *other,
        Shape::Void
        | Shape::Integer(_)
        | Shape::Enumeration { .. }
        | Shape::Pointer(_)
        | Shape::Array { .. }
        | Shape::Function { .. } => false,
    }
}

#[cycle(alike)]
fn parameters_alike(a: &List<CType>, b: &List<CType>) -> bool
    ensures { result ≡ types.parameters_alike (parameters_of a.now) (parameters_of b.now) }
{
    let others = b.as_slice();
    if a.len() != others.len() {
        return false;
    }
    for (i, t) in a.as_slice().iter().enumerate() {
        if !shapes_alike(&t.shape, &others[i].shape) {
            return false;
        }
    }
    true
}
