//! Types made of other types, up to a largest size.
ghost use Rattle.std.specs.Prelude.{◌≡◌, ◌≤◌, false, min, IfOk};
ghost use Rattle.hv_ctree.specs.types.Erasure.{type_of, shape_of, parameters_of};
ghost use Rattle.hv_ctree.specs.types.Plain.{plain, pointer, array, function};
ghost use Rattle.hv_ctypes.specs.Written.{written, written_within, written_all};
ghost use Rattle.hv_ctypes.specs.declared.derived.TheConstants.{MOST_PARTS};

use hv_base::{List, Memory};
use hv_ctree::{CType, Shape};
use std::alloc::Global;
use std::rc::Rc;

/// The most types that a type may be made of, each counted wherever it stands. A few typedef names
/// of function types, each used twice by the next, would make types that no walk ends on, and a few
/// thousand make one that no stack holds.
// DECISIONS: large types
pub const MOST_PARTS: u64 = 4_096;

/// A pointer to this type (ISO/IEC 9899:1999, 6.7.5.1). A type that is too large to be walked is
/// answered as one that memory doesn't hold.
pub fn pointer_to(alloc: Global, t: CType) -> Result<CType, Memory>
    ensures value { IfOk result (λ made. type_of made ≡ plain false (pointer (type_of t))) }
    ensures bounded { IfOk result (λ made. written (type_of made) ≤ MOST_PARTS) }
{
    let t = Rc::new(alloc, t)?;
    let made = bounded(Shape::Pointer(t))?;
    Ok(made)
}

/// An array of elements of this type (ISO/IEC 9899:1999, 6.7.5.2), where it isn't too large.
pub fn array_of(alloc: Global, t: CType, length: Option<u64>) -> Result<CType, Memory>
    ensures value { IfOk result (λ made. type_of made ≡ plain false (array (type_of t) length)) }
    ensures bounded { IfOk result (λ made. written (type_of made) ≤ MOST_PARTS) }
{
    let of = Rc::new(alloc, t)?;
    let made = bounded(Shape::Array { of, length })?;
    Ok(made)
}

/// A function with this result and these parameters (ISO/IEC 9899:1999, 6.7.5.3), where it isn't
/// too large.
pub fn function_of(
    alloc: Global,
    t: CType,
    params: List<CType>,
    variadic: bool,
) -> Result<CType, Memory>
    ensures value { IfOk result
        (λ made.
        type_of made ≡ plain false (function (type_of t) (parameters_of params) variadic)) }
    ensures bounded { IfOk result (λ made. written (type_of made) ≤ MOST_PARTS) }
{
    let of = Rc::new(alloc, t)?;
    let made = bounded(Shape::Function {
        result: of,
        params,
        variadic,
    })?;
    Ok(made)
}

// The unqualified type of this shape, where it isn't too large.
fn bounded(shape: Shape) -> Result<CType, Memory>
    ensures value { IfOk result (λ made. type_of made ≡ plain false (shape_of shape)) }
    ensures bounded { IfOk result (λ made. written (type_of made) ≤ MOST_PARTS) }
{
    let made = CType {
        constant: false,
        shape,
    };
    if parts(&made, MOST_PARTS + 1) > MOST_PARTS {
        Err(Memory)
    } else {
        Ok(made)
    }
}

/// How many types a type is made of, each counted wherever it stands, or `most` where there are
/// more. No more than `most` are visited.
#[cycle(parts)]
pub fn parts(t: &CType, most: u64) -> u64
    ensures { result ≡ min (written (type_of t.now)) most }
{
    if most == 0 {
        return 0;
    }
    1 + parts_within(&t.shape, most - 1)
}

#[cycle(parts)]
fn parts_within(shape: &Shape, most: u64) -> u64
    ensures { result ≡ min (written_within (shape_of shape.now)) most }
{
    match shape {
        Shape::Void | Shape::Integer(_) | Shape::Enumeration { .. } | Shape::Compound { .. } => 0,
        Shape::Pointer(to) => parts(to, most),
        Shape::Array { of, .. } => parts(of, most),
        Shape::Function {
            result: of,
            params,
            ..
        } => {
            let first = parts(of, most);
            first + parts_of_all(params, most - first)
        }
    }
}

#[cycle(parts)]
fn parts_of_all(ts: &List<CType>, most: u64) -> u64
    ensures { result ≡ min (written_all (parameters_of ts.now)) most }
{
    let mut count = 0;
    for t in ts.as_slice() {
        count += parts(t, most - count);
    }
    count
}
