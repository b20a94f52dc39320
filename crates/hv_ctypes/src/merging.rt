//! The composite of two types, and copies of types.
ghost use Rattle.std.specs.Prelude.{◌≡◌, ◌++◌, ◌∷◌, [], false, IsTrue, IfOk, OnOk};
ghost use Rattle.hv_ctree.specs.types.Erasure.{type_of, shape_of, parameters_of};
ghost use Rattle.hv_ctree.specs.types.Compatible as compatibility;
ghost use Rattle.hv_ctree.specs.types.Composite as types;
ghost use Rattle.hv_ctree.specs.types.Knowledge.{keeps};
ghost use Rattle.hv_ctypes.specs.Written.{written};

use hv_base::{List, Memory};
use hv_ctree::{CType, Shape, Types};
use std::alloc::Global;
use std::rc::Rc;

/// The composite of two compatible types (ISO/IEC 9899:1999, 6.2.7), which knows what either knows.
/// Of an enumeration and `int` it is the first.
pub fn composite(alloc: Global, _types: &Types, a: &CType, b: &CType) -> Result<CType, Memory>
    requires { IsTrue (compatibility.compatible (type_of a.now) (type_of b.now)) }
    ensures value { IfOk result (λ t. type_of t ≡ types.composite (type_of a.now) (type_of b.now)) }
    ensures with_first { IfOk result
        (λ t. IsTrue (compatibility.compatible (type_of t) (type_of a.now))) }
    ensures with_second { IfOk result
        (λ t. IsTrue (compatibility.compatible (type_of t) (type_of b.now))) }
    ensures keeps_first { IfOk result (λ t. IsTrue (keeps (type_of t) (type_of a.now))) }
    ensures keeps_second { IfOk result (λ t. IsTrue (keeps (type_of t) (type_of b.now))) }
    ensures as_large { IfOk result (λ t. written (type_of t) ≡ written (type_of a.now)) }
{
    let merged = merged(alloc, a, b)?;
    Ok(merged)
}

#[cycle(merged)]
fn merged(alloc: Global, a: &CType, b: &CType) -> Result<CType, Memory>
    ensures { IfOk result (λ t. type_of t ≡ types.composite (type_of a.now) (type_of b.now)) }
{
    let shape = merged_shape(alloc, &a.shape, &b.shape)?;
    Ok(CType {
        constant: a.constant,
        shape,
    })
}

#[cycle(merged)]
fn merged_shape(alloc: Global, a: &Shape, b: &Shape) -> Result<Shape, Memory>
    ensures { IfOk result
        (λ s. shape_of s ≡ types.composite_shape (shape_of a.now) (shape_of b.now)) }
{
    match a {
        Shape::Pointer(to) => match b {
            Shape::Pointer(to_b) => {
                let to = Rc::new(alloc, merged(alloc, to, to_b)?)?;
                Ok(Shape::Pointer(to))
            }
            _ => Ok(copied_shape(alloc, a)?),
        },
        Shape::Array { of, length } => match b {
            Shape::Array {
                of: of_b,
                length: length_b,
            } => {
                let of = Rc::new(alloc, merged(alloc, of, of_b)?)?;
                Ok(Shape::Array {
                    of,
                    length: known_length(*length, *length_b),
                })
            }
            _ => Ok(copied_shape(alloc, a)?),
        },
        Shape::Function {
            result: of,
            params,
            variadic,
        } => match b {
            Shape::Function {
                result: of_b,
                params: params_b,
                ..
            } => {
                let of = Rc::new(alloc, merged(alloc, of, of_b)?)?;
                let both = merged_parameters(alloc, params, params_b)?;
                Ok(Shape::Function {
                    result: of,
                    params: both,
                    variadic: *variadic,
                })
            }
            _ => Ok(copied_shape(alloc, a)?),
        },
        Shape::Void | Shape::Integer(_) | Shape::Enumeration { .. } | Shape::Compound { .. } => Ok(
            copied_shape(alloc, a)?,
        ),
    }
}

fn known_length(a: Option<u64>, b: Option<u64>) -> Option<u64>
    ensures { result ≡ types.known_length a b }
{
    match a {
        Some(length) => Some(length),
        None => b,
    }
}

#[cycle(merged)]
fn merged_parameters(alloc: Global, a: &List<CType>, b: &List<CType>) -> Result<List<CType>, Memory>
    ensures { IfOk result
        (λ ts. parameters_of ts
        ≡ types.composite_parameters (parameters_of a.now) (parameters_of b.now)) }
{
    let a = a.as_slice();
    let b = b.as_slice();
    let mut params = List::new(alloc);
    let count = a.len().min(b.len());
    for i in 0..count {
        let shape = merged_shape(alloc, &a[i].shape, &b[i].shape)?;
        push_shape(&mut params, shape)?;
    }
    Ok(params)
}

// Adds an unqualified type at the end.
fn push_shape(list: &mut List<CType>, shape: Shape) -> Result<(), Memory>
    ensures ok { OnOk result
        (list.new ≡ list.old ++ record { constant = false; shape = shape } ∷ []) }
{
    push_type(
        list,
        CType {
            constant: false,
            shape,
        },
    )
}

// Adds a type at the end.
fn push_type(list: &mut List<CType>, t: CType) -> Result<(), Memory>
    ensures ok { OnOk result (list.new ≡ list.old ++ t ∷ []) }
{
    match list.push(t) {
        Ok(()) => Ok(()),
        Err(_) => Err(Memory),
    }
}

/// The same type once more.
#[cycle(copied)]
pub fn copied(alloc: Global, t: &CType) -> Result<CType, Memory>
    ensures { IfOk result (λ copy. type_of copy ≡ type_of t.now) }
{
    let shape = copied_shape(alloc, &t.shape)?;
    Ok(CType {
        constant: t.constant,
        shape,
    })
}

#[cycle(copied)]
fn copied_shape(alloc: Global, shape: &Shape) -> Result<Shape, Memory>
    ensures { IfOk result (λ copy. shape_of copy ≡ shape_of shape.now) }
{
    match shape {
        Shape::Void => Ok(Shape::Void),
        Shape::Integer(kind) => Ok(Shape::Integer(*kind)),
        Shape::Enumeration { number } => Ok(Shape::Enumeration { number: *number }),
        Shape::Compound { number } => Ok(Shape::Compound { number: *number }),
        Shape::Pointer(to) => Ok(Shape::Pointer(to.clone()?)),
        Shape::Array { of, length } => Ok(Shape::Array {
            of: of.clone()?,
            length: *length,
        }),
        Shape::Function {
            result: of,
            params,
            variadic,
        } => {
            let of = of.clone()?;
            let params = copied_parameters(alloc, params)?;
            Ok(Shape::Function {
                result: of,
                params,
                variadic: *variadic,
            })
        }
    }
}

#[cycle(copied)]
fn copied_parameters(alloc: Global, params: &List<CType>) -> Result<List<CType>, Memory>
    ensures { IfOk result (λ copy. parameters_of copy ≡ parameters_of params.now) }
{
    let mut copy = List::new(alloc);
    for t in params.as_slice() {
        let one = copied(alloc, t)?;
        push_type(&mut copy, one)?;
    }
    Ok(copy)
}
