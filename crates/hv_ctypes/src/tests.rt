//! Types as the tests write them.
mod conversions;
mod layouts;
mod shared;
mod standard;

use super::*;
use hv_base::{List, Memory};
use hv_ctree::{Member, Shape};
use std::alloc::Global;
use std::rc::Rc;
use std::test::Fail;

fn plain(shape: Shape) -> CType {
    CType {
        constant: false,
        shape,
    }
}

fn constant(shape: Shape) -> CType {
    CType {
        constant: true,
        shape,
    }
}

fn void() -> CType {
    plain(Shape::Void)
}

fn of(kind: IntKind) -> CType {
    plain(Shape::Integer(kind))
}

fn int() -> CType {
    of(IntKind::Int)
}

fn compound(number: u64) -> CType {
    plain(Shape::Compound { number })
}

fn enumeration(number: u64) -> CType {
    plain(Shape::Enumeration { number })
}

fn pointer(alloc: Global, to: CType) -> Result<CType, Fail> {
    Ok(plain(Shape::Pointer(Rc::new(alloc, to)?)))
}

fn array(alloc: Global, of: CType, length: Option<u64>) -> Result<CType, Fail> {
    Ok(plain(Shape::Array {
        of: Rc::new(alloc, of)?,
        length,
    }))
}

// A function type with these parameters.
fn function(
    alloc: Global,
    gives: CType,
    parameters: Vec<CType>,
    variadic: bool,
) -> Result<CType, Fail> {
    Ok(plain(Shape::Function {
        result: Rc::new(alloc, gives)?,
        params: List::from_vec(parameters),
        variadic,
    }))
}

// A function of `int` with one parameter.
fn function_with(alloc: Global, parameter: CType) -> Result<CType, Fail> {
    let parameters = vec![in alloc; parameter]?;
    Ok(function(alloc, int(), parameters, false)?)
}

// Adds a structure or union with these members, and gives its layout.
fn add(
    alloc: Global,
    types: &mut Types,
    is_union: bool,
    members: Vec<CType>,
) -> Result<Option<Layout>, Fail> {
    let number = declare_compound(types, is_union, None)?;
    let mut list = List::new(alloc);
    for of in members {
        list.add(Member {
            name: List::new(alloc),
            of,
        })?;
    }
    Ok(complete_compound(types, number, list))
}

fn bytes(size: u64, align: u64) -> Option<Layout> {
    Some(Layout { size, align })
}
