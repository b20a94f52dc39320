//! The types of C.
use hv_base::{List, Text};
use std::rc::Rc;

/// An integer type of the profile other than an enumeration (ISO/IEC 9899:1999, 6.2.5).
// SAME: integer kinds
#[derive(Clone, Copy, Debug, PartialEq, Eq)]
pub enum IntKind {
    /// `_Bool`
    Boolean,
    /// `char`, which is signed here
    Char,
    SignedChar,
    UnsignedChar,
    Short,
    UnsignedShort,
    Int,
    UnsignedInt,
    Long,
    UnsignedLong,
    LongLong,
    UnsignedLongLong,
}

/// A type of C with its qualifier. Of an array, the element's type carries the `const`.
#[cycle(ctype)]
#[derive(Debug, Drop)]
pub struct CType {
    /// Whether the type is `const`.
    pub constant: bool,
    pub shape: Shape,
}

/// A type of C without its qualifier (ISO/IEC 9899:1999, 6.2.5).
#[cycle(ctype)]
#[derive(Debug, Drop)]
pub enum Shape {
    Void,
    Integer(IntKind),
    /// An enumeration, told from others by its number alone.
    Enumeration {
        number: u64,
    },
    /// A structure or union, whose number is its index in `Types`.
    Compound {
        number: u64,
    },
    Pointer(Rc<CType>),
    /// An array, of unknown length where `length` is `None`.
    Array {
        of: Rc<CType>,
        length: Option<u64>,
    },
    /// A function. `variadic` says that `...` ends its parameters.
    Function {
        result: Rc<CType>,
        params: List<CType>,
        variadic: bool,
    },
}

/// A member of a structure or union.
#[derive(Debug, Drop)]
pub struct Member {
    pub name: Text,
    pub of: CType,
}

/// A structure or union type. Its members are `None` where it is incomplete.
#[derive(Debug, Drop)]
pub struct CompoundType {
    pub is_union: bool,
    pub tag: Option<Text>,
    pub members: Option<List<Member>>,
    /// What an object of it takes in memory, kept from when its members became known.
    pub layout: Option<Layout>,
}

/// What an object of a type takes in memory, in bytes.
#[derive(Clone, Copy, Debug, PartialEq, Eq)]
pub struct Layout {
    pub size: u64,
    /// Each object's address is a multiple of it.
    pub align: u64,
}
