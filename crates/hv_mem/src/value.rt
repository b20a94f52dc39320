//! The values of scalars, and the bytes of memory.
use crate::Address;
use hv_ctree::IntKind;

/// What one load or store is of (ISO/IEC 9899:1999, 6.2.5 paragraph 21).
#[derive(Clone, Copy, Debug, PartialEq, Eq)]
pub enum Scalar {
    Integer(IntKind),
    /// A pointer to an object or to a function.
    Pointer,
}

/// A value of a scalar type.
#[derive(Clone, Copy, Debug, PartialEq, Eq)]
pub enum Value {
    /// An integer. The bits are 64 in two's complement, of a negative one with its sign in all of
    /// them.
    Number { bits: u64, kind: IntKind },
    /// A pointer to an object, or a null pointer.
    Pointer(Address),
    /// A pointer to a function, by the number of its first declarator.
    Function { number: u64 },
}

/// A value whose bytes in memory are its eight parts.
#[derive(Clone, Copy, Debug, PartialEq, Eq)]
pub enum Pointer {
    /// A pointer to an object, or a null pointer.
    ToObject(Address),
    ToFunction { number: u64 },
}

/// An abstract byte.
#[derive(Clone, Copy, Debug, PartialEq, Eq)]
pub enum Byte {
    Number(u8),
    /// One of the eight parts of a pointer, by its index.
    Part { pointer: Pointer, index: u8 },
    Indeterminate,
}
