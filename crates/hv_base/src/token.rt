//! Tokens of C.
use crate::{Keyword, Punct, Text};

/// The type of an integer constant (ISO/IEC 9899:1999, 6.4.4.1).
#[derive(Clone, Copy, Debug, PartialEq, Eq)]
pub enum IntType {
    Int,
    UInt,
    Long,
    ULong,
    LongLong,
    ULongLong,
}

/// A token of C (ISO/IEC 9899:1999, 6.4), by its value.
#[derive(Debug, Drop)]
pub enum CTok {
    Keyword(Keyword),
    /// An identifier that is no keyword.
    Name(Text),
    /// An integer constant; the value is in the range of its type.
    Int { value: u64, kind: IntType },
    /// A character constant, from -128 to 127.
    Char(i32),
    /// A string literal: its bytes without the closing zero.
    Str(Text),
    Punct(Punct),
}
