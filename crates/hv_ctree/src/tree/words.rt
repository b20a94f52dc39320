//! Words of the grammar: what a node holds of tokens that are no phrases.

use hv_base::{IntType, Place, Text};

/// An identifier with its place: a tag.
#[derive(Debug, Drop)]
pub struct Tag {
    pub place: Place,
    pub name: Text,
}

/// A constant (6.4.4).
#[derive(Clone, Copy, Debug, PartialEq, Eq)]
pub enum Constant {
    Integer { value: u64, kind: IntType },
    Character { value: i32 },
}

/// `unary-operator` (6.5.3).
#[derive(Clone, Copy, Debug, PartialEq, Eq)]
pub enum UnaryOperator {
    /// `&`
    Address,
    /// `*`
    Indirection,
    /// `+`
    Plus,
    /// `-`
    Minus,
    /// `~`
    Complement,
    /// `!`
    Not,
}

/// `assignment-operator` (6.5.16); `Plain` is `=`.
#[derive(Clone, Copy, Debug, PartialEq, Eq)]
pub enum AssignmentOperator {
    Plain,
    Multiply,
    Divide,
    Remainder,
    Add,
    Subtract,
    ShiftLeft,
    ShiftRight,
    And,
    ExclusiveOr,
    Or,
}

/// `.` or `->` (6.5.2.3).
#[derive(Clone, Copy, Debug, PartialEq, Eq)]
pub enum Selector {
    Dot,
    Arrow,
}

/// `++` or `--` (6.5.2.4, 6.5.3.1).
#[derive(Clone, Copy, Debug, PartialEq, Eq)]
pub enum Step {
    Increment,
    Decrement,
}

/// `type-qualifier` (6.7.3); `volatile` is left out of the profile.
#[derive(Clone, Copy, Debug, PartialEq, Eq)]
pub enum TypeQualifier {
    Const,
    Restrict,
}

/// `storage-class-specifier` (6.7.1).
#[derive(Clone, Copy, Debug, PartialEq, Eq)]
pub enum StorageClass {
    Typedef,
    Extern,
    Static,
    Auto,
    Register,
}

/// `struct-or-union` (6.7.2.1).
#[derive(Clone, Copy, Debug, PartialEq, Eq)]
pub enum StructOrUnion {
    Struct,
    Union,
}
