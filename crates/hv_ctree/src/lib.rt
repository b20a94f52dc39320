//! The plain tree of a C program, and the types of C that it speaks of.
#![tactic(auto)]

mod tree;
mod type_table;
mod types;

pub use tree::declaration::{
    Declaration, Designator, InitDeclarator, Initializer, InitializerItem,
};
pub use tree::declarator::{
    AbstractDeclarator, Declarator, DirectAbstractDeclarator, DirectDeclarator,
    ParameterDeclaration, ParameterTypeList, Pointer, Suffix,
};
pub use tree::expr::{Expr, TypeName};
pub use tree::skeleton::{Hole, Skeleton};
pub use tree::specifier::{
    DeclarationSpecifier, EnumSpecifier, Enumerator, SpecifierQualifier, StructDeclaration,
    StructOrUnionSpecifier, TypeSpecifier,
};
pub use tree::stmt::{BlockItem, ExternalDeclaration, FunctionDefinition, Program, Stmt};
pub use tree::words::{
    AssignmentOperator, Constant, Selector, Step, StorageClass, StructOrUnion, Tag, TypeQualifier,
    UnaryOperator,
};
pub use type_table::Types;
pub use types::{CType, CompoundType, IntKind, Layout, Member, Shape};

/// A metaproduct: a program that begins with the declarations of its option variables.
pub type Meta = Program;
