//! Specifiers of declarations and type names (6.7, 6.7.1, 6.7.2).

use crate::tree::declarator::Declarator;
use crate::tree::expr::Expr;
use crate::tree::words::{StorageClass, StructOrUnion, Tag, TypeQualifier};
use hv_base::{List, Place, Text};
use std::rc::Rc;

/// One word of `declaration-specifiers` (6.7).
#[cycle(expr)]
#[derive(Drop)]
pub enum DeclarationSpecifier {
    Storage {
        place: Place,
        storage: StorageClass,
    },
    Type {
        place: Place,
        specifier: Rc<TypeSpecifier>,
    },
    Qualifier {
        place: Place,
        qualifier: TypeQualifier,
    },
    Inline {
        place: Place,
    },
}

/// One word of a `specifier-qualifier-list` (6.7.2.1).
#[cycle(expr)]
#[derive(Drop)]
pub enum SpecifierQualifier {
    Type {
        place: Place,
        specifier: Rc<TypeSpecifier>,
    },
    Qualifier {
        place: Place,
        qualifier: TypeQualifier,
    },
}

/// `type-specifier` (6.7.2).
#[cycle(expr)]
#[derive(Drop)]
pub enum TypeSpecifier {
    Void {
        place: Place,
    },
    Char {
        place: Place,
    },
    Short {
        place: Place,
    },
    Int {
        place: Place,
    },
    Long {
        place: Place,
    },
    Signed {
        place: Place,
    },
    Unsigned {
        place: Place,
    },
    Bool {
        place: Place,
    },
    Compound {
        place: Place,
        compound: Rc<StructOrUnionSpecifier>,
    },
    Enumeration {
        place: Place,
        enumeration: Rc<EnumSpecifier>,
    },
    TypedefName {
        place: Place,
        name: Text,
    },
}

/// `struct-or-union-specifier` (6.7.2.1).
#[cycle(expr)]
#[derive(Drop)]
pub enum StructOrUnionSpecifier {
    Defined {
        place: Place,
        kind: StructOrUnion,
        tag: Option<Tag>,
        members: List<Rc<StructDeclaration>>,
    },
    Mentioned {
        place: Place,
        kind: StructOrUnion,
        tag: Tag,
    },
}

/// `struct-declaration` (6.7.2.1). There are no bit-fields, so a `struct-declarator` is its
/// declarator.
#[cycle(expr)]
#[derive(Drop)]
pub enum StructDeclaration {
    Of {
        place: Place,
        specifiers: List<Rc<SpecifierQualifier>>,
        declarators: List<Rc<Declarator>>,
    },
}

/// `enum-specifier` (6.7.2.2).
#[cycle(expr)]
#[derive(Drop)]
pub enum EnumSpecifier {
    Listed {
        place: Place,
        tag: Option<Tag>,
        enumerators: List<Rc<Enumerator>>,
    },
    /// With a comma before the `}`.
    ListedComma {
        place: Place,
        tag: Option<Tag>,
        enumerators: List<Rc<Enumerator>>,
    },
    Mentioned {
        place: Place,
        tag: Tag,
    },
}

/// `enumerator` (6.7.2.2).
#[cycle(expr)]
#[derive(Drop)]
pub enum Enumerator {
    Plain {
        place: Place,
        name: Text,
    },
    Valued {
        place: Place,
        name: Text,
        value: Rc<Expr>,
    },
}
