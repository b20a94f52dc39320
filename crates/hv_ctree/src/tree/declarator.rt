//! Declarators (6.7.5, 6.7.6). The brackets and parentheses after one are a list, since no limit
//! bounds their number.

use crate::tree::expr::Expr;
use crate::tree::specifier::DeclarationSpecifier;
use crate::tree::words::TypeQualifier;
use hv_base::{List, Place, Text};
use std::rc::Rc;

/// A `*` of a `pointer` (6.7.5) with the qualifiers after it.
#[derive(Drop)]
pub struct Pointer {
    pub place: Place,
    pub qualifiers: List<TypeQualifier>,
}

/// `declarator` (6.7.5); the suffixes are those of its `direct-declarator`, from the left.
#[cycle(expr)]
#[derive(Drop)]
pub enum Declarator {
    Of {
        place: Place,
        pointers: List<Pointer>,
        direct: Rc<DirectDeclarator>,
        suffixes: List<Rc<Suffix>>,
    },
}

/// What a `direct-declarator` begins with (6.7.5).
#[cycle(expr)]
#[derive(Drop)]
pub enum DirectDeclarator {
    Name { place: Place, name: Text },
    Group { place: Place, inner: Rc<Declarator> },
}

/// `abstract-declarator` (6.7.6): at least one of its three parts is there.
#[cycle(expr)]
#[derive(Drop)]
pub enum AbstractDeclarator {
    Of {
        place: Place,
        pointers: List<Pointer>,
        direct: Option<Rc<DirectAbstractDeclarator>>,
        suffixes: List<Rc<Suffix>>,
    },
}

/// What a `direct-abstract-declarator` may begin with (6.7.6).
#[cycle(expr)]
#[derive(Drop)]
pub enum DirectAbstractDeclarator {
    Group {
        place: Place,
        inner: Rc<AbstractDeclarator>,
    },
}

/// What stands after a direct declarator, abstract or not (6.7.5.2, 6.7.5.3).
#[cycle(expr)]
#[derive(Drop)]
pub enum Suffix {
    /// `[` and `]` with qualifiers and no length between.
    Unsized {
        place: Place,
        qualifiers: List<TypeQualifier>,
    },
    /// `[` and `]` with qualifiers and a length between.
    Sized {
        place: Place,
        qualifiers: List<TypeQualifier>,
        length: Rc<Expr>,
    },
    Function {
        place: Place,
        parameters: Rc<ParameterTypeList>,
    },
    /// `()`
    Unprototyped {
        place: Place,
    },
}

/// `parameter-type-list` (6.7.5).
#[cycle(expr)]
#[derive(Drop)]
pub enum ParameterTypeList {
    Fixed {
        place: Place,
        parameters: List<Rc<ParameterDeclaration>>,
    },
    /// With `, ...` at the end.
    Variadic {
        place: Place,
        parameters: List<Rc<ParameterDeclaration>>,
    },
}

/// `parameter-declaration` (6.7.5).
#[cycle(expr)]
#[derive(Drop)]
pub enum ParameterDeclaration {
    Named {
        place: Place,
        specifiers: List<Rc<DeclarationSpecifier>>,
        declarator: Rc<Declarator>,
    },
    Abstract {
        place: Place,
        specifiers: List<Rc<DeclarationSpecifier>>,
        declarator: Option<Rc<AbstractDeclarator>>,
    },
}
