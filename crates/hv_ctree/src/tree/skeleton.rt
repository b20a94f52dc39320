//! An element without the elements within it.

use crate::tree::declaration::Declaration;
use crate::tree::declarator::Declarator;
use crate::tree::expr::Expr;
use crate::tree::specifier::DeclarationSpecifier;
use hv_base::{List, Place};
use std::rc::Rc;

/// Where a nested statement or a block's list of items stands; numbered from 0 in the order of the
/// text.
#[derive(Clone, Copy, Debug, PartialEq, Eq)]
pub struct Hole {
    pub number: u32,
}

/// The tree of an element with a hole for each statement within it, and one for a block's items. It
/// doesn't say where the element stands, a lone `;` aside: `Empty` is an external declaration.
#[derive(Drop)]
pub enum Skeleton {
    Empty {
        place: Place,
    },
    Declaration {
        place: Place,
        declaration: Rc<Declaration>,
    },
    /// The body's items are the hole.
    Function {
        place: Place,
        specifiers: List<Rc<DeclarationSpecifier>>,
        declarator: Rc<Declarator>,
        body: Place,
        items: Hole,
    },
    Case {
        place: Place,
        value: Rc<Expr>,
        body: Hole,
    },
    Default {
        place: Place,
        body: Hole,
    },
    Compound {
        place: Place,
        items: Hole,
    },
    Expression {
        place: Place,
        value: Option<Rc<Expr>>,
    },
    If {
        place: Place,
        test: Rc<Expr>,
        body: Hole,
    },
    IfElse {
        place: Place,
        test: Rc<Expr>,
        body: Hole,
        other: Hole,
    },
    Switch {
        place: Place,
        value: Rc<Expr>,
        body: Hole,
    },
    While {
        place: Place,
        test: Rc<Expr>,
        body: Hole,
    },
    DoWhile {
        place: Place,
        body: Hole,
        test: Rc<Expr>,
    },
    For {
        place: Place,
        first: Option<Rc<Expr>>,
        test: Option<Rc<Expr>>,
        step: Option<Rc<Expr>>,
        body: Hole,
    },
    ForDeclaration {
        place: Place,
        first: Rc<Declaration>,
        test: Option<Rc<Expr>>,
        step: Option<Rc<Expr>>,
        body: Hole,
    },
    Continue {
        place: Place,
    },
    Break {
        place: Place,
    },
    Return {
        place: Place,
        value: Option<Rc<Expr>>,
    },
}
