//! Expressions (Annex A.2.1) and type names.

ghost use Rattle.std.specs.Prelude.{◌≡◌};
ghost use Rattle.hv_ctree.specs.tree.Erase.{expr_of};
ghost use Rattle.hv_ctree.specs.tree.Expressions as plain;

use crate::tree::declarator::AbstractDeclarator;
use crate::tree::specifier::SpecifierQualifier;
use crate::tree::words::{AssignmentOperator, Constant, UnaryOperator};
use hv_base::{List, Place, Text};
use std::rc::Rc;

/// An expression: one variant for each production of 6.5.1 to 6.5.17 that does more than pass on.
/// `place` is that of its first token.
#[cycle(expr)]
#[derive(Drop)]
pub enum Expr {
    Identifier {
        place: Place,
        name: Text,
    },
    Constant {
        place: Place,
        value: Constant,
    },
    /// The bytes without the closing zero.
    StringLiteral {
        place: Place,
        bytes: Text,
    },
    Parenthesized {
        place: Place,
        inner: Rc<Expr>,
    },
    Subscript {
        place: Place,
        array: Rc<Expr>,
        index: Rc<Expr>,
    },
    Call {
        place: Place,
        function: Rc<Expr>,
        arguments: List<Rc<Expr>>,
    },
    Member {
        place: Place,
        object: Rc<Expr>,
        name: Text,
    },
    Arrow {
        place: Place,
        pointer: Rc<Expr>,
        name: Text,
    },
    PostIncrement {
        place: Place,
        operand: Rc<Expr>,
    },
    PostDecrement {
        place: Place,
        operand: Rc<Expr>,
    },
    PreIncrement {
        place: Place,
        operand: Rc<Expr>,
    },
    PreDecrement {
        place: Place,
        operand: Rc<Expr>,
    },
    Unary {
        place: Place,
        operator: UnaryOperator,
        operand: Rc<Expr>,
    },
    SizeofExpr {
        place: Place,
        operand: Rc<Expr>,
    },
    SizeofType {
        place: Place,
        of: Rc<TypeName>,
    },
    Cast {
        place: Place,
        to: Rc<TypeName>,
        operand: Rc<Expr>,
    },
    Multiply {
        place: Place,
        left: Rc<Expr>,
        right: Rc<Expr>,
    },
    Divide {
        place: Place,
        left: Rc<Expr>,
        right: Rc<Expr>,
    },
    Remainder {
        place: Place,
        left: Rc<Expr>,
        right: Rc<Expr>,
    },
    Add {
        place: Place,
        left: Rc<Expr>,
        right: Rc<Expr>,
    },
    Subtract {
        place: Place,
        left: Rc<Expr>,
        right: Rc<Expr>,
    },
    ShiftLeft {
        place: Place,
        left: Rc<Expr>,
        right: Rc<Expr>,
    },
    ShiftRight {
        place: Place,
        left: Rc<Expr>,
        right: Rc<Expr>,
    },
    Less {
        place: Place,
        left: Rc<Expr>,
        right: Rc<Expr>,
    },
    Greater {
        place: Place,
        left: Rc<Expr>,
        right: Rc<Expr>,
    },
    LessEqual {
        place: Place,
        left: Rc<Expr>,
        right: Rc<Expr>,
    },
    GreaterEqual {
        place: Place,
        left: Rc<Expr>,
        right: Rc<Expr>,
    },
    Equal {
        place: Place,
        left: Rc<Expr>,
        right: Rc<Expr>,
    },
    NotEqual {
        place: Place,
        left: Rc<Expr>,
        right: Rc<Expr>,
    },
    And {
        place: Place,
        left: Rc<Expr>,
        right: Rc<Expr>,
    },
    ExclusiveOr {
        place: Place,
        left: Rc<Expr>,
        right: Rc<Expr>,
    },
    Or {
        place: Place,
        left: Rc<Expr>,
        right: Rc<Expr>,
    },
    LogicalAnd {
        place: Place,
        left: Rc<Expr>,
        right: Rc<Expr>,
    },
    LogicalOr {
        place: Place,
        left: Rc<Expr>,
        right: Rc<Expr>,
    },
    Conditional {
        place: Place,
        test: Rc<Expr>,
        first: Rc<Expr>,
        second: Rc<Expr>,
    },
    Assign {
        place: Place,
        left: Rc<Expr>,
        operator: AssignmentOperator,
        right: Rc<Expr>,
    },
    Comma {
        place: Place,
        left: Rc<Expr>,
        right: Rc<Expr>,
    },
}

/// `type-name` (6.7.6).
#[cycle(expr)]
#[derive(Drop)]
pub enum TypeName {
    Of {
        place: Place,
        specifiers: List<Rc<SpecifierQualifier>>,
        declarator: Option<Rc<AbstractDeclarator>>,
    },
}

impl Expr {
    /// The place of the first token.
    pub fn place(&self) -> &Place
        ensures { result.now ≡ plain.place_of (expr_of self.now) }
    {
        match self {
            Expr::Identifier { place, .. }
            | Expr::Constant { place, .. }
            | Expr::StringLiteral { place, .. }
            | Expr::Parenthesized { place, .. }
            | Expr::Subscript { place, .. }
            | Expr::Call { place, .. }
            | Expr::Member { place, .. }
            | Expr::Arrow { place, .. }
            | Expr::PostIncrement { place, .. }
            | Expr::PostDecrement { place, .. }
            | Expr::PreIncrement { place, .. }
            | Expr::PreDecrement { place, .. }
            | Expr::Unary { place, .. }
            | Expr::SizeofExpr { place, .. }
            | Expr::SizeofType { place, .. }
            | Expr::Cast { place, .. }
            | Expr::Multiply { place, .. }
            | Expr::Divide { place, .. }
            | Expr::Remainder { place, .. }
            | Expr::Add { place, .. }
            | Expr::Subtract { place, .. }
            | Expr::ShiftLeft { place, .. }
            | Expr::ShiftRight { place, .. }
            | Expr::Less { place, .. }
            | Expr::Greater { place, .. }
            | Expr::LessEqual { place, .. }
            | Expr::GreaterEqual { place, .. }
            | Expr::Equal { place, .. }
            | Expr::NotEqual { place, .. }
            | Expr::And { place, .. }
            | Expr::ExclusiveOr { place, .. }
            | Expr::Or { place, .. }
            | Expr::LogicalAnd { place, .. }
            | Expr::LogicalOr { place, .. }
            | Expr::Conditional { place, .. }
            | Expr::Assign { place, .. }
            | Expr::Comma { place, .. } => place,
        }
    }
}
