//! Statements (6.8), external declarations and the whole program (6.9).

use crate::tree::declaration::Declaration;
use crate::tree::declarator::Declarator;
use crate::tree::expr::Expr;
use crate::tree::specifier::DeclarationSpecifier;
use hv_base::{List, Place};
use std::rc::Rc;

/// A statement: one variant for each production of 6.8.1 to 6.8.6.
#[cycle(stmt)]
#[derive(Drop)]
pub enum Stmt {
    Case {
        place: Place,
        value: Rc<Expr>,
        body: Rc<Stmt>,
    },
    Default {
        place: Place,
        body: Rc<Stmt>,
    },
    Compound {
        place: Place,
        items: List<Rc<BlockItem>>,
    },
    Expression {
        place: Place,
        value: Option<Rc<Expr>>,
    },
    If {
        place: Place,
        test: Rc<Expr>,
        body: Rc<Stmt>,
    },
    IfElse {
        place: Place,
        test: Rc<Expr>,
        body: Rc<Stmt>,
        other: Rc<Stmt>,
    },
    Switch {
        place: Place,
        value: Rc<Expr>,
        body: Rc<Stmt>,
    },
    While {
        place: Place,
        test: Rc<Expr>,
        body: Rc<Stmt>,
    },
    DoWhile {
        place: Place,
        body: Rc<Stmt>,
        test: Rc<Expr>,
    },
    For {
        place: Place,
        first: Option<Rc<Expr>>,
        test: Option<Rc<Expr>>,
        step: Option<Rc<Expr>>,
        body: Rc<Stmt>,
    },
    ForDeclaration {
        place: Place,
        first: Rc<Declaration>,
        test: Option<Rc<Expr>>,
        step: Option<Rc<Expr>>,
        body: Rc<Stmt>,
    },
    Continue {
        place: Place,
    },
    Break {
        place: Place,
    },
    Return {
        place: Place,
        value: Option<Rc<Expr>>,
    },
}

/// `block-item` (6.8.2).
#[cycle(stmt)]
#[derive(Drop)]
pub enum BlockItem {
    Declaration {
        place: Place,
        declaration: Rc<Declaration>,
    },
    Statement {
        place: Place,
        statement: Rc<Stmt>,
    },
}

/// `function-definition` (6.9.1); the body is a compound statement.
#[derive(Drop)]
pub struct FunctionDefinition {
    pub place: Place,
    pub specifiers: List<Rc<DeclarationSpecifier>>,
    pub declarator: Rc<Declarator>,
    pub body: Rc<Stmt>,
}

/// `external-declaration` (6.9), or a lone `;`.
#[derive(Drop)]
pub enum ExternalDeclaration {
    Function {
        place: Place,
        definition: Rc<FunctionDefinition>,
    },
    Declaration {
        place: Place,
        declaration: Rc<Declaration>,
    },
    Empty {
        place: Place,
    },
}

/// `translation-unit` (6.9). It has no place of its own, since it may have no token.
#[derive(Drop)]
pub struct Program {
    pub externals: List<Rc<ExternalDeclaration>>,
}
