//! Declarations and initialisers (6.7, 6.7.8).

use crate::tree::declarator::Declarator;
use crate::tree::expr::Expr;
use crate::tree::specifier::DeclarationSpecifier;
use hv_base::{List, Place, Text};
use std::rc::Rc;

/// `declaration` (6.7).
#[derive(Drop)]
pub struct Declaration {
    pub place: Place,
    pub specifiers: List<Rc<DeclarationSpecifier>>,
    pub declarators: List<Rc<InitDeclarator>>,
}

/// `init-declarator` (6.7).
#[derive(Drop)]
pub enum InitDeclarator {
    Plain {
        place: Place,
        declarator: Rc<Declarator>,
    },
    Initialized {
        place: Place,
        declarator: Rc<Declarator>,
        initializer: Rc<Initializer>,
    },
}

/// `initializer` (6.7.8).
#[cycle(initializer)]
#[derive(Drop)]
pub enum Initializer {
    Expression {
        place: Place,
        value: Rc<Expr>,
    },
    List {
        place: Place,
        items: List<Rc<InitializerItem>>,
    },
    /// With a comma before the `}`.
    ListComma {
        place: Place,
        items: List<Rc<InitializerItem>>,
    },
}

/// One entry of an `initializer-list` (6.7.8).
#[cycle(initializer)]
#[derive(Drop)]
pub enum InitializerItem {
    Plain {
        place: Place,
        initializer: Rc<Initializer>,
    },
    Designated {
        place: Place,
        designator: Rc<Designator>,
        initializer: Rc<Initializer>,
    },
}

/// `designator` (6.7.8), of which a designation of the profile has one.
#[derive(Drop)]
pub enum Designator {
    Index { place: Place, index: Rc<Expr> },
    Member { place: Place, name: Text },
}
