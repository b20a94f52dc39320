//! The names of a store's nodes, and what a node is.

/// A condition: a node of a `Store`, and of each store that this one grows into.
#[derive(Clone, Copy, PartialEq, Eq, Hash, Debug)]
pub struct Cond {
    pub(crate) index: u32,
}

impl Cond {
    /// The condition that never holds.
    pub(crate) const FALSITY: Cond = Cond { index: 0 };

    /// The condition that always holds.
    pub(crate) const TRUTH: Cond = Cond { index: 1 };
}

/// What a condition is.
#[derive(Clone, Copy, PartialEq, Eq, Debug)]
pub enum Node {
    /// It always holds.
    Truth,
    /// It never holds.
    Falsity,
    /// It means `high` where the variable is true, and `low` where it is not.
    Branch { var: u32, low: Cond, high: Cond },
}
