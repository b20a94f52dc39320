//! The plain C tree, without conditions.

pub mod declaration;
pub mod declarator;
pub mod expr;
pub mod skeleton;
pub mod specifier;
pub mod stmt;
pub mod words;
