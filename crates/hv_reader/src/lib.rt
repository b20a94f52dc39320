//! Reads an element's own tokens, or an expression's, into their tree.
#![tactic(auto)]

mod element;
mod piece;

pub use element::check_element;
pub use piece::Piece;

#[cfg(test)]
mod tests;
