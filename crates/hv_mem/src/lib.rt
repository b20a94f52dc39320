//! Memory as the meaning of a program sees it: named blocks of abstract bytes.
#![tactic(auto)]

mod access;
mod address;
mod block;
mod blocks;
mod cells;
mod changes;
mod copies;
mod kind;
mod loads;
mod moves;
mod scalars;
mod value;

pub use address::{Address, BlockId, BlockName};
pub use blocks::Blocks;
pub use hv_base::Memory;
pub use hv_ctree::IntKind;
pub use kind::Kind;
pub use value::{Byte, Pointer, Scalar, Value};

#[cfg(test)]
mod tests;
