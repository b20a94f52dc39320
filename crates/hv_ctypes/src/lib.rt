//! Types of C: what they take in memory, which are compatible, and what values are converted to.
#![tactic(auto)]

mod arithmetic;
mod compatibility;
mod compounds;
mod conversions;
mod derived;
mod layouts;
mod members;
mod merging;
mod offsets;

pub use arithmetic::usual;
pub use compatibility::compatible;
pub use compounds::{complete_compound, declare_compound, new_types};
pub use conversions::{convert, convert_to_kind, integer_kind};
pub use derived::{MOST_PARTS, array_of, function_of, parts, pointer_to};
pub use hv_ctree::{CType, IntKind, Layout, Types};
pub use layouts::{align_of, layout, size_of, size_of_kind};
pub use members::next_offset;
pub use merging::{composite, copied};
pub use offsets::member_offsets;

#[cfg(test)]
mod tests;
