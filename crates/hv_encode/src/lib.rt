//! The whole way from a source to its metaproduct.
#![tactic(auto)]

mod small;

pub use small::encode_small;
