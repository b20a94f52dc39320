//! The variant of one configuration, as tokens of C or as its first refusal.
#![tactic(auto)]

mod only;
mod variant;

pub use variant::{Variant, variant_of};
