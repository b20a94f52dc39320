//! What the episodes of a translation unit give under all configurations, and which configurations
//! are refused.
#![tactic(auto)]

mod given;
mod refusals;

pub use given::Given;
pub use refusals::Refusals;
