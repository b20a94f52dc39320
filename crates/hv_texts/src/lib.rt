//! The texts and controlling lines of a file under all configurations (ISO/IEC 9899:1999, 6.10).
#![tactic(auto)]

mod came;
mod judging;
mod line;
mod name;
mod origin;
mod text;
mod walk;

pub use came::{Came, TextFault, Truths};
pub use hv_expand::RunEnd;
pub use line::line_truth;
pub use name::name_truth;
pub use origin::Origin;
pub use text::expand_text;
