//! The grammar of the profile, as definitions: which tokens derive which tree, and which token is
//! refused first.
#![tactic(auto)]

mod laws;

pub use laws::{
    answers_elements_rightly, answers_rightly, decides_by_control, has_one_tree, keeps_tokens,
    reads_elements, reads_expressions,
};
