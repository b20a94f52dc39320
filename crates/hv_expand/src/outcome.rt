//! What an expansion comes to, and why there are no outcomes.
use hv_base::{List, Why};
use hv_cond::Cond;
use hv_toks::PpTok;

/// The tokens that an expansion gives, or why it is refused.
#[derive(Debug, Drop)]
pub enum Expanded {
    Tokens(List<PpTok>),
    Fails(Why),
}

/// What an episode comes to in the configurations of one face.
#[derive(Debug, Drop)]
pub struct Outcome {
    /// Those configurations.
    pub cond: Cond,
    /// The number of the face, which is the outcome's index.
    pub face: u32,
    pub result: Expanded,
    /// The position in the run where it goes on; that of the episode's first token where the
    /// episode is refused.
    pub end: usize,
}

/// Why there are no outcomes.
#[derive(Debug, Drop)]
pub enum ExpandFault {
    /// There are more faces than are allowed. No configurations of two of these conditions have
    /// one face.
    TooMany { conds: List<Cond> },
    /// Out of memory.
    Memory,
}

/// What an episode comes to, and where it goes on.
#[derive(Debug, Drop)]
pub struct Ending {
    pub result: Expanded,
    /// The position in the run; that of the first token where the episode is refused.
    pub end: usize,
}
