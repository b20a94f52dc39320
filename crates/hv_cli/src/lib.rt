//! The command line: what its words ask for, the files that it reads, and how a call ends.
#![tactic(auto)]

mod answer;
mod command;
mod encode;
mod joined;
mod options;
mod position;
mod read;
mod top;
mod variant;
mod write;

pub use answer::Answer;
pub use position::Position;
pub use top::hercules;
