//! A metaproduct as a value.
use hv_base::{List, Text};

/// A test of an option: that the one of this number is on, or off if negated.
#[derive(Clone, Copy, Debug, PartialEq, Eq)]
pub struct OptionTest {
    pub option: usize,
    pub negated: bool,
}

/// Statements in a row that have the same test. Each writes one byte where all of the tests hold.
#[derive(Debug, Drop)]
pub struct Block {
    pub test: List<OptionTest>,
    pub bytes: Text,
}

/// The metaproduct of a small source: its statements, in order.
#[derive(Debug, Drop)]
pub struct Metaproduct {
    pub blocks: List<Block>,
}
