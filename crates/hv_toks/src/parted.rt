//! An answer that holds for some configurations, and what refuses the others.

use hv_base::{List, Place, Why};
use hv_cond::Cond;

/// The configurations of `cond` are refused so at a place.
#[derive(Debug, Drop)]
pub struct Failing {
    pub cond: Cond,
    pub place: Place,
    pub why: Why,
}

/// A value for the configurations of `good`, and what refuses the others.
#[derive(Debug, Drop)]
pub struct Parted<T> {
    pub good: Cond,
    pub value: T,
    pub failing: List<Failing>,
}
