//! What came of a part of a file, and why nothing came.
ghost use Rattle.std.specs.Prelude.{IfOk};
ghost use Rattle.hv_texts.specs.working.Steps.{IsFaultAt};

use hv_base::{List, Memory, Place};
use hv_cond::Cond;
use hv_expand::ExpandFault;
use hv_given::Given;
use hv_toks::Failing;

/// What came of a part of a file that was read under all configurations of a condition.
#[derive(Debug, Drop)]
pub struct Came<T> {
    /// The episodes that were met.
    pub given: List<Given>,
    /// The configurations that were not refused.
    pub good: Cond,
    /// What they get.
    pub value: T,
    /// The other ones.
    pub failing: List<Failing>,
}

/// Where a controlling line is true, and where it isn't.
#[derive(Clone, Copy, Debug)]
pub struct Truths {
    pub holds: Cond,
    pub fails: Cond,
}

/// Why nothing came.
#[derive(Debug, Drop)]
pub enum TextFault {
    /// The episode at this place has more faces than are allowed. No configurations of two of these
    /// conditions have one face there.
    TooMany { place: Place, conds: List<Cond> },
    /// Out of memory.
    Memory,
}

/// The place at which there are too many faces, and the conditions that show it.
#[derive(Drop)]
pub(crate) struct TooMany {
    pub(crate) place: Place,
    pub(crate) conds: List<Cond>,
}

/// What is found of a part of a file.
#[derive(Drop)]
pub(crate) enum Found<T> {
    Came(Came<T>),
    TooMany(TooMany),
}

/// The place of an episode that has too many faces.
pub(crate) fn too_many_at(place: Place, fault: ExpandFault) -> Result<TooMany, Memory>
    ensures { IfOk result (IsFaultAt place fault) }
{
    match fault {
        ExpandFault::TooMany { conds } => Ok(TooMany { place, conds }),
        ExpandFault::Memory => Err(Memory),
    }
}
