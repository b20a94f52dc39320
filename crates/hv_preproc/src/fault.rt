//! Why a bundle has no stream.
ghost use Rattle.std.specs.Prelude.{◌≡◌};

use hv_base::{Config, List, Memory, Place};
use hv_cond::Cond;
use hv_texts::TextFault;

/// Why a bundle has no stream.
#[derive(Debug, Drop)]
pub enum PreFault {
    /// The episode at this place has more expansion faces than are allowed: these valid
    /// configurations have pairwise different ones.
    TooMany { place: Place, configs: List<Config> },
    /// Out of memory.
    Memory,
}

impl From<Memory> for PreFault {
    ghost use Rattle.hv_preproc.specs.declared.fault.PreFault.TheVariants.{Memory as OutOfMemory};

    ghost from_gives = { λ _ fault. fault ≡ OutOfMemory };

    fn from(_memory: Memory) -> PreFault {
        PreFault::Memory
    }
}

/// Why the walk through a bundle stopped.
#[derive(Debug, Drop)]
pub(crate) enum WalkFault {
    /// The episode at this place has more faces than are allowed. No configurations of two of these
    /// conditions have one face there.
    TooMany { place: Place, conds: List<Cond> },
    /// Out of memory.
    Memory,
}

impl From<Memory> for WalkFault {
    ghost use Rattle.hv_preproc.specs.declared.fault.WalkFault.TheVariants.{Memory as OutOfMemory};

    ghost from_gives = { λ _ fault. fault ≡ OutOfMemory };

    fn from(_memory: Memory) -> WalkFault {
        WalkFault::Memory
    }
}

impl From<TextFault> for WalkFault {
    ghost use Rattle.hv_preproc.specs.working.Faults.{passed_on};

    ghost from_gives = { λ text_fault fault. fault ≡ passed_on text_fault };

    fn from(fault: TextFault) -> WalkFault {
        match fault {
            TextFault::TooMany { place, conds } => WalkFault::TooMany { place, conds },
            TextFault::Memory => WalkFault::Memory,
        }
    }
}
