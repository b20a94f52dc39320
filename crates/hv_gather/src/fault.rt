//! Why gathering ends without a bundle.
ghost use Rattle.std.specs.Prelude.{◌≡◌};

use hv_base::{Memory, Text};

/// Why gathering ended without a bundle.
#[derive(Debug, Drop)]
pub enum GatherFault {
    /// The file of this name could not be read.
    Read { name: Text },
    /// There is no main file.
    MainAbsent,
    /// The file of this name has `length` bytes, and all files up to it have `total` bytes: the one
    /// is more than a file may have, or the other more than all files may have together.
    TooBig { name: Text, length: u64, total: u64 },
    /// Memory ran out. It may come at any point.
    Memory,
}

impl From<Memory> for GatherFault {
    ghost use Rattle.hv_gather.specs.declared.fault.GatherFault.TheVariants.{Memory as OutOfMemory};

    ghost from_gives = { λ _ fault. fault ≡ OutOfMemory };

    fn from(_memory: Memory) -> GatherFault {
        GatherFault::Memory
    }
}
