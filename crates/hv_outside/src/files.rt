//! Files that are read whole, and what a read answers.
ghost use Rattle.std.specs.Prelude.{◌≡◌, Some, IsTrue, IfOk, if◌then◌else◌};
ghost use Rattle.hv_outside.specs.Count.{RoseIf};
ghost use Rattle.hv_outside.specs.Files.{FileState, GivesHeld, IsWithinLimit, Keeps, is_absence, is_fault};

use hv_base::Text;
use std::alloc::Global;

/// What a read of a file found.
#[derive(Debug, Drop)]
pub enum Got {
    /// The whole file, of at most `MOST_FILE_BYTES` bytes.
    Bytes(Text),
    /// There is no file of that name.
    Absent,
    /// The file has more than `MOST_FILE_BYTES` bytes: as many as given.
    TooBig(u64),
}

/// Why a read of a file gave nothing.
#[derive(Clone, Copy, Debug, PartialEq, Eq)]
pub enum FileFault {
    /// The outside failed: the file may be there, and could not be read.
    Failed,
    /// There was no memory for the bytes, or for what else the read needs.
    Memory,
}

/// Named files, of which each can be read whole.
pub trait Files {
    /// What the files hold where that is told, and how often reading them failed or found no file.
    /// A real folder tells nothing.
    ghost state: { Self → FileState };

    /// Reads the file of this name whole.
    fn read(&mut self, alloc: Global, name: &str) -> Result<Got, FileFault>
        ensures within_limit { IfOk result IsWithinLimit }
        ensures as_held { IsTrue (state self.old).told
            → IfOk result (GivesHeld ((state self.old).held name.now)) }

        // A failed read raises its count and leaves its name, an absence raises its count, and no
        // other answer changes any of the three.
        ensures faults { RoseIf (is_fault result) (state self.old).faults (state self.new).faults }
        ensures absences { RoseIf (is_absence result) (state self.old).absences
            (state self.new).absences }
        ensures failed_name { (state self.new).failed_name
            ≡ (if is_fault result then Some name.now else (state self.old).failed_name) }
        ensures keeps { Keeps (state self.old) (state self.new) };
}
