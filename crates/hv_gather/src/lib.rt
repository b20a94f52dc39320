//! Gathering: a main file with all the headers that it may include.
#![tactic(auto)]

ghost use Rattle.std.specs.Prelude.{◌≡◌, ◌⊎◌, ℕ, List, None, IfOk, IfErr, IsTrue, map};
ghost use Rattle.std.specs.String.{string_bytes};
ghost use Rattle.hv_base.specs.Bundles.{HasMain};
ghost use Rattle.hv_outside.specs.Count.{Rose};
ghost use Rattle.hv_outside.specs.Files.{Keeps};
ghost use Rattle.hv_gather.specs.Causes.{Answers, IsCaused, IsMainAbsent, told_answer};
ghost use Rattle.hv_gather.specs.Limits.{first_beyond};
ghost use Rattle.hv_plain.specs.gathering.Told.{told};

mod candidate;
mod fault;
mod mention;
mod search;

pub use fault::GatherFault;
use hv_base::{Bundle, MOST_INCLUDES};
use hv_outside::Files;
use search::Search;
pub use search::gather_plainly;
use std::alloc::Global;

/// The main file with all files that it may include: those that its `#include` lines mention, those
/// that the lines of these files mention, and so on, through at most 64 nested mentions. Each file
/// is read once and cut once.
pub fn gather<F: Files>(
    alloc: Global,
    files: &mut F,
    main: &str,
    dirs: &[String],
) -> Result<Bundle, GatherFault>
    // Over files that tell what they hold, the bundle is the one that the search is defined to
    // find.
    ensures ok { IsTrue (F.state files.old).told → IfOk result (λ bundle. bundle
        ≡ told (F.state files.old).held main.now (map string_bytes dirs.now)) }
    // There, which answer comes is told: no main file, the first file that is too big with its
    // total, or the bundle; unless a read failed or memory ran out.
    ensures answer { IsTrue (F.state files.old).told
        → Answers (told_answer (F.state files.old).held main.now
        (map string_bytes dirs.now)) result }
    // Each file of a bundle, and all of them together, are within the limits.
    ensures within { IfOk result (λ bundle. first_beyond bundle.entries 0 ≡ None) }
    ensures main { IfOk result HasMain }
    ensures names { IfOk result (λ bundle. (bundle.main ≡ main.now) × (bundle.dirs
        ≡ map string_bytes dirs.now)) }
    ensures err { IfErr result (IsCaused main.now (F.state files.old) (F.state files.new)) }
    // Where it is told that there is no main file, and no read failed, the answer says so.
    ensures main_absent { IsTrue (F.state files.old).told → (F.state files.old).held main.now ≡ None
        → (Rose (F.state files.old).faults (F.state files.new).faults → ⊥) → IsMainAbsent result }
    ensures keeps { Keeps (F.state files.old) (F.state files.new) }
{
    let mut search = Search::begin(alloc, files, main, dirs)?;
    for _ in 0..MOST_INCLUDES {
        search.deepen(files)?;
    }
    Ok(search.into_bundle())
}

#[cfg(test)]
mod tests;
