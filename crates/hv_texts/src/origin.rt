//! Where the tokens of a file stand.
ghost use Rattle.std.specs.Prelude.{◌≡◌, IfOk};
ghost use Rattle.hv_plainpp.specs.Files.{Entered, place_of};
ghost use Rattle.hv_texts.specs.Readings.{IsOriginOf};

use hv_base::{List, Memory, Place};
use hv_toks::PpTok;
use std::alloc::Global;

/// A file, and how it was reached.
#[derive(Debug, Drop)]
pub struct Origin {
    /// The number of the file.
    pub file: u32,
    /// The offsets of the `#` of the `#include` directives that led to it, outermost first.
    pub stack: List<u64>,
}

impl Origin {
    /// The place of a token of the file.
    pub fn place_of(&self, token: &PpTok, alloc: Global) -> Result<Place, Memory>
        ensures { IfOk result (λ place. (at : Entered) → IsOriginOf self.now at
            → place ≡ place_of at token.now) }
    {
        Ok(Place {
            stack: self.stack.copy(alloc)?,
            file: self.file,
            offset: token.span.start,
        })
    }
}
