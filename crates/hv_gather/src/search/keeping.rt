//! What a search keeps of a name that was asked for.
ghost use Rattle.std.specs.Prelude.{◌≡◌, ◌≤◌, [], ◌∷◌, ◌++◌, IfOk, IfErr, OnOk, OnErr, length};
ghost use Rattle.hv_base.specs.Ascii.{is_among};
ghost use Rattle.hv_base.specs.Bundles as bundles;
ghost use Rattle.hv_base.specs.declared.limits.TheConstants.{MOST_FILE_BYTES};
ghost use Rattle.hv_plain.specs.gathering.Told as telling;
ghost use Rattle.hv_gather.specs.working.Steps.{Grows, IsTooBigWith, IsWithin, search_of};

use crate::GatherFault;
use crate::mention::{Header, Reached, mentions};
use crate::search::Search;
use hv_base::{Held, List, MOST_BUNDLE_BYTES, MOST_NAMES, Memory, Text};
use hv_plain::builtin_header;
use std::alloc::Global;

impl Search {
    /// Keeps the bytes of a file that was found, and reaches it, unless the files are too big with
    /// it.
    pub(crate) fn keep(&mut self, name: &str, bytes: Text) -> Result<(), GatherFault>
        requires new { bundles.held_at self.old.bundle name.now ≡ None }
        requires small { length bytes ≤ MOST_FILE_BYTES }
        requires within { IsWithin self.old.total self.old.bundle.entries }
        ensures ok { OnOk result (search_of self.new
            ≡ telling.with_file name.now bytes (search_of self.old)) }
        ensures names { OnOk result ((self.new.bundle.main ≡ self.old.bundle.main)
            × (self.new.bundle.dirs ≡ self.old.bundle.dirs)) }
        ensures grows { Grows self.old.bundle self.new.bundle }
        ensures within { OnOk result (IsWithin self.new.total self.new.bundle.entries) }
        ensures too_big { IfErr result (IsTooBigWith name.now bytes self.old.bundle.entries) }
    {
        let length = bytes.len() as u64;
        let total = self.total.saturating_add(length);
        if total > MOST_BUNDLE_BYTES {
            return Err(GatherFault::TooBig {
                name: copy(self.alloc, name)?,
                length,
                total,
            });
        }
        let mentioned = mentions(self.alloc, bytes.as_slice())?;
        self.reach(name, mentioned)?;
        self.add(name, Held::Bytes(bytes))?;
        self.total = total;
        Ok(())
    }

    /// Adds a name that wasn't asked for before.
    pub(crate) fn add(&mut self, name: &str, held: Held) -> Result<(), Memory>
        requires { bundles.held_at self.old.bundle name.now ≡ None }
        ensures ok { OnOk result (self.new.bundle
            ≡ record self.old.bundle {
              entries = self.old.bundle.entries
                  ++ (name.now, held) ∷ [];
            }) }
        ensures unchanged { OnErr result (self.new.bundle ≡ self.old.bundle) }
        ensures others { (self.new.headers ≡ self.old.headers) × (self.new.waiting
            ≡ self.old.waiting)
            × (self.new.total ≡ self.old.total) }
    {
        // So many names take more memory than there is.
        if self.bundle.name_of(MOST_NAMES - 1).is_some() {
            return Err(Memory);
        }
        self.bundle.add(name, held)?;
        Ok(())
    }

    /// Reaches a file or a built-in header, which waits then.
    pub(crate) fn reach(&mut self, name: &str, mentioned: List<Header>) -> Result<(), Memory>
        ensures ok { OnOk result (self.new.waiting ≡ self.old.waiting
            ++ record { name = name.now; mentioned = mentioned } ∷ []) }
        ensures others { (self.new.headers ≡ self.old.headers) × (self.new.bundle
            ≡ self.old.bundle)
            × (self.new.total ≡ self.old.total) }
    {
        let name = String::from_str(self.alloc, name)?;
        self.waiting.add(Reached { name, mentioned })
    }

    /// Reaches the built-in header of this name, where there is one that wasn't reached before.
    pub(crate) fn reach_header(&mut self, name: &str) -> Result<(), Memory>
        ensures ok { OnOk result (search_of self.new
            ≡ telling.reach_header name.now (search_of self.old)) }
        ensures others { (self.new.bundle ≡ self.old.bundle) × (self.new.total ≡ self.old.total) }
    {
        let Some(text) = builtin_header(name) else {
            return Ok(());
        };
        if self.has_header(name) {
            return Ok(());
        }
        let mentioned = mentions(self.alloc, text)?;
        self.reach(name, mentioned)?;
        self.headers.add(copy(self.alloc, name)?)
    }

    /// Whether the built-in header of this name was reached.
    fn has_header(&self, name: &str) -> bool
        ensures { result ≡ is_among name.now self.now.headers }
    {
        self.headers
            .as_slice()
            .iter()
            .any(|header| header.is_text(name.as_bytes()))
    }
}

/// A copy of a name.
pub(crate) fn copy(alloc: Global, name: &str) -> Result<Text, Memory>
    ensures { IfOk result (λ text. text ≡ name.now) }
{
    Text::from_slice(alloc, name.as_bytes())
}
