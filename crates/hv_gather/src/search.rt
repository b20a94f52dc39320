//! The search for all files that a main file may include, over files that are read.
ghost use Rattle.std.specs.Prelude.{◌≡◌, ◌<◌, ◌≤◌, ◌⊎◌, ℕ, List as ListOf, [], ◌∷◌, ◌++◌, Option as OptionOf, Some, None, IfOk, IfErr, OnOk, OnErr, IsTrue, length, map};
ghost use Rattle.std.specs.Map.{lookup};
ghost use Rattle.std.specs.Str.{bytes_eq};
ghost use Rattle.std.specs.String.{string_bytes};
ghost use Rattle.hv_base.specs.Ascii.{is_among};
ghost use Rattle.hv_base.specs.Bundles as bundles;
ghost use Rattle.hv_base.specs.declared.limits.TheConstants.{MOST_FILE_BYTES, MOST_BUNDLE_BYTES};
ghost use Rattle.hv_outside.specs.Count.{Rose};
ghost use Rattle.hv_outside.specs.Files.{Keeps};
ghost use Rattle.hv_gather.specs.Causes.{IsAbsent, IsCaused, IsMainAbsent, IsTooBig, IsUnread};
ghost use Rattle.hv_plain.specs.gathering.Mentions.{mentions as mentioned_in};
ghost use Rattle.hv_plain.specs.gathering.SearchOrder.{candidates as candidates_of};
ghost use Rattle.hv_plain.specs.gathering.Told as telling;
ghost use Rattle.hv_gather.specs.working.Steps.{Grows, IsAbsentIf, IsCausedByStep, IsNoFile, IsRead, IsWithin, Leads, NamesFirst, NamesThis, Tells, search_of};

mod keeping;
mod plain;

use crate::GatherFault;
use crate::candidate::candidates;
use crate::mention::{Header, Reached};
use hv_base::{Bundle, Held, List, Text};
use hv_outside::{FileFault, Files, Got};
use keeping::copy;
pub use plain::gather_plainly;
use std::alloc::Global;
use std::mem;

/// How far a search is.
#[derive(Drop)]
pub struct Search {
    alloc: Global,
    /// The names that were asked for, in order, with what was found.
    bundle: Bundle,
    /// How many bytes the files have that were found.
    total: u64,
    /// The names of the built-in headers that were reached.
    headers: List<Text>,
    /// What was reached but not gone through, in the order of first mention.
    waiting: List<Reached>,
}

impl Search {
    /// The search that begins with the main file of this name.
    pub fn begin<F: Files>(
        alloc: Global,
        files: &mut F,
        main: &str,
        dirs: &[String],
    ) -> Result<Search, GatherFault>
        ensures found { (held : ListOf ℕ → OptionOf (ListOf ℕ)) → Tells (F.state files.old) held
            → IfOk result (λ search. search_of search ≡ telling.begin main.now (held main.now)) }
        ensures there { (held : ListOf ℕ → OptionOf (ListOf ℕ)) → Tells (F.state files.old) held
            → IfOk result (λ search. (bytes : ListOf ℕ) × (held main.now ≡ Some bytes)) }
        ensures within { IfOk result (λ search. IsWithin search.total search.bundle.entries) }
        ensures too_big { (held : ListOf ℕ → OptionOf (ListOf ℕ)) → Tells (F.state files.old) held
            → IfErr result (NamesThis main.now (held main.now) []) }
        ensures first { IfOk result (λ search. bundles.HasMain search.bundle) }
        ensures names { IfOk result (λ search. (search.bundle.main ≡ main.now)
            × (search.bundle.dirs ≡ map string_bytes dirs.now)) }
        ensures main_absent { IsTrue (F.state files.old).told → (F.state files.old).held main.now
            ≡ None
            → (Rose (F.state files.old).faults (F.state files.new).faults → ⊥)
            → IsMainAbsent result }
        ensures caused { IfErr result (IsCaused main.now (F.state files.old) (F.state files.new)) }
        ensures keeps { Keeps (F.state files.old) (F.state files.new) }
    {
        let mut search = Search {
            alloc,
            bundle: Bundle::new(alloc, main, dirs)?,
            total: 0,
            headers: List::new(alloc),
            waiting: List::new(alloc),
        };
        if search.read(files, main)? {
            Ok(search)
        } else {
            Err(GatherFault::MainAbsent)
        }
    }

    /// The bundle that was found.
    pub fn into_bundle(self) -> Bundle
        ensures { result ≡ self.bundle }
    {
        self.bundle
    }

    /// Goes through all that waits; what it mentions waits then.
    pub fn deepen<F: Files>(&mut self, files: &mut F) -> Result<(), GatherFault>
        requires within { IsWithin self.old.total self.old.bundle.entries }
        ensures found { (held : ListOf ℕ → OptionOf (ListOf ℕ)) → Tells (F.state files.old) held
            → OnOk result (search_of self.new
            ≡ telling.follow_all held self.old.bundle.dirs self.old.waiting
            (record (search_of self.old) { waiting = [] })) }
        ensures too_big { (held : ListOf ℕ → OptionOf (ListOf ℕ)) → Tells (F.state files.old) held
            → IfErr result (NamesFirst (telling.follow_all held self.old.bundle.dirs
            self.old.waiting
            (record (search_of self.old) { waiting = [] })).entries) }
        ensures within { OnOk result (IsWithin self.new.total self.new.bundle.entries) }
        ensures caused { IfErr result (IsCausedByStep (F.state files.old) (F.state files.new)) }
        ensures keeps { Keeps (F.state files.old) (F.state files.new) }
        ensures grows { Grows self.old.bundle self.new.bundle }
    {
        let waiting = mem::replace(&mut self.waiting, List::new(self.alloc));
        for reached in waiting.as_slice() {
            self.follow(files, reached)?;
        }
        Ok(())
    }

    /// Looks up each header that this file mentions.
    fn follow<F: Files>(&mut self, files: &mut F, reached: &Reached) -> Result<(), GatherFault>
        requires within { IsWithin self.old.total self.old.bundle.entries }
        ensures found { (held : ListOf ℕ → OptionOf (ListOf ℕ)) → Tells (F.state files.old) held
            → OnOk result (search_of self.new
            ≡ telling.follow held self.old.bundle.dirs reached.now.name
            reached.now.mentioned (search_of self.old)) }
        ensures too_big { (held : ListOf ℕ → OptionOf (ListOf ℕ)) → Tells (F.state files.old) held
            → IfErr result (NamesFirst (telling.follow held self.old.bundle.dirs
            reached.now.name reached.now.mentioned (search_of self.old)).entries) }
        ensures within { OnOk result (IsWithin self.new.total self.new.bundle.entries) }
        ensures caused { IfErr result (IsCausedByStep (F.state files.old) (F.state files.new)) }
        ensures keeps { Keeps (F.state files.old) (F.state files.new) }
        ensures grows { Grows self.old.bundle self.new.bundle }
    {
        let name = reached.name.as_str();
        for header in reached.mentioned.as_slice() {
            self.look_up(files, name, header)?;
        }
        Ok(())
    }

    /// Looks for a header that the file of this name mentions.
    fn look_up<F: Files>(
        &mut self,
        files: &mut F,
        file: &str,
        header: &Header,
    ) -> Result<(), GatherFault>
        requires within { IsWithin self.old.total self.old.bundle.entries }
        ensures found { (held : ListOf ℕ → OptionOf (ListOf ℕ)) → Tells (F.state files.old) held
            → OnOk result (search_of self.new ≡ telling.look_up held header.now.name
            (candidates_of self.old.bundle.dirs file.now header.now) (search_of self.old)) }
        ensures too_big { (held : ListOf ℕ → OptionOf (ListOf ℕ)) → Tells (F.state files.old) held
            → IfErr result (NamesFirst (telling.look_up held header.now.name
            (candidates_of self.old.bundle.dirs file.now header.now)
            (search_of self.old)).entries) }
        ensures within { OnOk result (IsWithin self.new.total self.new.bundle.entries) }
        ensures caused { IfErr result (IsCausedByStep (F.state files.old) (F.state files.new)) }
        ensures keeps { Keeps (F.state files.old) (F.state files.new) }
        ensures grows { Grows self.old.bundle self.new.bundle }
    {
        let names = candidates(self.alloc, self.bundle.dirs(), file, header)?;
        for name in names.as_slice() {
            if self.ask(files, name.as_str())? {
                return Ok(());
            }
        }
        self.reach_header(header.name.as_str())?;
        Ok(())
    }

    /// Whether there is a file of this name. It is read where the name wasn't asked for before.
    fn ask<F: Files>(&mut self, files: &mut F, name: &str) -> Result<bool, GatherFault>
        requires within { IsWithin self.old.total self.old.bundle.entries }
        ensures found { (held : ListOf ℕ → OptionOf (ListOf ℕ)) (go_on : telling.Search
            → telling.Search)
            → Tells (F.state files.old) held
            → IfOk result (λ there. Leads there (telling.ask name.now (held name.now)
            (lookup (bytes_eq name.now) self.old.bundle.entries) go_on (search_of self.old)) go_on
            (search_of self.new)) }
        ensures too_big { (held : ListOf ℕ → OptionOf (ListOf ℕ)) (go_on : telling.Search
            → telling.Search)
            → Tells (F.state files.old) held
            → IfErr result (NamesFirst (telling.ask name.now (held name.now)
            (lookup (bytes_eq name.now) self.old.bundle.entries) go_on
            (search_of self.old)).entries) }
        ensures within { OnOk result (IsWithin self.new.total self.new.bundle.entries) }
        ensures caused { IfErr result (IsCausedByStep (F.state files.old) (F.state files.new)) }
        ensures keeps { Keeps (F.state files.old) (F.state files.new) }
        ensures grows { Grows self.old.bundle self.new.bundle }
    {
        match self.bundle.get(name) {
            Some(Held::Bytes(_)) => return Ok(true),
            Some(Held::Absent) => return Ok(false),
            None => {}
        }
        self.read(files, name)
    }

    /// Reads the file of a name that wasn't asked for before, and tells whether there is one.
    fn read<F: Files>(&mut self, files: &mut F, name: &str) -> Result<bool, GatherFault>
        requires new { bundles.held_at self.old.bundle name.now ≡ None }
        requires within { IsWithin self.old.total self.old.bundle.entries }
        ensures found { (held : ListOf ℕ → OptionOf (ListOf ℕ)) → Tells (F.state files.old) held
            → IfOk result (λ there. IsRead there name.now (held name.now) (search_of self.old)
            (search_of self.new)) }
        ensures too_big { (held : ListOf ℕ → OptionOf (ListOf ℕ)) → Tells (F.state files.old) held
            → IfErr result (NamesThis name.now (held name.now) self.old.bundle.entries) }
        ensures within { OnOk result (IsWithin self.new.total self.new.bundle.entries) }
        ensures first { IfOk result (λ there. self.old.bundle.entries ≡ [] → IsTrue there
            → name.now ≡ self.old.bundle.main
            → bundles.HasMain self.new.bundle) }
        ensures no_file { IsTrue (F.state files.old).told → (F.state files.old).held name.now ≡ None
            → (Rose (F.state files.old).faults (F.state files.new).faults → ⊥) → IsNoFile result }
        ensures absent { IfOk result (λ there. IsAbsentIf there (F.state files.old)
            (F.state files.new) name.now) }
        ensures caused { IfErr result (IsCausedByStep (F.state files.old) (F.state files.new)) }
        ensures keeps { Keeps (F.state files.old) (F.state files.new) }
        ensures grows { Grows self.old.bundle self.new.bundle }
    {
        match files.read(self.alloc, name) {
            Ok(Got::Bytes(bytes)) => {
                self.keep(name, bytes)?;
                Ok(true)
            }
            Ok(Got::Absent) => {
                self.add(name, Held::Absent)?;
                Ok(false)
            }
            Ok(Got::TooBig(length)) => Err(GatherFault::TooBig {
                name: copy(self.alloc, name)?,
                length,
                total: self.total.saturating_add(length),
            }),
            Err(FileFault::Failed) => Err(GatherFault::Read {
                name: copy(self.alloc, name)?,
            }),
            Err(FileFault::Memory) => Err(GatherFault::Memory),
        }
    }
}
