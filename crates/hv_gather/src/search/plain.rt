//! The search as it is defined, over files that are all told: slow, and to compare with.
ghost use Rattle.std.specs.Prelude.{◌≡◌, [], None, IfOk, OnOk, map};
ghost use Rattle.std.specs.Map.{lookup};
ghost use Rattle.std.specs.Str.{bytes_eq};
ghost use Rattle.std.specs.String.{string_bytes};
ghost use Rattle.hv_base.specs.Bundles as bundles;
ghost use Rattle.hv_plain.specs.gathering.SearchOrder.{candidates as candidates_of};
ghost use Rattle.hv_plain.specs.gathering.Told as telling;
ghost use Rattle.hv_gather.specs.Plain.{bytes_in};
ghost use Rattle.hv_gather.specs.working.Steps.{Grows, IsRead, Leads, search_of};

use crate::candidate::candidates;
use crate::mention::{Header, Reached, mentions};
use crate::search::Search;
use hv_base::{Bundle, Held, List, MOST_INCLUDES, Memory, Text};
use std::alloc::Global;
use std::mem;

/// The bundle that the search finds where `all` has all files that there are, computed as it is
/// defined. `gather` is the call for files that are read.
pub fn gather_plainly(
    alloc: Global,
    all: &Bundle,
    main: &str,
    dirs: &[String],
) -> Result<Bundle, Memory>
    ensures { IfOk result (λ bundle. bundle
        ≡ telling.told (bytes_in all.now) main.now (map string_bytes dirs.now)) }
{
    let mut search = Search::begin_among(alloc, all, main, dirs)?;
    for _ in 0..MOST_INCLUDES {
        search.deepen_among(all)?;
    }
    Ok(search.into_bundle())
}

impl Search {
    /// The search that begins with the main file of this name.
    fn begin_among(
        alloc: Global,
        all: &Bundle,
        main: &str,
        dirs: &[String],
    ) -> Result<Search, Memory>
        ensures found { IfOk result (λ search. search_of search
            ≡ telling.begin main.now (bytes_in all.now main.now)) }
        ensures names { IfOk result (λ search. (search.bundle.main ≡ main.now)
            × (search.bundle.dirs ≡ map string_bytes dirs.now)) }
    {
        let mut search = Search {
            alloc,
            bundle: Bundle::new(alloc, main, dirs)?,
            total: 0,
            headers: List::new(alloc),
            waiting: List::new(alloc),
        };
        search.find(all, main)?;
        Ok(search)
    }

    /// Goes through all that waits; what it mentions waits then.
    fn deepen_among(&mut self, all: &Bundle) -> Result<(), Memory>
        ensures found { OnOk result (search_of self.new
            ≡ telling.follow_all (bytes_in all.now) self.old.bundle.dirs self.old.waiting
            (record (search_of self.old) { waiting = [] })) }
        ensures grows { Grows self.old.bundle self.new.bundle }
    {
        let waiting = mem::replace(&mut self.waiting, List::new(self.alloc));
        for reached in waiting.as_slice() {
            self.follow_among(all, reached)?;
        }
        Ok(())
    }

    /// Looks up each header that this file mentions.
    fn follow_among(&mut self, all: &Bundle, reached: &Reached) -> Result<(), Memory>
        ensures found { OnOk result (search_of self.new
            ≡ telling.follow (bytes_in all.now) self.old.bundle.dirs reached.now.name
            reached.now.mentioned (search_of self.old)) }
        ensures grows { Grows self.old.bundle self.new.bundle }
    {
        let name = reached.name.as_str();
        for header in reached.mentioned.as_slice() {
            self.look_up_among(all, name, header)?;
        }
        Ok(())
    }

    /// Looks for a header that the file of this name mentions.
    fn look_up_among(&mut self, all: &Bundle, file: &str, header: &Header) -> Result<(), Memory>
        ensures found { OnOk result (search_of self.new
            ≡ telling.look_up (bytes_in all.now) header.now.name
            (candidates_of self.old.bundle.dirs file.now header.now) (search_of self.old)) }
        ensures grows { Grows self.old.bundle self.new.bundle }
    {
        let names = candidates(self.alloc, self.bundle.dirs(), file, header)?;
        for name in names.as_slice() {
            if self.ask_among(all, name.as_str())? {
                return Ok(());
            }
        }
        self.reach_header(header.name.as_str())
    }

    /// Whether there is a file of this name, which is asked for where it wasn't before.
    fn ask_among(&mut self, all: &Bundle, name: &str) -> Result<bool, Memory>
        ensures found { (go_on : telling.Search → telling.Search)
            → IfOk result (λ there. Leads there (telling.ask name.now (bytes_in all.now name.now)
            (lookup (bytes_eq name.now) self.old.bundle.entries) go_on (search_of self.old)) go_on
            (search_of self.new)) }
        ensures grows { Grows self.old.bundle self.new.bundle }
    {
        match self.bundle.get(name) {
            Some(Held::Bytes(_)) => return Ok(true),
            Some(Held::Absent) => return Ok(false),
            None => {}
        }
        self.find(all, name)
    }

    /// Finds what a name that wasn't asked for before leads to, and tells whether there is a file.
    fn find(&mut self, all: &Bundle, name: &str) -> Result<bool, Memory>
        requires { bundles.held_at self.old.bundle name.now ≡ None }
        ensures found { IfOk result (λ there. IsRead there name.now (bytes_in all.now name.now)
            (search_of self.old) (search_of self.new)) }
        ensures grows { Grows self.old.bundle self.new.bundle }
    {
        let Some(Held::Bytes(bytes)) = all.get(name) else {
            self.add(name, Held::Absent)?;
            return Ok(false);
        };
        let mentioned = mentions(self.alloc, bytes.as_slice())?;
        self.reach(name, mentioned)?;
        self.add(name, Held::Bytes(bytes.copy(self.alloc)?))?;
        Ok(true)
    }
}
