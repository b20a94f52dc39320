//! The files that a main file may include.
ghost use Rattle.std.specs.Prelude.{◌≡◌, ◌<◌, ◌∷◌, ◌++◌, [], None, Some, map, length, IfOk, OnErr};
ghost use Rattle.std.specs.Option.{option_copied, option_map};
ghost use Rattle.std.specs.String.{string_bytes};
ghost use Rattle.hv_base.specs.Bundles as bundles;
ghost use Rattle.hv_base.specs.declared.limits.TheConstants.{MOST_NAMES};

use crate::{Held, Memory};
use indexmap::IndexMap;
use std::alloc::Global;
use std::marker::Model;

/// Named files and names that were found absent, in the order of adding, with the main file's name
/// and the include folders. Contracts see it as `bundles.NamedFiles`.
#[derive(Drop)]
pub struct Bundle {
    alloc: Global,
    main: String,
    dirs: Vec<String>,
    files: IndexMap<String, Held>,
}

impl Model for Bundle {
    ghost use Rattle.std.specs.Prelude.{◌≤◌, map, length};
    ghost use Rattle.hv_base.specs.declared.limits.TheConstants.{MOST_NAMES};
    ghost use Rattle.std.specs.String.{string_bytes};
    ghost use Rattle.hv_base.specs.Bundles.{NamedFiles};

    ghost Value = { NamedFiles };

    ghost view = { λ b. record {
      main = string_bytes b.main;
      dirs = map string_bytes b.dirs.items;
      entries = map (λ e. (string_bytes e.0, e.1)) b.files.entries;
    } };

    ghost invariant = { λ b. length b.files.entries ≤ MOST_NAMES };
}

/// Copies of these names.
fn copied(alloc: Global, names: &[String]) -> Result<Vec<String>, Memory>
    ensures { IfOk result (λ copies. map string_bytes copies.items ≡ map string_bytes names.now) }
{
    let mut copies = Vec::new(alloc);
    for name in names {
        copies.push(String::from_str(alloc, name.as_str())?)?;
    }
    Ok(copies)
}

impl Bundle {
    /// No file yet, with this main file's name and these include folders, in order.
    pub fn new(alloc: Global, main: &str, dirs: &[String]) -> Result<Bundle, Memory>
        ensures { IfOk result (λ bundle.
            bundle ≡ record { main = main.now; dirs = map string_bytes dirs.now; entries = [] }) }
    {
        Ok(Bundle {
            alloc,
            main: String::from_str(alloc, main)?,
            dirs: copied(alloc, dirs)?,
            files: IndexMap::new(alloc),
        })
    }

    /// Adds a new name and answers its file number, which counts from 0 in the order of adding.
    pub fn add(&mut self, name: &str, held: Held) -> Result<u32, Memory>
        requires new { bundles.held_at self.old name.now ≡ None }
        requires room { length self.old.entries < MOST_NAMES }
        ensures ok { IfOk result (λ file.
            self.new ≡ record self.old { entries = self.old.entries ++ (name.now, held) ∷ [] }) }
        ensures number { IfOk result (λ file. file ≡ length self.old.entries) }
        ensures unchanged { OnErr result (self.new ≡ self.old) }
    {
        let number = self.files.len() as u32;
        let key = String::from_str(self.alloc, name)?;
        self.files.insert(key, held)?;
        Ok(number)
    }

    /// How many names were added.
    pub fn len(&self) -> usize
        ensures { result ≡ length self.now.entries }
    {
        self.files.len()
    }

    /// What is held under the name, or `None` where the name wasn't added.
    pub fn get(&self, name: &str) -> Option<&Held>
        ensures { option_copied result ≡ bundles.held_at self.now name.now }
    {
        self.files.get(name)
    }

    /// The file number of the name, or `None` where the name wasn't added.
    pub fn number_of(&self, name: &str) -> Option<u32>
        ensures { result ≡ bundles.number_at self.now name.now }
    {
        match self.files.get_index_of(name) {
            Some(index) => Some(index as u32),
            None => None,
        }
    }

    /// The name of the file of this number, or `None` where there are fewer.
    pub fn name_of(&self, file: u32) -> Option<&str>
        ensures { option_map (λ name. name.now) result ≡ bundles.name_at self.now file }
    {
        match self.files.get_index(file as usize) {
            Some((name, _)) => Some(name.as_str()),
            None => None,
        }
    }

    /// The include folders, in order.
    pub fn dirs(&self) -> &[String]
        ensures { map string_bytes result.now ≡ self.now.dirs }
    {
        self.dirs.as_slice()
    }
}
