//! Files, input and output in memory, of which no call fails.
ghost use Rattle.std.specs.Prelude.{◌≡◌, ℕ, ◌≤◌, List, [], ◌++◌, length, drop, true, None, Some, OnOk, OnErr, IfOk};
ghost use Rattle.indexmap.specs.IndexMap.{get_by_text};
ghost use Rattle.hv_outside.specs.Files.{GivesHeld, IsWithinLimit, Puts, SameHeld};

use crate::files::{FileFault, Files, Got};
use crate::schedule::raised;
use crate::sink::{Sink, SinkFault};
use crate::source::{Failed, Source};
use hv_base::{MOST_FILE_BYTES, Memory, Text};
use indexmap::IndexMap;
use std::alloc::Global;
use std::marker::Model;

/// Files in memory, of which no read fails.
#[derive(Drop)]
pub struct SafeFiles {
    alloc: Global,
    files: IndexMap<String, Text>,
    absences: u64,
}

impl SafeFiles {
    /// No file. Names are copied into memory of `alloc`.
    pub fn new(alloc: Global) -> SafeFiles
        ensures holds_nothing { (name : List ℕ)
            → (⟦<SafeFiles as Files>⟧.state result).held name ≡ None }
        ensures no_absence { (⟦<SafeFiles as Files>⟧.state result).absences ≡ 0 }
    {
        SafeFiles {
            alloc,
            files: IndexMap::new(alloc),
            absences: 0,
        }
    }

    /// Adds a file, or replaces the one of that name. Out of memory, all files stay as they were.
    pub fn put(&mut self, name: &str, bytes: Text) -> Result<(), Memory>
        ensures put { OnOk result
            (Puts ((⟦<SafeFiles as Files>⟧.state self.old).held)
            ((⟦<SafeFiles as Files>⟧.state self.new).held) name.now bytes) }
        ensures unchanged { OnErr result
            (SameHeld ((⟦<SafeFiles as Files>⟧.state self.old).held)
            ((⟦<SafeFiles as Files>⟧.state self.new).held)) }
        ensures absences_stay { (⟦<SafeFiles as Files>⟧.state self.new).absences
            ≡ (⟦<SafeFiles as Files>⟧.state self.old).absences }
    {
        let name = String::from_str(self.alloc, name)?;
        self.files.insert(name, bytes)?;
        Ok(())
    }

    /// What a read of that name finds.
    fn find(&self, alloc: Global, name: &str) -> Result<Got, Memory>
        ensures as_held { IfOk result (GivesHeld (get_by_text self.now.files name.now)) }
        ensures within_limit { IfOk result IsWithinLimit }
    {
        match self.files.get(name) {
            None => Ok(Got::Absent),
            Some(bytes) if bytes.len() as u64 > MOST_FILE_BYTES => Ok(Got::TooBig(
                bytes.len() as u64,
            )),
            Some(bytes) => Ok(Got::Bytes(Text::from_slice(alloc, bytes.as_slice())?)),
        }
    }
}

impl Files for SafeFiles {
    ghost state = { λ files. record {
      told = true;
      held = get_by_text files.files;
      faults = 0;
      absences = files.absences;
      failed_name = None;
    } };

    fn read(&mut self, alloc: Global, name: &str) -> Result<Got, FileFault> {
        match self.find(alloc, name) {
            Ok(Got::Absent) => {
                self.absences = raised(self.absences);
                Ok(Got::Absent)
            }
            Ok(found) => Ok(found),
            Err(Memory) => Err(FileFault::Memory),
        }
    }
}

/// Input in memory, of which no read fails. Contracts see it as the bytes that are left.
#[derive(Drop)]
pub struct SafeSource {
    bytes: Text,
    at: usize,
}

impl Model for SafeSource {
    ghost Value = { List ℕ };

    ghost view = { λ source. drop source.at source.bytes };

    ghost invariant = { λ source. source.at ≤ length source.bytes };
}

impl SafeSource {
    /// All of `bytes` as the input.
    pub fn new(bytes: Text) -> SafeSource
        ensures { result ≡ bytes }
    {
        SafeSource { bytes, at: 0 }
    }
}

impl Source for SafeSource {
    ghost state = { λ source. record { left = Some source; faults = 0 } };

    fn read_some(&mut self, buf: &mut [u8]) -> Result<usize, Failed> {
        let rest = &self.bytes.as_slice()[self.at..];
        let count = rest.len().min(buf.len());
        buf[..count].copy_from_slice(&rest[..count]);
        self.at += count;
        Ok(count)
    }
}

/// Output in memory, of which no write fails. Contracts see it as the bytes that it got.
#[derive(Drop)]
pub struct SafeSink {
    text: Text,
}

impl Model for SafeSink {
    ghost Value = { List ℕ };

    ghost view = { λ sink. sink.text };
}

impl SafeSink {
    /// Nothing so far.
    pub fn new(alloc: Global) -> SafeSink
        ensures { result ≡ [] }
    {
        SafeSink {
            text: Text::new(alloc),
        }
    }

    /// The bytes that it got.
    pub fn bytes(&self) -> &[u8]
        ensures { result.now ≡ self.now }
    {
        self.text.as_slice()
    }

    /// Adds all of `piece`. Out of memory, nothing is added.
    pub(crate) fn append(&mut self, piece: &[u8]) -> Result<(), Memory>
        ensures ok { OnOk result (self.new ≡ self.old ++ piece.now) }
        ensures unchanged { OnErr result (self.new ≡ self.old) }
    {
        self.text.extend_from_slice(piece)
    }
}

impl Sink for SafeSink {
    ghost state = { λ sink. record { written = Some sink; faults = 0 } };

    fn write_some(&mut self, piece: &[u8]) -> Result<usize, SinkFault> {
        match self.append(piece) {
            Ok(()) => Ok(piece.len()),
            Err(Memory) => Err(SinkFault::Memory),
        }
    }
}
