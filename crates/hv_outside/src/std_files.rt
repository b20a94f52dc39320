//! The files of a real folder.
ghost use Rattle.std.specs.Prelude.{◌≡◌, ◌<◌, ◌≤◌, ℕ, length, vec_len, false, None, IfOk};
ghost use Rattle.std.specs.Option.{option_map};
ghost use Rattle.std.specs.String.{string_bytes};
ghost use Rattle.hv_outside.specs.Files.{IsWithinLimit};

use crate::files::{FileFault, Files, Got};
use crate::schedule::raised;
use crate::std_streams::read_once;
use hv_base::{MOST_FILE_BYTES, Text};
use std::alloc::{AllocError, Global};
use std::fs::{self, OpenFile};
use std::io::{self, ErrorKind, Read};
use std::rt;

/// How many bytes one read of a file asks for.
const CHUNK: usize = 65_536;

/// The files that a runtime reaches. What they hold is not told.
#[derive(Drop)]
pub struct DirFiles<'a, R> {
    rt: &'a R,
    faults: u64,
    absences: u64,
    failed_name: Option<String>,
}

impl<'a, R: rt::Files> DirFiles<'a, R> {
    /// Reads files through `rt`.
    pub fn new(rt: &'a R) -> DirFiles<'a, R>
        ensures no_fault { (⟦<DirFiles<'a, R> as Files>⟧.state result).faults ≡ 0 }
        ensures no_name { (⟦<DirFiles<'a, R> as Files>⟧.state result).failed_name ≡ None }
        ensures no_absence { (⟦<DirFiles<'a, R> as Files>⟧.state result).absences ≡ 0 }
    {
        DirFiles {
            rt,
            faults: 0,
            absences: 0,
            failed_name: None,
        }
    }
}

impl<'a, R: rt::Files> Files for DirFiles<'a, R> {
    ghost state = { λ files. record {
      told = false;
      held = λ _. None;
      faults = files.faults;
      absences = files.absences;
      failed_name = option_map string_bytes files.failed_name;
    } };

    fn read(&mut self, alloc: Global, name: &str) -> Result<Got, FileFault> {
        // The copy comes first, so that a failed read always leaves its name.
        let copy = match String::from_str(alloc, name) {
            Ok(copy) => copy,
            Err(_) => return Err(FileFault::Memory),
        };
        match find(self.rt, alloc, name) {
            Ok(Got::Absent) => {
                self.absences = raised(self.absences);
                Ok(Got::Absent)
            }
            Err(FileFault::Failed) => {
                self.faults = raised(self.faults);
                self.failed_name = Some(copy);
                Err(FileFault::Failed)
            }
            other => other,
        }
    }
}

/// What a read of the file of that name finds.
fn find<R: rt::Files>(rt: &R, alloc: Global, name: &str) -> Result<Got, FileFault>
    ensures { IfOk result IsWithinLimit }
{
    let mut file = match fs::open(rt, name) {
        Ok(file) => file,
        Err(error) if error.kind() == ErrorKind::NotFound => return Ok(Got::Absent),
        Err(error) => return Err(fault_of(&error)),
    };
    let size = match file.metadata() {
        Ok(metadata) => metadata.len(),
        Err(error) => return Err(fault_of(&error)),
    };
    if size > MOST_FILE_BYTES {
        return Ok(Got::TooBig(size));
    }
    read_whole(&mut file, alloc)
}

/// Reads to the end, but stops once more came than a file may have: a special file, whose metadata
/// tells no length, may have no end.
pub(crate) fn read_whole<F: Read>(file: &mut F, alloc: Global) -> Result<Got, FileFault>
    ensures { IfOk result IsWithinLimit }
{
    let mut chunk = match empty_chunk(alloc) {
        Ok(chunk) => chunk,
        Err(AllocError) => return Err(FileFault::Memory),
    };
    let mut bytes = Text::new(alloc);
    'chunks: for _ in 0..u64::MAX {
        let count = match read_once(file, &mut chunk) {
            Ok(0) => return Ok(Got::Bytes(bytes)),
            Ok(count) => count,
            Err(error) => return Err(fault_of(&error)),
        };
        if bytes.extend_from_slice(&chunk[..count]).is_err() {
            return Err(FileFault::Memory);
        }
        if bytes.len() as u64 > MOST_FILE_BYTES {
            return Ok(Got::TooBig(bytes.len() as u64));
        }
    }
    Err(FileFault::Failed)
}

/// Room for one read.
fn empty_chunk(alloc: Global) -> Result<Vec<u8>, AllocError>
    ensures { IfOk result (λ chunk. vec_len chunk ≡ 65536) }
{
    vec![in alloc; 0u8; CHUNK]
}

/// The fault that an error of std means.
fn fault_of(error: &io::Error) -> FileFault {
    match error.kind() {
        ErrorKind::OutOfMemory => FileFault::Memory,
        _ => FileFault::Failed,
    }
}
