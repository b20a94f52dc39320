//! Reading the files of a command.
ghost use Rattle.std.specs.Prelude.{◌≡◌, Some, None, IfOk, option_map};
ghost use Rattle.std.specs.String.{string_bytes};
ghost use Rattle.hv_outside.specs.Files.{Keeps};
ghost use Rattle.hv_words.specs.Commands.{Command, sources_meant};
ghost use Rattle.hv_cli.specs.declared.read.Role.TheVariants.{Model};
ghost use Rattle.hv_cli.specs.Files.{Gathers, IsReadBefore, IsUntouched, name_of, reads, total_of};
ghost use Rattle.hv_cli.specs.working.Found.{AreFound, HasMainFile, IsFound, SaysFault};

use crate::answer::Answer;
use hv_base::{Bundle, Memory, Text};
use hv_gather::{GatherFault, gather};
use hv_outside::{FileFault, Files, Got};
use hv_words::Sources;
use std::alloc::Global;

/// What a file that is read alone is for.
#[derive(Clone, Copy, Debug, PartialEq, Eq)]
pub enum Role {
    Model,
    Main,
}

/// What the reading of a file gave.
#[derive(Debug, Drop)]
pub enum Reading {
    Bytes(Text),
    /// The file can't be used: this answer is due.
    Refused(Answer),
}

/// What the gathering of sources gave.
#[derive(Drop)]
pub enum Gathering {
    Bundle(Bundle),
    /// The sources can't be used: this answer is due.
    Refused(Answer),
}

/// Reads the model file of this name whole. Where a command has none, it counts as an empty one.
pub fn read_model_file<F: Files>(
    alloc: Global,
    files: &mut F,
    name: &Option<String>,
) -> Result<Reading, Memory>
    ensures found { (command : Command)
        → option_map string_bytes name.now ≡ name_of command Model
        → IfOk result (IsFound (reads (F.state files.old) (F.state files.new)) command Model) }
    ensures keeps { Keeps (F.state files.old) (F.state files.new) }
    ensures untouched { option_map string_bytes name.now ≡ None
        → IsUntouched (reads (F.state files.old) (F.state files.new)) }
{
    match name {
        Some(name) => read_file(alloc, files, name.as_str(), Role::Model),
        None => Ok(Reading::Bytes(Text::new(alloc))),
    }
}

/// Reads the file of this name whole.
pub fn read_file<F: Files>(
    alloc: Global,
    files: &mut F,
    name: &str,
    role: Role,
) -> Result<Reading, Memory>
    ensures found { (command : Command) → Some name.now ≡ name_of command role
        → IsReadBefore (reads (F.state files.old) (F.state files.new)) command role
        → IfOk result (IsFound (reads (F.state files.old) (F.state files.new)) command role) }
    ensures keeps { Keeps (F.state files.old) (F.state files.new) }
{
    match files.read(alloc, name) {
        Ok(Got::Bytes(bytes)) => Ok(Reading::Bytes(bytes)),
        Ok(Got::Absent) => Ok(Reading::Refused(Answer::NoFile {
            name: Text::from_slice(alloc, name.as_bytes())?,
        })),
        Ok(Got::TooBig(size)) => Ok(Reading::Refused(Answer::TooBig {
            name: Text::from_slice(alloc, name.as_bytes())?,
            size,
            total: source_total(role, size),
        })),
        Err(FileFault::Failed) => Ok(Reading::Refused(Answer::CannotRead {
            name: Text::from_slice(alloc, name.as_bytes())?,
        })),
        Err(FileFault::Memory) => Err(Memory),
    }
}

/// The total of the sizes of the sources: the model file counts for nothing.
fn source_total(role: Role, size: u64) -> u64
    ensures { result ≡ total_of role size }
{
    match role {
        Role::Model => 0,
        Role::Main => size,
    }
}

/// Reads the main file of these sources with all headers that it may include.
pub fn read_sources<F: Files>(
    alloc: Global,
    files: &mut F,
    sources: &Sources,
) -> Result<Gathering, Memory>
    ensures found { (command : Command)
        → Gathers (reads (F.state files.old) (F.state files.new)) command
        (sources_meant sources.now)
        → IfOk result (AreFound (reads (F.state files.old) (F.state files.new)) command
        (sources_meant sources.now)) }
    ensures main { IfOk result HasMainFile }
    ensures keeps { Keeps (F.state files.old) (F.state files.new) }
{
    let main = sources.file.as_str();
    match gather(alloc, files, main, sources.dirs.as_slice()) {
        Ok(bundle) => Ok(Gathering::Bundle(bundle)),
        Err(fault) => Ok(Gathering::Refused(answer_for(alloc, fault, main)?)),
    }
}

/// The answer for a fault of gathering, where the main file has this name.
fn answer_for(alloc: Global, fault: GatherFault, main: &str) -> Result<Answer, Memory>
    ensures { IfOk result (SaysFault main.now fault) }
{
    match fault {
        GatherFault::Read { name } => Ok(Answer::CannotRead { name }),
        GatherFault::MainAbsent => Ok(Answer::NoFile {
            name: Text::from_slice(alloc, main.as_bytes())?,
        }),
        GatherFault::TooBig {
            name,
            length,
            total,
        } => Ok(Answer::TooBig {
            name,
            size: length,
            total,
        }),
        GatherFault::Memory => Err(Memory),
    }
}
