//! Files, input and output in memory, of which chosen calls fail.
ghost use Rattle.std.specs.Prelude.{◌≡◌, ◌<◌, ◌≤◌, ℕ, List as ListOf, [], true, None, Some, OnOk, OnErr, IfOk, IsTrue, length, min, is_err, if◌then◌else◌};
ghost use Rattle.std.specs.Option.{option_map};
ghost use Rattle.std.specs.String.{string_bytes};
ghost use Rattle.hv_outside.specs.Count.{RoseIf};
ghost use Rattle.hv_outside.specs.Files.{FileState, GivesHeld, IsWithinLimit, Keeps, Puts, SameHeld, is_absence, is_fault as is_read_fault};
ghost use Rattle.hv_outside.specs.Memory.{file_schedule, most_of, sink_schedule, source_schedule};
ghost use Rattle.hv_outside.specs.Schedule.{FailsIf, after_call, beginning, fails_next};
ghost use Rattle.hv_outside.specs.Sink.{Adds, is_fault as is_write_fault, taken};
ghost use Rattle.hv_outside.specs.Source.{TakesPrefix};

use crate::files::{FileFault, Files, Got};
use crate::safe::{SafeFiles, SafeSink, SafeSource};
use crate::schedule::{Most, Schedule, raised};
use crate::sink::{Sink, SinkFault};
use crate::source::{Failed, Source};
use hv_base::{List, Memory, Text};
use std::alloc::Global;

/// Files in memory, of which the reads of given numbers fail.
#[derive(Drop)]
pub struct MemFiles {
    files: SafeFiles,
    schedule: Schedule,
    faults: u64,
    failed_name: Option<String>,
}

impl MemFiles {
    /// No file. The reads whose numbers are in `fails`, counted from 1, answer `Failed`, and no
    /// other read does.
    pub fn new(alloc: Global, fails: List<u64>) -> MemFiles
        ensures holds_nothing { (name : ListOf ℕ)
            → (⟦<MemFiles as Files>⟧.state result).held name ≡ None }
        ensures no_fault { (⟦<MemFiles as Files>⟧.state result).faults ≡ 0 }
        ensures no_name { (⟦<MemFiles as Files>⟧.state result).failed_name ≡ None }
        ensures no_absence { (⟦<MemFiles as Files>⟧.state result).absences ≡ 0 }
        ensures schedule { file_schedule result ≡ beginning fails }
    {
        MemFiles {
            files: SafeFiles::new(alloc),
            schedule: Schedule::new(fails),
            faults: 0,
            failed_name: None,
        }
    }

    /// Adds a file, or replaces the one of that name. Out of memory, all files stay as they were.
    pub fn put(&mut self, name: &str, bytes: Text) -> Result<(), Memory>
        ensures put { OnOk result (Puts (⟦<MemFiles as Files>⟧.state self.old).held
            (⟦<MemFiles as Files>⟧.state self.new).held name.now bytes) }
        ensures unchanged { OnErr result (SameHeld (⟦<MemFiles as Files>⟧.state self.old).held
            (⟦<MemFiles as Files>⟧.state self.new).held) }
        ensures faults_stay { (⟦<MemFiles as Files>⟧.state self.new).faults
            ≡ (⟦<MemFiles as Files>⟧.state self.old).faults }
        ensures name_stays { (⟦<MemFiles as Files>⟧.state self.new).failed_name
            ≡ (⟦<MemFiles as Files>⟧.state self.old).failed_name }
        ensures absences_stay { (⟦<MemFiles as Files>⟧.state self.new).absences
            ≡ (⟦<MemFiles as Files>⟧.state self.old).absences }
        ensures schedule_stays { file_schedule self.new ≡ file_schedule self.old }
    {
        self.files.put(name, bytes)
    }
}

impl Files for MemFiles {
    ghost state = { λ files. record {
      told = true;
      held = (⟦<SafeFiles as Files>⟧.state files.files).held;
      faults = files.faults;
      absences = (⟦<SafeFiles as Files>⟧.state files.files).absences;
      failed_name = option_map string_bytes files.failed_name;
    } };

    fn read(&mut self, alloc: Global, name: &str) -> Result<Got, FileFault>
        // Reads fail exactly by the schedule.
        ensures failing { FailsIf (fails_next (file_schedule self.old)) result }
        ensures schedule { file_schedule self.new ≡ after_call (file_schedule self.old) }

        // As the trait has it.
        ensures within_limit { IfOk result IsWithinLimit }
        ensures as_held { IfOk result
            (GivesHeld ((⟦<MemFiles as Files>⟧.state self.old).held name.now)) }
        ensures faults { RoseIf (is_read_fault result)
            (⟦<MemFiles as Files>⟧.state self.old).faults
            (⟦<MemFiles as Files>⟧.state self.new).faults }
        ensures absences { RoseIf (is_absence result)
            (⟦<MemFiles as Files>⟧.state self.old).absences
            (⟦<MemFiles as Files>⟧.state self.new).absences }
        ensures failed_name { (⟦<MemFiles as Files>⟧.state self.new).failed_name
            ≡ (if is_read_fault result then Some name.now
            else (⟦<MemFiles as Files>⟧.state self.old).failed_name) }
        ensures keeps { Keeps (⟦<MemFiles as Files>⟧.state self.old)
            (⟦<MemFiles as Files>⟧.state self.new) }
    {
        if self.schedule.begin() {
            let copy = match String::from_str(alloc, name) {
                Ok(copy) => copy,
                Err(_) => return Err(FileFault::Memory),
            };
            self.faults = raised(self.faults);
            self.failed_name = Some(copy);
            return Err(FileFault::Failed);
        }
        self.files.read(alloc, name)
    }
}

/// Input in memory, of which the reads of given numbers fail.
#[derive(Drop)]
pub struct MemSource {
    source: SafeSource,
    schedule: Schedule,
    faults: u64,
}

impl MemSource {
    /// All of `bytes` as the input. The reads whose numbers are in `fails`, counted from 1, fail,
    /// and no other read does.
    pub fn new(bytes: Text, fails: List<u64>) -> MemSource
        ensures left { (⟦<MemSource as Source>⟧.state result).left ≡ Some bytes }
        ensures no_fault { (⟦<MemSource as Source>⟧.state result).faults ≡ 0 }
        ensures schedule { source_schedule result ≡ beginning fails }
    {
        MemSource {
            source: SafeSource::new(bytes),
            schedule: Schedule::new(fails),
            faults: 0,
        }
    }
}

impl Source for MemSource {
    ghost state = { λ source. record { left = Some source.source; faults = source.faults } };

    fn read_some(&mut self, buf: &mut [u8]) -> Result<usize, Failed>
        requires { 0 < length buf.old }

        // Reads fail exactly by the schedule.
        ensures failing { is_err result ≡ fails_next (source_schedule self.old) }
        ensures schedule { source_schedule self.new ≡ after_call (source_schedule self.old) }

        // As the trait has it.
        ensures within { IfOk result (λ n. n ≤ length buf.old) }
        ensures taken { TakesPrefix (⟦<MemSource as Source>⟧.state self.old).left
            (⟦<MemSource as Source>⟧.state self.new).left result buf.new }
        ensures faults { RoseIf (is_err result)
            (⟦<MemSource as Source>⟧.state self.old).faults
            (⟦<MemSource as Source>⟧.state self.new).faults }
        ensures faults_never_fall { (⟦<MemSource as Source>⟧.state self.old).faults
            ≤ (⟦<MemSource as Source>⟧.state self.new).faults }
    {
        if self.schedule.begin() {
            self.faults = raised(self.faults);
            return Err(Failed);
        }
        self.source.read_some(buf)
    }
}

/// Output in memory, of which the writes of given numbers fail.
#[derive(Drop)]
pub struct MemSink {
    sink: SafeSink,
    most: Most,
    schedule: Schedule,
    faults: u64,
}

impl MemSink {
    /// Nothing so far. A write takes at most `most` bytes. The writes whose numbers are in `fails`,
    /// counted from 1, answer `Failed`, and no other write does.
    pub fn new(alloc: Global, most: usize, fails: List<u64>) -> MemSink
        requires { 0 < most }
        ensures nothing { (⟦<MemSink as Sink>⟧.state result).written ≡ Some [] }
        ensures no_fault { (⟦<MemSink as Sink>⟧.state result).faults ≡ 0 }
        ensures most { most_of result ≡ most }
        ensures schedule { sink_schedule result ≡ beginning fails }
    {
        MemSink {
            sink: SafeSink::new(alloc),
            most: Most { bytes: most },
            schedule: Schedule::new(fails),
            faults: 0,
        }
    }

    /// The bytes that it got.
    pub fn bytes(&self) -> &[u8]
        ensures { (⟦<MemSink as Sink>⟧.state self.now).written ≡ Some result.now }
    {
        self.sink.bytes()
    }
}

impl Sink for MemSink {
    ghost state = { λ sink. record { written = Some sink.sink; faults = sink.faults } };

    fn write_some(&mut self, piece: &[u8]) -> Result<usize, SinkFault>
        requires { 0 < length piece.now }

        // Writes fail exactly by the schedule, and take as many bytes as they may.
        ensures failing { is_write_fault result ≡ fails_next (sink_schedule self.old) }
        ensures schedule { sink_schedule self.new ≡ after_call (sink_schedule self.old) }
        ensures most { IfOk result (λ n. n ≡ min (length piece.now) (most_of self.old)) }
        ensures most_stays { most_of self.new ≡ most_of self.old }

        // As the trait has it.
        ensures some_taken { IfOk result (λ n. (0 < n) × (n ≤ length piece.now)) }
        ensures added { Adds (⟦<MemSink as Sink>⟧.state self.old).written
            (⟦<MemSink as Sink>⟧.state self.new).written (taken result piece.now) }
        ensures faults { RoseIf (is_write_fault result)
            (⟦<MemSink as Sink>⟧.state self.old).faults
            (⟦<MemSink as Sink>⟧.state self.new).faults }
        ensures faults_never_fall { (⟦<MemSink as Sink>⟧.state self.old).faults
            ≤ (⟦<MemSink as Sink>⟧.state self.new).faults }
    {
        if self.schedule.begin() {
            self.faults = raised(self.faults);
            return Err(SinkFault::Failed);
        }
        let count = piece.len().min(self.most.bytes);
        match self.sink.append(&piece[..count]) {
            Ok(()) => Ok(count),
            Err(Memory) => Err(SinkFault::Memory),
        }
    }
}
