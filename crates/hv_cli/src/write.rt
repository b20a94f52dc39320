//! Writing an answer.
ghost use Rattle.std.specs.Prelude.{◌≡◌, ◌≤◌, ◌⊎◌, [], IfOk};
ghost use Rattle.hv_base.specs.Status.{code_of};
ghost use Rattle.hv_outside.specs.Count.{Rose};
ghost use Rattle.hv_outside.specs.Sink.{Adds, AddsPrefix};
ghost use Rattle.hv_cli.specs.Answer.{cannot_write as cannot_write_message, want_of_memory};
ghost use Rattle.hv_cli.specs.Given.{writes};
ghost use Rattle.hv_cli.specs.working.Given.{IsGiven};

use crate::Answer;
use hv_base::{Memory, Status};
use hv_outside::{Sink, SinkFault, write_all};
use std::alloc::Global;

/// Writes the bytes and the message of an answer, and gives its status, or that of the fault that
/// stands in its place.
pub fn write_answer<O: Sink, E: Sink>(
    alloc: Global,
    answer: &Answer,
    out: &mut O,
    err: &mut E,
) -> Status
    ensures given { IsGiven
        (writes (O.state out.old) (O.state out.new) (E.state err.old) (E.state err.new))
        (code_of result) answer.now }
    ensures out_faults { (O.state out.old).faults ≤ (O.state out.new).faults }
    ensures err_faults { (E.state err.old).faults ≤ (E.state err.new).faults }
{
    let Ok(message) = answer.message(alloc) else {
        return report_out_of_memory(err);
    };
    match write_all(out, answer.output()) {
        Ok(()) => {}
        Err(SinkFault::Failed) => return report_failed_write(err),
        Err(SinkFault::Memory) => return report_out_of_memory(err),
    }
    match write_all(err, message.as_slice()) {
        Ok(()) => answer.status(),
        Err(SinkFault::Failed) => Status::Unwritten,
        Err(SinkFault::Memory) => Status::Memory,
    }
}

/// Says that a write to the output failed. Where that can't be written either, nothing follows.
fn report_failed_write<E: Sink>(err: &mut E) -> Status
    ensures cases { (result ≡ Status.Unwritten
        × (Adds (E.state err.old).written (E.state err.new).written cannot_write_message
        ⊎ (Rose (E.state err.old).faults (E.state err.new).faults
        × AddsPrefix (E.state err.old).written (E.state err.new).written cannot_write_message)))
        ⊎ (result ≡ Status.Memory
        × AddsPrefix (E.state err.old).written (E.state err.new).written cannot_write_message) }
    ensures err_faults { (E.state err.old).faults ≤ (E.state err.new).faults }
{
    match write_all(err, b"hercules: cannot write\n") {
        Ok(()) | Err(SinkFault::Failed) => Status::Unwritten,
        Err(SinkFault::Memory) => Status::Memory,
    }
}

/// Says that memory ran out, as far as that can be written.
pub fn report_out_of_memory<E: Sink>(err: &mut E) -> Status
    ensures status { result ≡ Status.Memory }
    ensures prefix { AddsPrefix (E.state err.old).written (E.state err.new).written want_of_memory }
    ensures err_faults { (E.state err.old).faults ≤ (E.state err.new).faults }
{
    let _ = write_all(err, b"hercules: want of memory\n");
    Status::Memory
}
