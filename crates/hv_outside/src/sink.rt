//! What bytes are written to.
ghost use Rattle.std.specs.Prelude.{◌<◌, ◌≤◌, length, IfOk, OnOk, OnErr};
ghost use Rattle.hv_outside.specs.Count.{RoseIf};
ghost use Rattle.hv_outside.specs.Sink.{Adds, AddsPrefix, SinkState, is_fault, taken};

/// Why a write took nothing.
#[derive(Clone, Copy, Debug, PartialEq, Eq)]
pub enum SinkFault {
    /// The outside failed.
    Failed,
    /// There was no memory for what the write needs.
    Memory,
}

/// What bytes are written to.
pub trait Sink {
    /// The bytes so far where they are told, and how many writes failed.
    ghost state: { Self → SinkState };

    /// Writes a prefix of `piece` and answers how many bytes it has, at least one.
    fn write_some(&mut self, piece: &[u8]) -> Result<usize, SinkFault>
        requires { 0 < length piece.now }
        ensures some_taken { IfOk result (λ n. (0 < n) × (n ≤ length piece.now)) }
        ensures added { Adds (state self.old).written (state self.new).written
            (taken result piece.now) }

        // A failed write raises the count, and no other answer changes it.
        ensures faults { RoseIf (is_fault result) (state self.old).faults (state self.new).faults }
        ensures faults_never_fall { (state self.old).faults ≤ (state self.new).faults };
}

/// Writes all of `bytes`, in as many pieces as the sink asks for. It stops at the first fault,
/// which leaves a prefix of them written.
pub fn write_all<S: Sink>(sink: &mut S, bytes: &[u8]) -> Result<(), SinkFault>
    ensures whole { OnOk result
        (Adds (S.state sink.old).written (S.state sink.new).written bytes.now) }
    ensures prefix { OnErr result
        (AddsPrefix (S.state sink.old).written (S.state sink.new).written bytes.now) }
    ensures faults { RoseIf (is_fault result) (S.state sink.old).faults (S.state sink.new).faults }
    ensures faults_never_fall { (S.state sink.old).faults ≤ (S.state sink.new).faults }
{
    let mut rest = bytes;
    while !rest.is_empty() {
        let count = sink.write_some(rest)?;
        rest = &rest[count..];
    }
    Ok(())
}
