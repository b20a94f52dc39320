//! What bytes are read from.
ghost use Rattle.std.specs.Prelude.{◌<◌, ◌≤◌, length, IfOk, is_err};
ghost use Rattle.hv_outside.specs.Count.{RoseIf};
ghost use Rattle.hv_outside.specs.Source.{SourceState, TakesPrefix};

/// A read of input failed.
#[derive(Clone, Copy, Debug, PartialEq, Eq)]
pub struct Failed;

/// Bytes that are read from the first to the last.
pub trait Source {
    /// The bytes that are left where they are told, and how many reads failed.
    ghost state: { Self → SourceState };

    /// Writes the next bytes to the beginning of `buf` and answers how many: 0 at the end of the
    /// input.
    fn read_some(&mut self, buf: &mut [u8]) -> Result<usize, Failed>
        requires { 0 < length buf.old }
        ensures within { IfOk result (λ n. n ≤ length buf.old) }
        ensures taken { TakesPrefix (state self.old).left (state self.new).left result buf.new }

        // A failed read raises the count, and no other answer changes it.
        ensures faults { RoseIf (is_err result) (state self.old).faults (state self.new).faults }
        ensures faults_never_fall { (state self.old).faults ≤ (state self.new).faults };
}
