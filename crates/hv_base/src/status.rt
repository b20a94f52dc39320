//! How commands end.
ghost use Rattle.std.specs.Prelude.{◌≡◌, ◌<◌};
ghost use Rattle.hv_base.specs.Status as statuses;

/// How a command ended. The program ends with its code.
// SAME: statuses
#[derive(Clone, Copy, Debug, PartialEq, Eq)]
pub enum Status {
    /// What was asked for is done.
    Done,
    /// The source is refused: a valid configuration has no variant, or a program is none.
    Refused,
    /// The words are no command, or the given configuration is no valid one.
    BadWords,
    /// A file or the input couldn't be read, the main or model file is absent, or files are too
    /// big.
    Unread,
    /// A write failed.
    Unwritten,
    /// Memory ran out.
    Memory,
    /// A place or a start has more faces than the limit allows.
    TooMany,
    /// The model file is refused.
    BadModel,
    /// The run met undefined behaviour.
    Undefined,
    /// The run is out of steps.
    OutOfSteps,
}

impl Status {
    /// The exit status of the program, from 0 to 9.
    pub fn code(&self) -> u8
        ensures { result ≡ statuses.code_of self.now }
    {
        *self as u8
    }
}
