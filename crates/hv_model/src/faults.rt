//! What may be wrong with a model file or a configuration's text.
ghost use Rattle.std.specs.Prelude.{◌≡◌};
ghost use Rattle.hv_model.specs.ModelKind.{kind_name, kind_number};

use thiserror::Error;

// SAME: faults of a model file
/// What is wrong with a model file.
#[derive(Clone, Copy, Debug, PartialEq, Eq)]
pub enum ModelKind {
    /// The line is neither empty, a comment, an option nor a rule.
    BadLine,
    /// An option line names an option of an earlier line.
    Repeated,
    /// A rule names what is no option of an earlier line.
    Unknown,
    /// An option line would make option 257.
    TooMany,
    /// No line has a fault, and no configuration meets all rules.
    NoConfiguration,
}

impl ModelKind {
    /// The number in the table of faults, from 1 to 5.
    pub fn number(&self) -> u8
        ensures { result ≡ kind_number self.now }
    {
        *self as u8 + 1
    }

    /// The name in the table of faults.
    pub fn name(&self) -> &'static str
        ensures { result.now ≡ kind_name self.now }
    {
        match self {
            ModelKind::BadLine => "BadLine",
            ModelKind::Repeated => "Repeated",
            ModelKind::Unknown => "Unknown",
            ModelKind::TooMany => "TooMany",
            ModelKind::NoConfiguration => "NoConfiguration",
        }
    }
}

/// The first fault of a model file.
#[derive(Clone, Copy, Debug, PartialEq, Eq)]
pub struct ModelFault {
    /// The number of the line, counted from 1, or 0 where no line is at fault.
    pub line: u64,
    pub kind: ModelKind,
}

/// Why there is no model.
#[derive(Clone, Copy, Debug, PartialEq, Eq, Error)]
pub enum ModelRefusal {
    /// The file has a fault; this is the first one.
    #[error("line {}: {}", .0.line, .0.kind.name())]
    Bad(ModelFault),
    /// There was not enough memory to read it.
    #[error("out of memory")]
    Memory,
}

/// Why a text is no configuration. Pieces are counted from 0.
#[derive(Clone, Copy, Debug, PartialEq, Eq, Error)]
pub enum ConfigFault {
    /// The piece names no option.
    #[error("piece {piece} names no option")]
    Unknown { piece: u64 },
    /// The piece stood before.
    #[error("piece {piece} stood before")]
    Repeated { piece: u64 },
    /// There was not enough memory to read it.
    #[error("out of memory")]
    Memory,
}
