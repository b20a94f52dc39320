//! What a bundle knows of a file.
use crate::Text;

/// What a bundle knows of a name.
#[derive(Debug, Drop)]
pub enum Held {
    /// The file is there and has these bytes.
    Bytes(Text),
    /// There is no file of that name.
    Absent,
}
