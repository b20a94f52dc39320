//! Texts that are made of pieces.
ghost use Rattle.std.specs.Prelude.{◌≡◌, IfOk};
ghost use Rattle.std.specs.List.{flat_map};

use hv_base::{Memory, Text};
use std::alloc::Global;

/// The pieces, one after the other.
pub(crate) fn joined(alloc: Global, pieces: &[&[u8]]) -> Result<Text, Memory>
    ensures { IfOk result (λ text. text ≡ flat_map (λ piece. piece.now) pieces.now) }
{
    let mut text = Text::new(alloc);
    for piece in pieces {
        text.extend_from_slice(piece)?;
    }
    Ok(text)
}
