//! Where something stands in a source: places, spans and starts of tokens.
ghost use Rattle.std.specs.Prelude.{◌≡◌, ◌↔◌, IsTrue, IfOk};
ghost use Rattle.std.specs.Bool.{Decides};

use crate::{List, Memory};
use std::alloc::Global;

/// A place in a source: a byte of a file, and how the file was reached.
#[derive(Debug, Drop)]
pub struct Place {
    /// The offsets of the `#` of the `#include` directives that led to the file, outermost first.
    pub stack: List<u64>,
    /// The number of the file.
    pub file: u32,
    /// The offset of the byte in the file as it was read, counted from 0.
    pub offset: u64,
}

impl Place {
    /// An equal place.
    pub fn copy(&self, alloc: Global) -> Result<Place, Memory>
        ensures { IfOk result (λ copy. copy ≡ self.now) }
    {
        Ok(Place {
            stack: self.stack.copy(alloc)?,
            file: self.file,
            offset: self.offset,
        })
    }
}

impl PartialEq for Place {
    ghost use Rattle.std.specs.Prelude.{nat_eq, ◌&&◌};
    ghost use Rattle.std.specs.Cmp.Lexicographic.{pointwise};
    ghost use Rattle.std.proofs.Common.{rules};
    ghost use Rattle.std.specs.Cmp.Rules.{comparing};

    ghost eq = { λ a b. pointwise nat_eq a.stack b.stack
        && (nat_eq a.file b.file && nat_eq a.offset b.offset) };

    ghost laws = { Prim.search (comparing, rules) };

    /// Whether the two are one place.
    fn eq(&self, other: &Place) -> bool
        ensures exact { Decides result (self.now ≡ other.now) }
    {
        self.stack == other.stack && self.file == other.file && self.offset == other.offset
    }
}

impl Eq for Place {
    ghost use Rattle.std.proofs.Common.{rules};
    ghost use Rattle.std.specs.Cmp.Rules.{comparing};

    ghost laws = { Prim.search (comparing, rules) };
}

/// The bytes of a file that a token is made of, and the deleted ones between them.
#[derive(Clone, Copy, Debug, PartialEq, Eq)]
pub struct Span {
    /// The number of the file.
    pub file: u32,
    /// The offset of the first byte in the file as it was read, counted from 0.
    pub start: u64,
    /// The offset after the last byte.
    pub end: u64,
}

/// Where a token of a translation unit comes from.
#[derive(Debug, Drop)]
pub struct Start {
    /// The place of the first token of the episode that gave it.
    pub place: Place,
    /// The number of the face of that episode.
    pub face: u32,
    /// The number of the token among those that the face gave, counted from 0.
    pub index: u64,
}

impl Start {
    /// An equal start.
    pub fn copy(&self, alloc: Global) -> Result<Start, Memory>
        ensures { IfOk result (λ copy. copy ≡ self.now) }
    {
        Ok(Start {
            place: self.place.copy(alloc)?,
            face: self.face,
            index: self.index,
        })
    }
}

impl PartialEq for Start {
    ghost use Rattle.std.specs.Prelude.{nat_eq, ◌&&◌};
    ghost use Rattle.std.specs.Cmp.Lexicographic.{pointwise};
    ghost use Rattle.std.proofs.Common.{rules};
    ghost use Rattle.std.specs.Cmp.Rules.{comparing};

    ghost eq = { λ a b. pointwise nat_eq a.place.stack b.place.stack
        && (nat_eq a.place.file b.place.file && (nat_eq a.place.offset b.place.offset
        && (nat_eq a.face b.face && nat_eq a.index b.index))) };

    ghost laws = { Prim.search (comparing, rules) };

    /// Whether the two are one start.
    fn eq(&self, other: &Start) -> bool
        ensures exact { Decides result (self.now ≡ other.now) }
    {
        self.place == other.place && self.face == other.face && self.index == other.index
    }
}

impl Eq for Start {
    ghost use Rattle.std.proofs.Common.{rules};
    ghost use Rattle.std.specs.Cmp.Rules.{comparing};

    ghost laws = { Prim.search (comparing, rules) };
}
