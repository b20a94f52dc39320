//! What stands open, and how deep.
ghost use Rattle.std.specs.Prelude.{◌≡◌, [], ◌∷◌, reverse, true, false, IfNone, IfSome, IfOk, OnOk};
ghost use Rattle.hv_cparse.specs.working.Tables as tables;

use crate::frame::{Frame, Role, more};
use hv_base::{Memory, Stack};
use std::alloc::Global;
use std::marker::Model;

/// The frames that stand open. Contracts see them as a list, innermost first.
#[derive(Debug, Drop)]
pub struct Frames {
    frames: Stack<Frame>,
    /// How many brackets and prefixes are open.
    depth: usize,
    /// How many type names are open.
    types: usize,
}

impl Model for Frames {
    ghost use Rattle.std.specs.Prelude.{◌≡◌, List};
    ghost use Rattle.hv_cparse.specs.declared.frame.Frame.{Frame};
    ghost use Rattle.hv_cparse.specs.working.Tables.{depth as depth_of, types as types_of};

    ghost Value = { List Frame };

    ghost view = { λ s. s.frames };

    ghost invariant = { λ s. (s.depth ≡ depth_of s.frames)
        × (s.types ≡ types_of s.frames) };
}

impl Frames {
    /// Nothing stands open.
    pub(crate) fn new(alloc: Global) -> Frames
        ensures { result ≡ [] }
    {
        Frames {
            frames: Stack::new(alloc),
            depth: 0,
            types: 0,
        }
    }

    /// All frames, of which the outermost comes first.
    pub fn as_slice(&self) -> &[Frame]
        ensures { result.now ≡ reverse self.now }
    {
        self.frames.as_slice()
    }

    /// How many brackets and prefixes are open.
    pub(crate) fn depth(&self) -> usize
        ensures { result ≡ tables.depth self.now }
    {
        self.depth
    }

    /// Where the tokens of specifiers and declarators stand.
    pub(crate) fn role(&self) -> Role
        ensures { result ≡ tables.role_of (tables.types self.now) }
    {
        if self.types == 0 {
            Role::Outside
        } else {
            Role::Inside
        }
    }

    /// The innermost frame.
    pub(crate) fn top(&self) -> Option<Frame>
        ensures { result ≡ tables.first self.now }
    {
        match self.frames.top() {
            Some(frame) => Some(*frame),
            None => None,
        }
    }

    /// The level that is wanted in the innermost frame; 0 where nothing stands open.
    pub(crate) fn hole(&self) -> u16
        ensures { result ≡ tables.hole_of self.now }
    {
        match self.top() {
            Some(frame) => frame.hole(),
            None => 0,
        }
    }

    /// Opens a frame.
    pub(crate) fn push(&mut self, frame: Frame) -> Result<(), Memory>
        ensures { OnOk result (self.new ≡ frame ∷ self.old) }
    {
        let depth = frame.weigh(self.depth)?;
        let types = more(self.types, usize::from(frame.is_type()))?;
        self.frames.push(frame)?;
        self.depth = depth;
        self.types = types;
        Ok(())
    }

    /// Takes the innermost frame off.
    #[tactic(auto, using(crate::proofs::Depths::popped, crate::proofs::Depths::popped_types))]
    pub(crate) fn pop(&mut self) -> Option<Frame>
        ensures none { IfNone result ((self.old ≡ []) × (self.new ≡ [])) }
        ensures some { IfSome result (λ top. self.old ≡ top ∷ self.new) }
    {
        let frame = self.frames.pop()?;
        self.depth = frame.around(self.depth);
        self.types = frame.types_around(self.types);
        Some(frame)
    }

    /// Ends what ends before a token whose left operand is of the level, after an operand of the
    /// level `of`, and answers the level that it came to.
    #[tactic(auto, using(crate::proofs::Reducing::reducing))]
    pub(crate) fn reduce(&mut self, level: u8, of: u8) -> u8
        ensures { tables.reduced self.new result ≡ tables.reduce level self.old of }
    {
        let mut reached = of;
        while let Some(frame) = self.pop_ending(level) {
            reached = frame.made();
        }
        reached
    }

    /// Takes the innermost frame off, if it ends before such a token.
    fn pop_ending(&mut self, level: u8) -> Option<Frame>
        ensures same { IfNone result (self.new ≡ self.old) }
        ensures none { IfNone result (tables.ends_first level self.old ≡ false) }
        ensures some { IfSome result (λ top. self.old ≡ top ∷ self.new) }
        ensures ends { IfSome result (λ top. tables.ends level top ≡ true) }
    {
        let frame = self.top()?;
        if !frame.ends(level) {
            return None;
        }
        self.pop()
    }

    /// An equal stack of frames.
    #[tactic(auto, using(crate::proofs::Depths::copied, crate::proofs::Depths::copied_all))]
    pub fn copy(&self, alloc: Global) -> Result<Frames, Memory>
        ensures { IfOk result (λ copy. copy ≡ self.now) }
    {
        let mut copy = Frames::new(alloc);
        let frames = self.frames.as_slice();
        for frame in frames {
            copy.push(*frame)?;
        }
        Ok(copy)
    }
}
