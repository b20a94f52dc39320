//! Tokens of initialisers (6.7.8).
ghost use Rattle.std.specs.Prelude.{◌≡◌, ◌∷◌, suc, IfOk};
ghost use Rattle.hv_cparse.specs.working.Steps as steps;
ghost use Rattle.hv_cparse.specs.working.Steps.{IsMoved};

use crate::class::Class;
use crate::control::Control;
use crate::frame::{At, Frame, Mark, Mode};
use hv_base::{Memory, Punct};

impl Control {
    /// A sign after an initialiser in braces.
    pub(crate) fn after_item(&mut self, sign: Punct) -> Result<Option<Mark>, Memory>
        ensures { IfOk result (λ mark. IsMoved (steps.after_item self.old.frames sign) mark
            self.new.frames self.new.at) }
    {
        let depth = self.frames.depth();
        let Some(Frame::Braces(_)) = self.frames.pop() else {
            return Ok(None);
        };
        match sign {
            Punct::Comma => {
                self.frames.push(Frame::Braces(true))?;
                Ok(self.loosely(At::BracesStart, depth))
            }
            Punct::RightBrace => Ok(self.loosely(At::AfterInitializer, depth)),
            _ => Ok(None),
        }
    }

    /// A sign after the initialiser of a declarator (6.7).
    pub(crate) fn after_value(&mut self, sign: Punct) -> Result<Option<Mark>, Memory>
        ensures { IfOk result (λ mark. IsMoved (steps.after_value self.old.frames sign) mark
            self.new.frames self.new.at) }
    {
        let depth = self.frames.depth();
        let Some(Frame::Declaring(_)) = self.frames.pop() else {
            return Ok(None);
        };
        match sign {
            Punct::Comma => {
                self.frames.push(Frame::Declaring(true))?;
                Ok(self.loosely(At::Pointing(Mode::Named, 0), depth))
            }
            Punct::Semicolon => Ok(self.declared()),
            _ => Ok(None),
        }
    }

    /// A token before an initialiser.
    pub(crate) fn take_initializer(&mut self, class: Class) -> Result<Option<Mark>, Memory>
        ensures { IfOk result (λ mark. IsMoved (steps.step_initializer self.old.frames class) mark
            self.new.frames self.new.at) }
    {
        let Class::Sign(Punct::LeftBrace) = class else {
            return self.operand(class);
        };
        self.frames.push(Frame::Braces(false))?;
        let depth = self.frames.depth();
        Ok(self.loosely(At::BracesStart, depth))
    }

    /// The `}` after a last comma, with at least one initialiser.
    fn end_braces(&mut self) -> Option<Mark>
        ensures { IsMoved (steps.braces_ended self.old.frames) result self.new.frames
            self.new.at }
    {
        let depth = self.frames.depth();
        match self.frames.pop() {
            Some(Frame::Braces(true)) => self.loosely(At::AfterInitializer, depth),
            _ => None,
        }
    }

    /// A token before a designation or an initialiser in braces, or the `}`.
    pub(crate) fn take_braces(&mut self, class: Class) -> Result<Option<Mark>, Memory>
        ensures { IfOk result (λ mark. IsMoved (steps.step_braces self.old.frames class) mark
            self.new.frames self.new.at) }
    {
        match class {
            Class::Sign(Punct::LeftBracket) => {
                self.frames.push(Frame::Index)?;
                let depth = self.frames.depth();
                Ok(self.loosely(At::Want, depth))
            }
            Class::Sign(Punct::Dot) => {
                let depth = self.frames.depth();
                Ok(self.loosely(At::AfterDot, depth))
            }
            Class::Sign(Punct::RightBrace) => Ok(self.end_braces()),
            _ => {
                self.frames.push(Frame::Designated)?;
                self.take_initializer(class)
            }
        }
    }

    /// The member's name after the `.` of a designator.
    pub(crate) fn take_dot(&mut self, class: Class) -> Option<Mark>
        ensures { IsMoved (steps.step_dot self.old.frames class) result self.new.frames
            self.new.at }
    {
        let Class::Name = class else {
            return None;
        };
        let depth = self.frames.depth();
        self.loosely(At::AfterDesignator, depth)
    }

    /// The `=` after a designator.
    pub(crate) fn take_designator(&mut self, class: Class) -> Result<Option<Mark>, Memory>
        ensures { IfOk result (λ mark. IsMoved (steps.step_designator self.old.frames class) mark
            self.new.frames self.new.at) }
    {
        let Class::Sign(Punct::Equal) = class else {
            return Ok(None);
        };
        self.frames.push(Frame::Designated)?;
        let depth = self.frames.depth();
        Ok(self.loosely(At::InitializerStart, depth))
    }

    /// A sign after an initialiser, by what it stands in.
    fn initialized(&mut self, sign: Punct) -> Result<Option<Mark>, Memory>
        ensures { IfOk result (λ mark. IsMoved (steps.initialized_at self.old.frames sign) mark
            self.new.frames self.new.at) }
    {
        match self.frames.pop() {
            Some(Frame::Designated) => self.after_item(sign),
            Some(Frame::Initialized) => self.after_value(sign),
            _ => Ok(None),
        }
    }

    /// A token after an initialiser in braces.
    pub(crate) fn take_initialized(&mut self, class: Class) -> Result<Option<Mark>, Memory>
        ensures { IfOk result (λ mark. IsMoved (steps.step_initialized self.old.frames class) mark
            self.new.frames self.new.at) }
    {
        match class {
            Class::Sign(sign) => self.initialized(sign),
            _ => Ok(None),
        }
    }
}
