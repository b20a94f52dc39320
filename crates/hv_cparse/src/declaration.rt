//! Tokens of declarations (6.7) and function definitions (6.9.1), outside their specifiers,
//! declarators and initialisers.
ghost use Rattle.std.specs.Prelude.{◌≡◌, ◌∷◌, suc, IfOk};
ghost use Rattle.hv_cparse.specs.working.Steps as steps;
ghost use Rattle.hv_cparse.specs.working.Steps.{IsMoved};

use crate::class::Class;
use crate::control::Control;
use crate::frame::{At, Frame, Mark, Mode};
use crate::part::{Clause, Fixed, Setting};
use hv_base::{Memory, Punct};

impl Control {
    /// The `;` of a declaration, whose element nothing stands around.
    pub(crate) fn declared(&mut self) -> Option<Mark>
        ensures { IsMoved (steps.declared self.old.frames) result self.new.frames self.new.at }
    {
        let Some(Frame::Declares(setting)) = self.frames.pop() else {
            return None;
        };
        if self.frames.top().is_some() {
            return None;
        }
        match setting {
            Setting::File | Setting::Block => self.loosely(At::Awaiting, 0),
            Setting::For => self.loosely(At::Before(Clause::ForSecond), 0),
        }
    }

    /// `,`, `=` or `;` after a declarator of a declaration.
    pub(crate) fn after_init(&mut self, several: bool, sign: Punct) -> Result<Option<Mark>, Memory>
        ensures { IfOk result (λ mark. IsMoved (steps.after_init several self.old.frames sign) mark
            self.new.frames self.new.at) }
    {
        let depth = self.frames.depth();
        match sign {
            Punct::Comma => {
                self.frames.push(Frame::Declaring(true))?;
                Ok(self.loosely(At::Pointing(Mode::Named, 0), depth))
            }
            Punct::Equal => {
                self.frames.push(Frame::Declaring(several))?;
                self.frames.push(Frame::Initialized)?;
                Ok(self.loosely(At::InitializerStart, depth))
            }
            Punct::Semicolon => Ok(self.declared()),
            _ => Ok(None),
        }
    }

    /// `{` after the declarator of a function definition (6.9.1).
    pub(crate) fn open_body(&mut self) -> Result<Option<Mark>, Memory>
        ensures { IfOk result (λ mark. IsMoved (steps.body_at self.old.frames) mark
            self.new.frames self.new.at) }
    {
        let Some(Frame::Declaring(false)) = self.frames.pop() else {
            return Ok(None);
        };
        let Some(Frame::Declares(Setting::File)) = self.frames.pop() else {
            return Ok(None);
        };
        if self.frames.top().is_some() {
            return Ok(None);
        }
        self.frames.push(Frame::Terminal(Fixed::RightBrace))?;
        self.frames.push(Frame::Terminal(Fixed::Hole))?;
        Ok(self.loosely(At::Awaiting, 0))
    }

    /// A token after the specifiers of a declaration that is none: `;`, or it begins a declarator.
    pub(crate) fn end_declaration_words(&mut self, class: Class) -> Result<Option<Mark>, Memory>
        ensures { IfOk result (λ mark. IsMoved (steps.declaration_words self.old.frames class) mark
            self.new.frames self.new.at) }
    {
        if let Class::Sign(Punct::Semicolon) = class {
            return Ok(self.declared());
        }
        self.frames.push(Frame::Declaring(false))?;
        self.take_pointing(Mode::Named, 0, class)
    }
}
