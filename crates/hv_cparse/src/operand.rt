//! Tokens where an operand is wanted.
ghost use Rattle.std.specs.Prelude.{◌≡◌, ◌∷◌, IfOk, Some};
ghost use Rattle.hv_cparse.specs.declared.frame.Frame.TheVariants as frames;
ghost use Rattle.hv_cparse.specs.working.Steps as steps;
ghost use Rattle.hv_cparse.specs.working.Steps.{IsMoved};
ghost use Rattle.hv_cparse.specs.working.Tables as tables;

use crate::class::{Class, specifier_of};
use crate::control::Control;
use crate::frame::{At, Frame, Mark, Owner};
use hv_base::{Keyword, Memory, Punct};

impl Control {
    /// A primary expression of one token (6.5.1).
    pub(crate) fn leaf(&mut self) -> Option<Mark>
        ensures { IsMoved (steps.leaf self.old.frames) result self.new.frames self.new.at }
    {
        let depth = self.frames.depth();
        self.quiet(At::Have(15), depth)
    }

    /// A token that begins the frame, and counts.
    fn open(&mut self, frame: Frame) -> Result<Option<Mark>, Memory>
        ensures { IfOk result (λ mark. IsMoved (steps.pushed self.old.frames frame) mark
            self.new.frames self.new.at) }
    {
        self.frames.push(frame)?;
        let depth = self.frames.depth();
        Ok(self.loud(At::Want, depth))
    }

    /// `(`: after `sizeof` the next token says whether it counts.
    fn parenthesis(&mut self) -> Result<Option<Mark>, Memory>
        ensures { IfOk result (λ mark. IsMoved (steps.paren_at self.old.frames) mark
            self.new.frames self.new.at) }
    {
        match self.frames.top() {
            Some(Frame::Sizeof) => {
                self.frames.push(Frame::AfterSizeof)?;
                let depth = self.frames.depth();
                Ok(self.quiet(At::Want, depth))
            }
            _ => self.open(Frame::Parenthesis),
        }
    }

    /// `)` directly after the `(` of a call (6.5.2.2).
    fn close_call(&mut self) -> Option<Mark>
        ensures { IsMoved (steps.close_call self.old.frames) result self.new.frames self.new.at }
    {
        let depth = self.frames.depth();
        match self.frames.pop() {
            Some(Frame::Callee) => self.quiet(At::Have(15), depth),
            _ => None,
        }
    }

    /// A sign that begins an operand (6.5.1, 6.5.3).
    fn operand_sign(&mut self, sign: Punct) -> Result<Option<Mark>, Memory>
        ensures { IfOk result (λ mark. IsMoved (steps.want_sign self.old.frames sign) mark
            self.new.frames self.new.at) }
    {
        match sign {
            Punct::LeftParenthesis => self.parenthesis(),
            Punct::RightParenthesis => Ok(self.close_call()),
            Punct::PlusPlus | Punct::MinusMinus => self.open(Frame::Prefix),
            Punct::And | Punct::Star | Punct::Plus | Punct::Minus | Punct::Tilde | Punct::Not =>
                self.open(Frame::Unary),
            _ => Ok(None),
        }
    }

    /// A token that begins an operand.
    pub(crate) fn operand(&mut self, class: Class) -> Result<Option<Mark>, Memory>
        ensures { IfOk result (λ mark. IsMoved (steps.operand_at self.old.frames class) mark
            self.new.frames self.new.at) }
    {
        match class {
            Class::Name | Class::Number | Class::Text => Ok(self.leaf()),
            Class::Keyword(Keyword::Sizeof) => self.open(Frame::Sizeof),
            Class::Sign(sign) => self.operand_sign(sign),
            _ => Ok(None),
        }
    }

    /// A token that begins an operand, after a `(` that counts because of it.
    fn late_operand(&mut self, class: Class) -> Result<Option<Mark>, Memory>
        ensures { IfOk result (λ mark. IsMoved
            (steps.lately (steps.operand_at self.old.frames class)) mark self.new.frames
            self.new.at) }
    {
        match self.operand(class)? {
            Some(mark) => Ok(Some(Mark {
                depth: mark.depth,
                role: mark.role,
                late: true,
            })),
            None => Ok(None),
        }
    }

    /// A token after a `(`: it may begin the type's name of a cast (6.5.4).
    fn take_parenthesis(&mut self, class: Class) -> Result<Option<Mark>, Memory>
        requires { tables.first self.old.frames ≡ Some frames.Parenthesis }
        ensures { IfOk result (λ mark. IsMoved (steps.after_parenthesis self.old.frames class) mark
            self.new.frames self.new.at) }
    {
        let Some(specifier) = specifier_of(Owner::TypeName, false, class) else {
            return self.operand(class);
        };
        self.frames.pop();
        if self.frames.hole() <= 13 {
            self.frames.push(Frame::CastType)?;
            self.specify(Owner::TypeName, specifier)
        } else {
            self.frames.push(Frame::Parenthesis)?;
            self.operand(class)
        }
    }

    /// A token after a `(` after `sizeof`: it may begin a type's name (6.5.3.4).
    fn take_after_sizeof(&mut self, class: Class) -> Result<Option<Mark>, Memory>
        requires { tables.first self.old.frames ≡ Some frames.AfterSizeof }
        ensures { IfOk result (λ mark. IsMoved (steps.after_sizeof self.old.frames class) mark
            self.new.frames self.new.at) }
    {
        self.frames.pop();
        let Some(Frame::Sizeof) = self.frames.top() else {
            self.frames.push(Frame::AfterSizeof)?;
            return self.operand(class);
        };
        match specifier_of(Owner::TypeName, false, class) {
            Some(specifier) => {
                self.frames.pop();
                self.frames.push(Frame::SizeofType)?;
                self.specify(Owner::TypeName, specifier)
            }
            None => {
                self.frames.push(Frame::Parenthesis)?;
                self.late_operand(class)
            }
        }
    }

    /// A token where an operand is wanted.
    pub(crate) fn take_want(&mut self, class: Class) -> Result<Option<Mark>, Memory>
        ensures { IfOk result (λ mark. IsMoved (steps.step_want self.old.frames class) mark
            self.new.frames self.new.at) }
    {
        match self.frames.top() {
            Some(Frame::Parenthesis) => self.take_parenthesis(class),
            Some(Frame::AfterSizeof) => self.take_after_sizeof(class),
            _ => self.operand(class),
        }
    }
}
