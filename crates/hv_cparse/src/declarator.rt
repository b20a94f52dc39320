//! Tokens of declarators (6.7.5, 6.7.6).
ghost use Rattle.std.specs.Prelude.{◌≡◌, ◌∷◌, suc, IfOk};
ghost use Rattle.hv_cparse.specs.declared.frame.Frame.TheVariants as frames;
ghost use Rattle.hv_cparse.specs.working.Steps as steps;
ghost use Rattle.hv_cparse.specs.working.Steps.{IsMoved};
ghost use Rattle.hv_cparse.specs.working.Tables as tables;

use crate::class::{Class, specifier_of};
use crate::control::Control;
use crate::frame::{At, Frame, Mark, Mode, Owner, more};
use hv_base::{Keyword, Memory, Punct};

/// Whether a declarator may have a name there.
fn may_name(mode: Mode) -> bool
    ensures { result ≡ steps.may_name mode }
{
    match mode {
        Mode::Named | Mode::Either => true,
        Mode::Abstract => false,
    }
}

/// Whether it may have none there.
fn may_lack_name(mode: Mode) -> bool
    ensures { result ≡ steps.may_lack_name mode }
{
    match mode {
        Mode::Named => false,
        Mode::Abstract | Mode::Either => true,
    }
}

/// Whether there are any `*`s.
fn some(stars: usize) -> bool
    ensures { result ≡ steps.some stars }
{
    0 < stars
}

impl Control {
    /// A token of a declarator that has so many `*`s.
    pub(crate) fn starred(&mut self, at: At, stars: usize) -> Result<Option<Mark>, Memory>
        ensures { IfOk result (λ mark. IsMoved (steps.starred at stars self.old.frames) mark
            self.new.frames self.new.at) }
    {
        let role = self.frames.role();
        let depth = more(self.frames.depth(), stars)?;
        Ok(self.plainly(role, at, depth))
    }

    /// A bracket or parenthesis of such a declarator, which is open at itself.
    pub(crate) fn bracketed(&mut self, at: At, stars: usize) -> Result<Option<Mark>, Memory>
        ensures { IfOk result (λ mark. IsMoved (steps.starred at (suc stars) self.old.frames) mark
            self.new.frames self.new.at) }
    {
        let one_more = more(stars, 1)?;
        self.starred(at, one_more)
    }

    /// A sign after a parameter (6.7.5).
    fn after_parameter(&mut self, sign: Punct) -> Result<Option<Mark>, Memory>
        ensures { IfOk result (λ mark. IsMoved (steps.after_parameter self.old.frames sign) mark
            self.new.frames self.new.at) }
    {
        let depth = self.frames.depth();
        let Some(Frame::Parameters(mode, stars)) = self.frames.pop() else {
            return Ok(None);
        };
        let role = self.frames.role();
        match sign {
            Punct::Comma => {
                self.frames.push(Frame::Parameters(mode, stars))?;
                Ok(self.plainly(role, At::ParameterNext, depth))
            }
            Punct::RightParenthesis => Ok(self.plainly(role, At::Direct(mode, stars), depth)),
            _ => Ok(None),
        }
    }

    /// A comma or semicolon after a member's declarator (6.7.2.1).
    fn after_member(&mut self, sign: Punct) -> Result<Option<Mark>, Memory>
        ensures { IfOk result (λ mark. IsMoved (steps.after_member self.old.frames sign) mark
            self.new.frames self.new.at) }
    {
        let depth = self.frames.depth();
        match sign {
            Punct::Comma => {
                let role = self.frames.role();
                self.frames.push(Frame::OwnedMembers)?;
                Ok(self.plainly(role, At::Pointing(Mode::Named, 0), depth))
            }
            Punct::Semicolon => {
                let Some(Frame::Body(_)) = self.frames.pop() else {
                    return Ok(None);
                };
                let role = self.frames.role();
                self.frames.push(Frame::Body(true))?;
                Ok(self.plainly(role, At::MemberStart, depth))
            }
            _ => Ok(None),
        }
    }

    /// `)` after the type's name of a cast (6.5.4) or of `sizeof` (6.5.3.4).
    fn after_type_name(&mut self, sign: Punct) -> Result<Option<Mark>, Memory>
        ensures { IfOk result (λ mark. IsMoved (steps.after_type_name self.old.frames sign) mark
            self.new.frames self.new.at) }
    {
        let Punct::RightParenthesis = sign else {
            return Ok(None);
        };
        let depth = self.frames.depth();
        match self.frames.pop() {
            Some(Frame::CastType) => {
                self.frames.push(Frame::Cast)?;
                Ok(self.quiet(At::Want, depth))
            }
            Some(Frame::SizeofType) => Ok(self.quiet(At::Have(14), depth)),
            _ => Ok(None),
        }
    }

    /// A sign after a declarator, or after none, by what it stands in.
    fn ended(&mut self, some: bool, sign: Punct) -> Result<Option<Mark>, Memory>
        ensures { IfOk result (λ mark. IsMoved (steps.ended some self.old.frames sign) mark
            self.new.frames self.new.at) }
    {
        match self.frames.pop() {
            Some(Frame::Owned(Owner::Parameter)) => self.after_parameter(sign),
            Some(Frame::Owned(Owner::TypeName)) => self.after_type_name(sign),
            Some(Frame::OwnedMembers) if some => self.after_member(sign),
            Some(Frame::Group(mode, stars)) if some => match sign {
                Punct::RightParenthesis => self.bracketed(At::Direct(mode, stars), stars),
                _ => Ok(None),
            },
            Some(Frame::Declaring(several)) if some => self.after_init(several, sign),
            _ => Ok(None),
        }
    }

    /// A qualifier of the last `*` (6.7.5.1).
    fn qualifier(&mut self, mode: Mode, stars: usize) -> Result<Option<Mark>, Memory>
        ensures { IfOk result (λ mark. IsMoved (steps.qualifier_at mode stars self.old.frames) mark
            self.new.frames self.new.at) }
    {
        if stars == 0 {
            return Ok(None);
        }
        self.starred(At::Pointing(mode, stars), stars)
    }

    /// `(` at the middle: of a declarator within it, or of parameters where a name may be missing
    /// (6.7.6).
    fn open_middle(&mut self, mode: Mode, stars: usize) -> Result<Option<Mark>, Memory>
        ensures { IfOk result (λ mark. IsMoved (steps.opened_at mode stars self.old.frames) mark
            self.new.frames self.new.at) }
    {
        match mode {
            Mode::Named => {
                let role = self.frames.role();
                self.frames.push(Frame::Group(Mode::Named, stars))?;
                let depth = self.frames.depth();
                Ok(self.plainly(role, At::Pointing(Mode::Named, 0), depth))
            }
            _ => self.bracketed(At::Opened(mode, stars), stars),
        }
    }

    /// A sign before the middle of a declarator.
    fn pointing_sign(
        &mut self,
        mode: Mode,
        stars: usize,
        sign: Punct,
    ) -> Result<Option<Mark>, Memory>
        ensures { IfOk result (λ mark. IsMoved (steps.pointing_sign mode stars self.old.frames sign)
            mark self.new.frames self.new.at) }
    {
        match sign {
            Punct::Star => {
                let one_more = more(stars, 1)?;
                self.starred(At::Pointing(mode, one_more), one_more)
            }
            Punct::LeftParenthesis => self.open_middle(mode, stars),
            _ if !may_lack_name(mode) => Ok(None),
            Punct::LeftBracket => self.bracketed(At::Bracket(mode, stars), stars),
            _ => self.ended(some(stars), sign),
        }
    }

    /// A token before the middle of a declarator.
    pub(crate) fn take_pointing(
        &mut self,
        mode: Mode,
        stars: usize,
        class: Class,
    ) -> Result<Option<Mark>, Memory>
        ensures { IfOk result (λ mark. IsMoved
            (steps.step_pointing mode stars self.old.frames class) mark self.new.frames
            self.new.at) }
    {
        match class {
            Class::Name if may_name(mode) => self.starred(At::Direct(mode, stars), stars),
            Class::Keyword(Keyword::Const | Keyword::Restrict) => self.qualifier(mode, stars),
            Class::Sign(sign) => self.pointing_sign(mode, stars, sign),
            _ => Ok(None),
        }
    }

    /// A token after a `(` at the middle, which begins no parameters: `)`, or a declarator within.
    fn opened_sign(
        &mut self,
        mode: Mode,
        stars: usize,
        class: Class,
    ) -> Result<Option<Mark>, Memory>
        ensures { IfOk result (λ mark. IsMoved (steps.opened_sign mode stars self.old.frames class)
            mark self.new.frames self.new.at) }
    {
        if let Class::Sign(Punct::RightParenthesis) = class {
            return self.bracketed(At::Direct(mode, stars), stars);
        }
        self.frames.push(Frame::Group(mode, stars))?;
        self.take_pointing(mode, 0, class)
    }

    /// A token after a `(` at the middle: a specifier begins parameters (6.7.6).
    pub(crate) fn take_opened(
        &mut self,
        mode: Mode,
        stars: usize,
        class: Class,
    ) -> Result<Option<Mark>, Memory>
        ensures { IfOk result (λ mark. IsMoved (steps.step_opened mode stars self.old.frames class)
            mark self.new.frames self.new.at) }
    {
        match specifier_of(Owner::Parameter, false, class) {
            Some(specifier) => {
                self.frames.push(Frame::Parameters(mode, stars))?;
                self.specify(Owner::Parameter, specifier)
            }
            None => self.opened_sign(mode, stars, class),
        }
    }

    /// A token after the middle of a declarator.
    pub(crate) fn take_direct(
        &mut self,
        mode: Mode,
        stars: usize,
        class: Class,
    ) -> Result<Option<Mark>, Memory>
        ensures { IfOk result (λ mark. IsMoved (steps.step_direct mode stars self.old.frames class)
            mark self.new.frames self.new.at) }
    {
        match class {
            Class::Sign(Punct::LeftBracket) => self.bracketed(At::Bracket(mode, stars), stars),
            Class::Sign(Punct::LeftParenthesis) => {
                self.bracketed(At::ParametersStart(mode, stars), stars)
            }
            Class::Sign(Punct::LeftBrace) => self.open_body(),
            Class::Sign(sign) => self.ended(true, sign),
            _ => Ok(None),
        }
    }

    /// A token after the `[` of an array declarator (6.7.5.2).
    pub(crate) fn take_bracket(
        &mut self,
        mode: Mode,
        stars: usize,
        class: Class,
    ) -> Result<Option<Mark>, Memory>
        ensures { IfOk result (λ mark. IsMoved (steps.step_bracket mode stars self.old.frames class)
            mark self.new.frames self.new.at) }
    {
        match class {
            Class::Sign(Punct::RightBracket) => self.bracketed(At::Direct(mode, stars), stars),
            Class::Keyword(Keyword::Const | Keyword::Restrict) => {
                self.bracketed(At::Bracket(mode, stars), stars)
            }
            _ => {
                self.frames.push(Frame::Length(mode, stars))?;
                self.operand(class)
            }
        }
    }
}
