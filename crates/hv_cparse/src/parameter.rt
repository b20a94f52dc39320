//! Tokens of the parameters of a function declarator (6.7.5.3).
ghost use Rattle.std.specs.Prelude.{◌≡◌, ◌∷◌, suc, IfOk};
ghost use Rattle.hv_cparse.specs.declared.frame.Frame.TheVariants as frames;
ghost use Rattle.hv_cparse.specs.working.Steps as steps;
ghost use Rattle.hv_cparse.specs.working.Steps.{IsMoved};
ghost use Rattle.hv_cparse.specs.working.Tables as tables;

use crate::class::{Class, specifier_of};
use crate::control::Control;
use crate::frame::{At, Frame, Mark, Mode, Owner};
use hv_base::{Memory, Punct};

impl Control {
    /// The first token after the `(` of a function declarator (6.7.5.3).
    pub(crate) fn take_parameters(
        &mut self,
        mode: Mode,
        stars: usize,
        class: Class,
    ) -> Result<Option<Mark>, Memory>
        ensures { IfOk result (λ mark. IsMoved
            (steps.step_parameters mode stars self.old.frames class) mark self.new.frames
            self.new.at) }
    {
        match specifier_of(Owner::Parameter, false, class) {
            Some(specifier) => {
                self.frames.push(Frame::Parameters(mode, stars))?;
                self.specify(Owner::Parameter, specifier)
            }
            None => match class {
                Class::Sign(Punct::RightParenthesis) => {
                    self.bracketed(At::Direct(mode, stars), stars)
                }
                _ => Ok(None),
            },
        }
    }

    /// A token after a comma among parameters (6.7.5).
    pub(crate) fn take_next(&mut self, class: Class) -> Result<Option<Mark>, Memory>
        ensures { IfOk result (λ mark. IsMoved (steps.step_next self.old.frames class) mark
            self.new.frames self.new.at) }
    {
        match specifier_of(Owner::Parameter, false, class) {
            Some(specifier) => self.specify(Owner::Parameter, specifier),
            None => match class {
                Class::Sign(Punct::Ellipsis) => self.starred(At::AfterEllipsis, 0),
                _ => Ok(None),
            },
        }
    }

    /// `)` after `, ...` (6.7.5).
    pub(crate) fn take_ellipsis(&mut self, class: Class) -> Option<Mark>
        ensures { IsMoved (steps.step_ellipsis self.old.frames class) result self.new.frames
            self.new.at }
    {
        let Class::Sign(Punct::RightParenthesis) = class else {
            return None;
        };
        let depth = self.frames.depth();
        match self.frames.pop() {
            Some(Frame::Parameters(mode, stars)) => {
                let role = self.frames.role();
                self.plainly(role, At::Direct(mode, stars), depth)
            }
            _ => None,
        }
    }
}
