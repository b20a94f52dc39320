//! The control of the parsing machine: what a token does, without the tree that is built.
ghost use Rattle.std.specs.Prelude.{◌≡◌, [], IfOk};
ghost use Rattle.hv_cparse.specs.working.Steps as steps;
ghost use Rattle.hv_cparse.specs.working.Steps.{IsMoved};

use crate::class::Class;
use crate::frame::{At, Mark, Role};
use crate::frames::Frames;
use crate::part::Fixed;
use hv_base::Memory;
use std::alloc::Global;

/// The control of the parsing machine. What a token does depends on it, on the token and on its
/// mark as a typedef name, and on nothing else.
#[derive(Debug, Drop)]
pub struct Control {
    /// What stands open.
    pub frames: Frames,
    /// Where the machine is.
    pub at: At,
    /// The operators so far of the expression that stands in no other.
    pub operators: usize,
}

impl Control {
    /// A token of an expression that isn't counted.
    pub(crate) fn quiet(&mut self, at: At, depth: usize) -> Option<Mark>
        ensures { IsMoved (steps.quiet self.old.frames at depth) result self.new.frames
            self.new.at }
    {
        self.at = at;
        Some(Mark {
            depth,
            role: Role::Inside,
            late: false,
        })
    }

    /// A counted operator of an expression.
    pub(crate) fn loud(&mut self, at: At, depth: usize) -> Option<Mark>
        ensures { IsMoved (steps.loud self.old.frames at depth) result self.new.frames
            self.new.at }
    {
        self.at = at;
        Some(Mark {
            depth,
            role: Role::Operator,
            late: false,
        })
    }

    /// A token that stands in no expression.
    pub(crate) fn loosely(&mut self, at: At, depth: usize) -> Option<Mark>
        ensures { IsMoved (steps.loosely self.old.frames at depth) result self.new.frames
            self.new.at }
    {
        self.plainly(Role::Outside, at, depth)
    }

    /// A token of specifiers or declarators in the role.
    pub(crate) fn plainly(&mut self, role: Role, at: At, depth: usize) -> Option<Mark>
        ensures { IsMoved (steps.move role self.old.frames at depth) result self.new.frames
            self.new.at }
    {
        self.at = at;
        Some(Mark {
            depth,
            role,
            late: false,
        })
    }

    /// Takes a token by where the control is, and says what is known of it, if it may stand there.
    pub(crate) fn step(&mut self, class: Class) -> Result<Option<Mark>, Memory>
        ensures { IfOk result (λ mark. IsMoved (steps.step self.old.frames self.old.at class) mark
            self.new.frames self.new.at) }
    {
        match self.at {
            At::Want => self.take_want(class),
            At::Have(level) => self.take_have(level, class),
            At::Selecting => Ok(self.take_selecting(class)),
            At::Words(owner, typed) => self.take_words(owner, typed, class),
            At::AfterCompound => self.take_compound(class),
            At::AfterTag => self.take_tag(class),
            At::AfterEnum => self.take_enum(class),
            At::AfterEnumTag => self.take_enum_tag(class),
            At::MemberStart => self.take_member(class),
            At::EnumeratorStart => Ok(self.take_enumerator(class)),
            At::AfterEnumerator => self.take_enumerator_name(class),
            At::Pointing(mode, stars) => self.take_pointing(mode, stars, class),
            At::Opened(mode, stars) => self.take_opened(mode, stars, class),
            At::Direct(mode, stars) => self.take_direct(mode, stars, class),
            At::Bracket(mode, stars) => self.take_bracket(mode, stars, class),
            At::ParametersStart(mode, stars) => self.take_parameters(mode, stars, class),
            At::ParameterNext => self.take_next(class),
            At::AfterEllipsis => Ok(self.take_ellipsis(class)),
            _ => self.step_element(class),
        }
    }

    /// The same, among initialisers and in an element's own production.
    fn step_element(&mut self, class: Class) -> Result<Option<Mark>, Memory>
        ensures { IfOk result (λ mark. IsMoved (steps.step_element self.old.frames self.old.at
            class) mark self.new.frames self.new.at) }
    {
        match self.at {
            At::InitializerStart => self.take_initializer(class),
            At::BracesStart => self.take_braces(class),
            At::AfterDot => Ok(self.take_dot(class)),
            At::AfterDesignator => self.take_designator(class),
            At::AfterInitializer => self.take_initialized(class),
            At::Start(standing) => self.take_start(standing, class),
            At::Awaiting => Ok(self.take_awaited(class)),
            At::Opening(part) => self.take_opening(part, class),
            At::AfterIf => Ok(self.fixed(Fixed::Hole, At::MayElse, class)),
            At::MayElse => self.take_else(class),
            At::ForOpening => Ok(self.fixed(Fixed::Opening, At::ForStart, class)),
            At::ForStart => self.take_for(class),
            At::Before(clause) => self.take_before(clause, class),
            _ => Ok(None),
        }
    }
}
