//! Tokens of an element's own production: of statements (6.8) and external declarations (6.9).
ghost use Rattle.std.specs.Prelude.{◌≡◌, ◌∷◌, suc, IfOk};
ghost use Rattle.hv_cparse.specs.declared.class.Class.TheVariants as classes;
ghost use Rattle.hv_cparse.specs.working.Steps as steps;
ghost use Rattle.hv_cparse.specs.working.Steps.{IsMoved};

use crate::class::{Class, specifier_of};
use crate::control::Control;
use crate::frame::{At, Frame, Mark, Owner};
use crate::part::{Clause, Fixed, Part, Setting, Standing};
use hv_base::{Keyword, Memory, Punct};

impl Control {
    /// Before a terminal that ends the element.
    fn awaiting(&mut self, fixed: Fixed) -> Result<Option<Mark>, Memory>
        ensures { IfOk result (λ mark. IsMoved (steps.awaited fixed self.old.frames) mark
            self.new.frames self.new.at) }
    {
        self.frames.push(Frame::Terminal(fixed))?;
        Ok(self.loosely(At::Awaiting, 0))
    }

    /// After an expression that may be missing, and what stands after it.
    fn after_clause(&mut self, clause: Clause) -> Result<Option<Mark>, Memory>
        ensures { IfOk result (λ mark. IsMoved (steps.after_clause clause self.old.frames) mark
            self.new.frames self.new.at) }
    {
        match clause {
            Clause::ForFirst => Ok(self.loosely(At::Before(Clause::ForSecond), 0)),
            Clause::ForSecond => Ok(self.loosely(At::Before(Clause::ForThird), 0)),
            Clause::ForThird => self.awaiting(Fixed::Hole),
            Clause::Return => Ok(self.loosely(At::Awaiting, 0)),
        }
    }

    /// After an expression of a statement, and what stands after it.
    fn after_part(&mut self, part: Part) -> Result<Option<Mark>, Memory>
        ensures { IfOk result (λ mark. IsMoved (steps.after_part part self.old.frames) mark
            self.new.frames self.new.at) }
    {
        match part {
            Part::Case | Part::Switch | Part::While => self.awaiting(Fixed::Hole),
            Part::Expression => Ok(self.loosely(At::Awaiting, 0)),
            Part::If => Ok(self.loosely(At::AfterIf, 0)),
            Part::Do => self.awaiting(Fixed::Semicolon),
            Part::Optional(clause) => self.after_clause(clause),
        }
    }

    /// A sign after an expression of a statement, whose element nothing stands around.
    pub(crate) fn end_part(&mut self, part: Part, sign: Punct) -> Result<Option<Mark>, Memory>
        ensures { IfOk result (λ mark. IsMoved
            (steps.part_at part self.old.frames (classes.Sign sign)) mark self.new.frames
            self.new.at) }
    {
        if self.frames.top().is_some() || !part.closer().meets(Class::Sign(sign)) {
            return Ok(None);
        }
        self.after_part(part)
    }

    /// One of the terminals that an element fixes, before the place.
    pub(crate) fn fixed(&mut self, fixed: Fixed, at: At, class: Class) -> Option<Mark>
        ensures { IsMoved (steps.fixed_at fixed self.old.frames at class) result self.new.frames
            self.new.at }
    {
        if !fixed.meets(class) {
            return None;
        }
        self.loosely(at, 0)
    }

    /// A terminal that ends the element, or comes before those that do.
    pub(crate) fn take_awaited(&mut self, class: Class) -> Option<Mark>
        ensures { IsMoved (steps.step_awaiting self.old.frames class) result self.new.frames
            self.new.at }
    {
        match self.frames.pop() {
            Some(Frame::Terminal(fixed)) => self.fixed(fixed, At::Awaiting, class),
            _ => None,
        }
    }

    /// After a terminal before an expression.
    fn opened(&mut self, part: Part) -> Result<Option<Mark>, Memory>
        ensures { IfOk result (λ mark. IsMoved (steps.opened part self.old.frames) mark
            self.new.frames self.new.at) }
    {
        if self.frames.top().is_some() {
            return Ok(self.loosely(At::Opening(part), 0));
        }
        self.frames.push(Frame::Statement(part))?;
        Ok(self.loosely(At::Want, 0))
    }

    /// A terminal before an expression.
    pub(crate) fn take_opening(&mut self, part: Part, class: Class) -> Result<Option<Mark>, Memory>
        ensures { IfOk result (λ mark. IsMoved (steps.step_opening part self.old.frames class) mark
            self.new.frames self.new.at) }
    {
        match self.frames.pop() {
            Some(Frame::Terminal(fixed)) if fixed.meets(class) => self.opened(part),
            _ => Ok(None),
        }
    }

    /// `else`, where it may stand (6.8.4.1).
    pub(crate) fn take_else(&mut self, class: Class) -> Result<Option<Mark>, Memory>
        ensures { IfOk result (λ mark. IsMoved (steps.step_else self.old.frames class) mark
            self.new.frames self.new.at) }
    {
        if !Fixed::Else.meets(class) {
            return Ok(None);
        }
        self.awaiting(Fixed::Hole)
    }

    /// An expression that may be missing (6.8.3, 6.8.5.3, 6.8.6.4).
    pub(crate) fn take_before(
        &mut self,
        clause: Clause,
        class: Class,
    ) -> Result<Option<Mark>, Memory>
        ensures { IfOk result (λ mark. IsMoved (steps.step_before clause self.old.frames class) mark
            self.new.frames self.new.at) }
    {
        if clause.closer().meets(class) {
            return self.after_clause(clause);
        }
        self.frames.push(Frame::Statement(Part::Optional(clause)))?;
        self.operand(class)
    }

    /// The keyword of a statement before a `(`, which stands before the expression.
    fn headed(&mut self, part: Part) -> Result<Option<Mark>, Memory>
        ensures { IfOk result (λ mark. IsMoved (steps.headed part self.old.frames) mark
            self.new.frames self.new.at) }
    {
        self.frames.push(Frame::Terminal(Fixed::Opening))?;
        Ok(self.loosely(At::Opening(part), 0))
    }

    /// `do` (6.8.5.2).
    fn begin_do(&mut self) -> Result<Option<Mark>, Memory>
        ensures { IfOk result (λ mark. IsMoved (steps.do_begun self.old.frames) mark
            self.new.frames self.new.at) }
    {
        self.frames.push(Frame::Terminal(Fixed::Opening))?;
        self.frames.push(Frame::Terminal(Fixed::While))?;
        self.frames.push(Frame::Terminal(Fixed::Hole))?;
        Ok(self.loosely(At::Opening(Part::Do), 0))
    }

    /// An expression statement's first token (6.8.3).
    fn begin_expression(&mut self, class: Class) -> Result<Option<Mark>, Memory>
        ensures { IfOk result (λ mark. IsMoved (steps.expression_begun self.old.frames class) mark
            self.new.frames self.new.at) }
    {
        self.frames.push(Frame::Statement(Part::Expression))?;
        self.operand(class)
    }

    /// The keyword that begins a statement (6.8.1, 6.8.4 to 6.8.6).
    fn statement_word(&mut self, keyword: Keyword) -> Result<Option<Mark>, Memory>
        ensures { IfOk result (λ mark. IsMoved (steps.statement_word self.old.frames keyword) mark
            self.new.frames self.new.at) }
    {
        match keyword {
            Keyword::Case => {
                self.frames.push(Frame::Statement(Part::Case))?;
                Ok(self.loosely(At::Want, 0))
            }
            Keyword::Default => {
                self.frames.push(Frame::Terminal(Fixed::Hole))?;
                self.awaiting(Fixed::Colon)
            }
            Keyword::If => self.headed(Part::If),
            Keyword::Switch => self.headed(Part::Switch),
            Keyword::While => self.headed(Part::While),
            Keyword::Do => self.begin_do(),
            Keyword::For => Ok(self.loosely(At::ForOpening, 0)),
            Keyword::Continue | Keyword::Break => self.awaiting(Fixed::Semicolon),
            Keyword::Return => Ok(self.loosely(At::Before(Clause::Return), 0)),
            _ => self.begin_expression(Class::Keyword(keyword)),
        }
    }

    /// The first token of a statement (6.8).
    fn statement(&mut self, class: Class) -> Result<Option<Mark>, Memory>
        ensures { IfOk result (λ mark. IsMoved (steps.statement_at self.old.frames class) mark
            self.new.frames self.new.at) }
    {
        match class {
            Class::Keyword(keyword) => self.statement_word(keyword),
            Class::Sign(Punct::LeftBrace) => {
                self.frames.push(Frame::Terminal(Fixed::RightBrace))?;
                self.awaiting(Fixed::Hole)
            }
            Class::Sign(Punct::Semicolon) => Ok(self.loosely(At::Awaiting, 0)),
            _ => self.begin_expression(class),
        }
    }

    /// A lone `;` at file scope, which is an external declaration of the profile (6.9).
    fn lone(&mut self, class: Class) -> Option<Mark>
        ensures { IsMoved (steps.lone_at self.old.frames class) result self.new.frames
            self.new.at }
    {
        match class {
            Class::Sign(Punct::Semicolon) => self.loosely(At::Awaiting, 0),
            _ => None,
        }
    }

    /// The first token of an element.
    pub(crate) fn take_start(
        &mut self,
        standing: Standing,
        class: Class,
    ) -> Result<Option<Mark>, Memory>
        ensures { IfOk result (λ mark. IsMoved (steps.start_at standing self.old.frames class) mark
            self.new.frames self.new.at) }
    {
        let setting = match standing {
            Standing::External => Setting::File,
            Standing::Item => Setting::Block,
            Standing::Nested => return self.statement(class),
        };
        if let Some(specifier) = specifier_of(Owner::Declaration, false, class) {
            self.frames.push(Frame::Declares(setting))?;
            return self.specify(Owner::Declaration, specifier);
        }
        match setting {
            Setting::File => Ok(self.lone(class)),
            _ => self.statement(class),
        }
    }

    /// The first token after the `(` of a `for` (6.8.5.3).
    pub(crate) fn take_for(&mut self, class: Class) -> Result<Option<Mark>, Memory>
        ensures { IfOk result (λ mark. IsMoved (steps.step_for self.old.frames class) mark
            self.new.frames self.new.at) }
    {
        let Some(specifier) = specifier_of(Owner::Declaration, false, class) else {
            return self.take_before(Clause::ForFirst, class);
        };
        self.frames.push(Frame::Declares(Setting::For))?;
        self.specify(Owner::Declaration, specifier)
    }
}
