//! Tokens after an operand.
ghost use Rattle.std.specs.Prelude.{◌≡◌, IfOk};
ghost use Rattle.hv_cparse.specs.working.Steps as steps;
ghost use Rattle.hv_cparse.specs.working.Steps.{IsMoved};
ghost use Rattle.hv_cparse.specs.working.Tables as tables;

use crate::class::{Class, Infix, infix_of};
use crate::control::Control;
use crate::frame::{At, Frame, Mark, more};
use hv_base::{Memory, Punct};

/// How many are open at the sign: the right side of an assignment is open from its own first token.
fn weigh_at(sign: Infix, depth: usize) -> Result<usize, Memory>
    ensures { IfOk result (λ sum. sum ≡ steps.weigh_at sign depth) }
{
    match sign {
        Infix::Question | Infix::Bracket | Infix::Parenthesis => more(depth, 1),
        _ => Ok(depth),
    }
}

impl Control {
    /// Begins what goes on after a left operand.
    fn push_infix(&mut self, sign: Infix) -> Result<Option<Mark>, Memory>
        ensures { IfOk result (λ mark. IsMoved (steps.infix_begun sign self.old.frames) mark
            self.new.frames self.new.at) }
    {
        let depth = weigh_at(sign, self.frames.depth())?;
        self.frames.push(sign.begun())?;
        Ok(self.loud(At::Want, depth))
    }

    /// Goes on after a left operand.
    fn infix(&mut self, sign: Infix, level: u8) -> Result<Option<Mark>, Memory>
        ensures { IfOk result (λ mark. IsMoved (steps.goes_on sign level self.old.frames) mark
            self.new.frames self.new.at) }
    {
        let reached = self.frames.reduce(sign.reach(), level);
        if reached < sign.left() || u16::from(sign.makes()) < self.frames.hole() {
            return Ok(None);
        }
        self.push_infix(sign)
    }

    /// A type specifier with braces is ended (6.7.2.1, 6.7.2.2).
    pub(crate) fn specified(&mut self, depth: usize) -> Option<Mark>
        ensures { IsMoved (steps.specified self.old.frames depth) result self.new.frames
            self.new.at }
    {
        match self.frames.pop() {
            Some(Frame::Specified(owner)) => {
                let role = self.frames.role();
                self.plainly(role, At::Words(owner, true), depth)
            }
            _ => None,
        }
    }

    /// A comma after an enumerator (6.7.2.2).
    pub(crate) fn next_enumerator(&mut self) -> Result<Option<Mark>, Memory>
        ensures { IfOk result (λ mark. IsMoved (steps.next_enumerator self.old.frames) mark
            self.new.frames self.new.at) }
    {
        let depth = self.frames.depth();
        let Some(Frame::Listing(_)) = self.frames.pop() else {
            return Ok(None);
        };
        let role = self.frames.role();
        self.frames.push(Frame::Listing(true))?;
        Ok(self.plainly(role, At::EnumeratorStart, depth))
    }

    /// The `}` of an enumeration (6.7.2.2).
    pub(crate) fn end_listing(&mut self) -> Option<Mark>
        ensures { IsMoved (steps.end_listing self.old.frames) result self.new.frames self.new.at }
    {
        let depth = self.frames.depth();
        match self.frames.pop() {
            Some(Frame::Listing(_)) => self.specified(depth),
            _ => None,
        }
    }

    /// A comma that ends an argument (6.5.2), an enumerator's value (6.7.2.2) or an initialiser
    /// (6.7.8).
    fn argument(&mut self) -> Result<Option<Mark>, Memory>
        ensures { IfOk result (λ mark. IsMoved (steps.argument_at self.old.frames) mark
            self.new.frames self.new.at) }
    {
        let depth = self.frames.depth();
        match self.frames.pop() {
            Some(Frame::Callee | Frame::Calling) => {
                self.frames.push(Frame::Calling)?;
                Ok(self.quiet(At::Want, depth))
            }
            Some(Frame::Valued) => self.next_enumerator(),
            Some(Frame::Designated) => self.after_item(Punct::Comma),
            Some(Frame::Initialized) => self.after_value(Punct::Comma),
            _ => Ok(None),
        }
    }

    /// A comma after an operand: an operator where one may stand (6.5.17).
    fn comma(&mut self) -> Result<Option<Mark>, Memory>
        ensures { IfOk result (λ mark. IsMoved (steps.comma_at self.old.frames) mark
            self.new.frames self.new.at) }
    {
        if self.frames.hole() == 0 {
            self.push_infix(Infix::Comma)
        } else {
            self.argument()
        }
    }

    /// `)` of a parenthesis (6.5.1), of a call (6.5.2.2) or of a statement (6.8.4, 6.8.5).
    fn close(&mut self) -> Result<Option<Mark>, Memory>
        ensures { IfOk result (λ mark. IsMoved (steps.close_at self.old.frames) mark
            self.new.frames self.new.at) }
    {
        let depth = self.frames.depth();
        match self.frames.pop() {
            Some(Frame::Parenthesis | Frame::Callee | Frame::Calling) => {
                Ok(self.quiet(At::Have(15), depth))
            }
            Some(Frame::Statement(part)) => self.end_part(part, Punct::RightParenthesis),
            _ => Ok(None),
        }
    }

    /// `]` of a subscript (6.5.2.1), of an array declarator (6.7.5.2) or of a designator (6.7.8).
    fn close_bracket(&mut self) -> Option<Mark>
        ensures { IsMoved (steps.bracket_at self.old.frames) result self.new.frames self.new.at }
    {
        let depth = self.frames.depth();
        match self.frames.pop() {
            Some(Frame::Subscript) => self.quiet(At::Have(15), depth),
            Some(Frame::Length(mode, stars)) => {
                let role = self.frames.role();
                self.plainly(role, At::Direct(mode, stars), depth)
            }
            Some(Frame::Index) => self.loosely(At::AfterDesignator, depth),
            _ => None,
        }
    }

    /// `}` after an enumerator's value (6.7.2.2) or an initialiser (6.7.8).
    fn close_brace(&mut self) -> Result<Option<Mark>, Memory>
        ensures { IfOk result (λ mark. IsMoved (steps.brace_at self.old.frames) mark
            self.new.frames self.new.at) }
    {
        match self.frames.pop() {
            Some(Frame::Valued) => Ok(self.end_listing()),
            Some(Frame::Designated) => self.after_item(Punct::RightBrace),
            _ => Ok(None),
        }
    }

    /// `:` of a conditional expression (6.5.15) or of a label (6.8.1).
    fn colon(&mut self) -> Result<Option<Mark>, Memory>
        ensures { IfOk result (λ mark. IsMoved (steps.colon_at self.old.frames) mark
            self.new.frames self.new.at) }
    {
        let depth = self.frames.depth();
        match self.frames.pop() {
            Some(Frame::Then) => {
                self.frames.push(Frame::Else)?;
                Ok(self.quiet(At::Want, depth))
            }
            Some(Frame::Statement(part)) => self.end_part(part, Punct::Colon),
            _ => Ok(None),
        }
    }

    /// `;` after an initialiser (6.7) or an expression of a statement (6.8).
    fn semicolon(&mut self) -> Result<Option<Mark>, Memory>
        ensures { IfOk result (λ mark. IsMoved (steps.semicolon_at self.old.frames) mark
            self.new.frames self.new.at) }
    {
        match self.frames.pop() {
            Some(Frame::Initialized) => self.after_value(Punct::Semicolon),
            Some(Frame::Statement(part)) => self.end_part(part, Punct::Semicolon),
            _ => Ok(None),
        }
    }

    /// A postfix operator, which stands after a postfix-expression (6.5.2).
    fn postfix(&mut self, level: u8, at: At) -> Option<Mark>
        ensures { IsMoved (steps.after_postfix level self.old.frames at) result self.new.frames
            self.new.at }
    {
        if level < 15 {
            return None;
        }
        let depth = self.frames.depth();
        self.loud(at, depth)
    }

    /// A sign that ends operands.
    fn ending_sign(&mut self, level: u8, sign: Punct) -> Result<Option<Mark>, Memory>
        ensures { IfOk result (λ mark. IsMoved
            (steps.ending_sign sign (tables.reduce 0 self.old.frames level)) mark
            self.new.frames self.new.at) }
    {
        self.frames.reduce(0, level);
        match sign {
            Punct::Comma => self.comma(),
            Punct::RightParenthesis => self.close(),
            Punct::RightBracket => Ok(self.close_bracket()),
            Punct::RightBrace => self.close_brace(),
            Punct::Colon => self.colon(),
            Punct::Semicolon => self.semicolon(),
            _ => Ok(None),
        }
    }

    /// A sign after an operand.
    fn operator(&mut self, level: u8, sign: Punct) -> Result<Option<Mark>, Memory>
        ensures { IfOk result (λ mark. IsMoved (steps.have_sign self.old.frames level sign) mark
            self.new.frames self.new.at) }
    {
        match sign {
            Punct::Comma
            | Punct::RightParenthesis
            | Punct::RightBracket
            | Punct::RightBrace
            | Punct::Colon
            | Punct::Semicolon => self.ending_sign(level, sign),
            Punct::Dot | Punct::Arrow => Ok(self.postfix(level, At::Selecting)),
            Punct::PlusPlus | Punct::MinusMinus => Ok(self.postfix(level, At::Have(15))),
            _ => match infix_of(sign) {
                Some(infix) => self.infix(infix, level),
                None => Ok(None),
            },
        }
    }

    /// A token after an operand: only signs may stand there.
    pub(crate) fn take_have(&mut self, level: u8, class: Class) -> Result<Option<Mark>, Memory>
        ensures { IfOk result (λ mark. IsMoved (steps.step_have self.old.frames level class) mark
            self.new.frames self.new.at) }
    {
        match class {
            Class::Sign(sign) => self.operator(level, sign),
            _ => Ok(None),
        }
    }

    /// The member's name after `.` or `->` (6.5.2.3).
    pub(crate) fn take_selecting(&mut self, class: Class) -> Option<Mark>
        ensures { IsMoved (steps.step_selecting self.old.frames class) result self.new.frames
            self.new.at }
    {
        match class {
            Class::Name => self.leaf(),
            _ => None,
        }
    }
}
