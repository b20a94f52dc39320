//! Reading rules.
ghost use Rattle.std.specs.Prelude.{◌≡◌, ◌∷◌, ◌<◌, ◌≤◌, ◌+◌, true, false, None, length, if◌then◌else◌, IfOk, IfSome, OnOk};

use crate::code::{Code, Step};
use crate::name::is_name;
use crate::names::Names;
use crate::scan::Token;
use hv_base::{Memory, Stack};
use std::alloc::Global;

/// How many parentheses may be open at once, and how many `!` may stand in a row.
pub(crate) const MOST_NESTED: u16 = 256;

/// What stands before an operand within its parentheses.
#[derive(Clone, Copy, Debug, PartialEq, Eq)]
pub(crate) struct Frame {
    /// How many `!` stand directly before it.
    pub(crate) negations: u16,
    /// Whether the operand is the right side of `&&`.
    pub(crate) conjunct: bool,
    /// Whether it stands in the right side of `||`.
    pub(crate) disjunct: bool,
    /// Whether it stands in the right side of `=>`.
    pub(crate) premise: bool,
}

impl Frame {
    const EMPTY: Frame = Frame {
        negations: 0,
        conjunct: false,
        disjunct: false,
        premise: false,
    };
}

/// A rule that is being read, token by token.
#[derive(Debug, Drop)]
pub(crate) struct Parser {
    /// The code of what is read so far.
    pub(crate) code: Code,
    /// What stands before each open parenthesis.
    pub(crate) outer: Stack<Frame>,
    /// What stands before the next operand, or around the last one, in the innermost parentheses.
    pub(crate) top: Frame,
    /// Whether an operand comes next.
    pub(crate) wants: bool,
}

impl Parser {
    ghost use Rattle.hv_model.specs.working.Machine.{IsSaid, IsTaken, after_close, completed, expr_done, finished, frame, have, is_allowed, limited_step, or_done, start, step_having, step_wanting, want};
    ghost use Rattle.hv_model.specs.working.Parsed.{machine_of};
    ghost use Rattle.hv_model.specs.working.Said.{said};
    ghost use Rattle.hv_model.specs.Rule.{option};
    ghost use Rattle.hv_model.specs.working.Steps.{items_of, supposed, supposed_too, value};

    pub(crate) fn new(alloc: Global) -> Parser
        ensures { machine_of result ≡ start }
    {
        Parser {
            code: Code::new(alloc),
            outer: Stack::new(alloc),
            top: Frame::EMPTY,
            wants: true,
        }
    }

    /// Ends an operand: what stands directly before it is applied to it.
    fn complete(&mut self) -> Result<(), Memory>
        ensures { OnOk result (machine_of self.new
            ≡ completed self.old.top self.old.outer (items_of self.old.code)) }
    {
        self.code.negate(self.top.negations)?;
        self.code.operate_if(self.top.conjunct, Step::And)?;
        self.top.negations = 0;
        self.top.conjunct = false;
        self.wants = false;
        Ok(())
    }

    /// Takes the option of this number as an operand.
    fn operand(&mut self, place: u16) -> Result<(), Memory>
        requires { length (items_of self.old.code) < 1024 }
        ensures { OnOk result (machine_of self.new
            ≡ completed self.old.top self.old.outer (value (option place)
            ∷ items_of self.old.code)) }
    {
        self.code.emit(Step::Option(place))?;
        self.complete()
    }

    /// Takes an opening parenthesis.
    fn open(&mut self) -> Result<(), Memory>
        requires { self.old.wants ≡ true }
        ensures { OnOk result (machine_of self.new ≡ want (frame 0 false false false) (self.old.top
            ∷ self.old.outer) (items_of self.old.code)) }
    {
        self.outer.push(self.top)?;
        self.top = Frame::EMPTY;
        Ok(())
    }

    /// Takes a token where an operand is wanted, and says whether it may stand there.
    fn take_wanting(&mut self, names: &Names, token: Token<'_>) -> Result<bool, Memory>
        requires wants { self.old.wants ≡ true }
        requires room { length (items_of self.old.code) < 1024 }
        ensures { IfOk result
            (λ went. IsTaken (if is_allowed (machine_of self.old) (said token.entry)
            then step_wanting names.now self.old.top self.old.outer (items_of self.old.code)
            (said token.entry)
            else None) went (machine_of self.new)) }
    {
        match token {
            Token::Word(name) if is_name(name) => self.operand(names.place(name))?,
            Token::Negate if self.top.negations < MOST_NESTED => self.top.negations += 1,
            Token::Open if self.outer.len() < MOST_NESTED as usize => self.open()?,
            _ => return Ok(false),
        }
        Ok(true)
    }

    /// Ends the right side of `||`.
    fn end_either(&mut self) -> Result<(), Memory>
        ensures items { OnOk result (items_of self.new.code
            ≡ or_done self.old.top (items_of self.old.code)) }
        ensures outer { OnOk result (self.new.outer ≡ self.old.outer) }
        ensures top { OnOk result (self.new.top ≡ self.old.top) }
    {
        self.code.operate_if(self.top.disjunct, Step::Or)
    }

    /// Ends the right side of `=>`.
    fn end_expr(&mut self) -> Result<(), Memory>
        ensures items { OnOk result (items_of self.new.code
            ≡ expr_done self.old.top (items_of self.old.code)) }
        ensures outer { OnOk result (self.new.outer ≡ self.old.outer) }
        ensures top { OnOk result (self.new.top ≡ self.old.top) }
    {
        self.end_either()?;
        self.code.operate_if(self.top.premise, Step::Conclude)
    }

    /// Takes `||`.
    fn either(&mut self) -> Result<(), Memory>
        ensures { OnOk result (machine_of self.new
            ≡ want (frame 0 false true self.old.top.premise) self.old.outer
            (or_done self.old.top (items_of self.old.code))) }
    {
        self.end_either()?;
        self.top = Frame {
            negations: 0,
            conjunct: false,
            disjunct: true,
            premise: self.top.premise,
        };
        self.wants = true;
        Ok(())
    }

    /// Takes `=>`.
    fn implies(&mut self) -> Result<(), Memory>
        ensures { OnOk result (machine_of self.new ≡ want (frame 0 false false true) self.old.outer
            (if self.old.top.premise
            then supposed_too (or_done self.old.top (items_of self.old.code))
            else supposed (or_done self.old.top (items_of self.old.code)))) }
    {
        self.end_either()?;
        self.suppose()?;
        self.top = Frame {
            negations: 0,
            conjunct: false,
            disjunct: false,
            premise: true,
        };
        self.wants = true;
        Ok(())
    }

    /// Makes the value on the stack a premise.
    fn suppose(&mut self) -> Result<(), Memory>
        ensures items { OnOk result (items_of self.new.code ≡ (if self.old.top.premise
            then supposed_too (items_of self.old.code) else supposed (items_of self.old.code))) }
        ensures outer { OnOk result (self.new.outer ≡ self.old.outer) }
    {
        let step = if self.top.premise {
            Step::SupposeToo
        } else {
            Step::Suppose
        };
        self.code.operate_if(true, step)
    }

    /// Takes a closing parenthesis, if one is open.
    fn close(&mut self) -> Result<bool, Memory>
        ensures { IfOk result
            (λ went. IsTaken
            (after_close self.old.outer (expr_done self.old.top (items_of self.old.code)))
            went (machine_of self.new)) }
    {
        self.end_expr()?;
        let Some(frame) = self.outer.pop() else {
            return Ok(false);
        };
        self.top = frame;
        self.complete()?;
        Ok(true)
    }

    /// Takes a token after an operand, and says whether it may stand there.
    fn take_having(&mut self, token: Token<'_>) -> Result<bool, Memory>
        ensures { IfOk result
            (λ went. IsTaken
            (step_having self.old.top self.old.outer (items_of self.old.code) (said token.entry))
            went (machine_of self.new)) }
    {
        match token {
            Token::Both => {
                self.top = Frame {
                    negations: 0,
                    conjunct: true,
                    disjunct: self.top.disjunct,
                    premise: self.top.premise,
                };
                self.wants = true;
            }
            Token::Either => self.either()?,
            Token::Implies => self.implies()?,
            Token::Close => return self.close(),
            _ => return Ok(false),
        }
        Ok(true)
    }

    /// Takes a token, and says whether it may stand there.
    pub(crate) fn take(&mut self, names: &Names, token: Token<'_>) -> Result<bool, Memory>
        requires { length (items_of self.old.code) < 1024 }
        ensures { IfOk result
            (λ went. IsTaken (limited_step names.now (machine_of self.old) (said token.entry))
            went (machine_of self.new)) }
    {
        if self.wants {
            self.take_wanting(names, token)
        } else {
            self.take_having(token)
        }
    }

    /// Ends the rule, if it may end here.
    pub(crate) fn finish(mut self) -> Result<Option<Code>, Memory>
        ensures said { IfOk result (IsSaid (finished (machine_of self))) }
        ensures items { IfOk result (λ code. IfSome code (λ steps. items_of steps
            ≡ expr_done self.top (items_of self.code))) }
    {
        if self.wants || self.outer.pop().is_some() {
            return Ok(None);
        }
        self.end_expr()?;
        let Parser {
            code,
            outer: _,
            top: _,
            wants: _,
        } = self;
        Ok(Some(code))
    }
}
