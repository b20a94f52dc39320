//! The machine that reads and evaluates a controlling expression in one pass.
ghost use Rattle.std.specs.Prelude.{◌≡◌, [], ◌∷◌, None, Some, IfOk, OnOk};
ghost use Rattle.hv_ifexpr.specs.working.Machine as machine;
ghost use Rattle.hv_plain.specs.controlling.Grammar as grammar;

use crate::frame::{Frame, level};
use crate::reduce::reduce;
use crate::symbol::classify;
use hv_base::{BinaryOperator, Memory, Stack};
use hv_plain::{Operand, Symbol, Unary};
use hv_toks::PpTok;
use std::alloc::Global;

/// The unary operator that the symbol is.
fn unary_of(symbol: Symbol) -> Option<Unary>
    ensures { result ≡ machine.sign_of symbol }
{
    match symbol {
        Symbol::Operator(BinaryOperator::Add) => Some(Unary::Plus),
        Symbol::Operator(BinaryOperator::Subtract) => Some(Unary::Minus),
        Symbol::Complement => Some(Unary::Complement),
        Symbol::Not => Some(Unary::Not),
        _ => None,
    }
}

/// A controlling expression that is being read, symbol by symbol.
#[derive(Drop)]
pub(crate) struct Machine {
    /// What stands open.
    stack: Stack<Frame>,
    /// The operand after it, if one is complete.
    operand: Option<Operand>,
}

impl Machine {
    /// The machine at the beginning of an expression.
    fn new(alloc: Global) -> Machine
        ensures { machine.state_of result ≡ machine.want [] }
    {
        Machine {
            stack: Stack::new(alloc),
            operand: None,
        }
    }

    /// Opens what stands before the next operand.
    fn open(&mut self, frame: Frame) -> Result<(), Memory>
        ensures { OnOk result (machine.state_of self.new ≡ machine.want (frame ∷ self.old.stack)) }
    {
        self.operand = None;
        self.stack.push(frame)
    }

    /// Takes a symbol where an operand is wanted, and says whether it may stand there.
    fn take_wanting(&mut self, symbol: Symbol) -> Result<bool, Memory>
        requires { self.old.operand ≡ None }
        ensures { IfOk result (λ went. machine.IsTaken (machine.step_wanting self.old.stack symbol)
            went (machine.state_of self.new)) }
    {
        match symbol {
            Symbol::Number(operand) => self.operand = Some(operand),
            Symbol::Open => self.open(Frame::Parenthesis)?,
            _ => match unary_of(symbol) {
                Some(op) => self.open(Frame::Unary(op))?,
                None => return Ok(false),
            },
        }
        Ok(true)
    }

    /// Takes `:`, if it belongs to a `?`.
    fn colon(&mut self, operand: Operand) -> Result<bool, Memory>
        ensures { IfOk result (λ went. machine.IsTaken
            (machine.after_colon (machine.reduce 0 self.old.stack operand)) went (machine.state_of
            self.new)) }
    {
        let arm = reduce(&mut self.stack, 0, operand);
        let Some(Frame::Then(condition)) = self.stack.pop() else {
            return Ok(false);
        };
        self.open(Frame::Else(condition, arm))?;
        Ok(true)
    }

    /// Takes `)`, if it belongs to a `(`.
    fn close(&mut self, operand: Operand) -> bool
        ensures { machine.IsTaken (machine.after_close (machine.reduce 0 self.old.stack operand))
            result (machine.state_of self.new) }
    {
        let inner = reduce(&mut self.stack, 0, operand);
        let Some(Frame::Parenthesis) = self.stack.pop() else {
            return false;
        };
        self.operand = Some(inner);
        true
    }

    /// Takes a symbol after an operand, and says whether it may stand there.
    fn take_having(&mut self, operand: Operand, symbol: Symbol) -> Result<bool, Memory>
        ensures { IfOk result (λ went. machine.IsTaken
            (machine.step_having self.old.stack operand symbol) went (machine.state_of self.new)) }
    {
        match symbol {
            Symbol::Operator(op) => {
                let left = reduce(&mut self.stack, level(op), operand);
                self.open(Frame::Binary(op, left))?;
            }
            Symbol::Question => {
                let condition = reduce(&mut self.stack, 1, operand);
                self.open(Frame::Then(condition))?;
            }
            Symbol::Colon => return self.colon(operand),
            Symbol::Close => return Ok(self.close(operand)),
            _ => return Ok(false),
        }
        Ok(true)
    }

    /// Takes a symbol, and says whether it may stand there.
    fn take(&mut self, symbol: Symbol) -> Result<bool, Memory>
        ensures { IfOk result (λ went. machine.IsTaken
            (machine.step (machine.state_of self.old) symbol) went (machine.state_of self.new)) }
    {
        match self.operand {
            None => self.take_wanting(symbol),
            Some(operand) => self.take_having(operand, symbol),
        }
    }

    /// The operand, if the expression may end here.
    fn finish(mut self) -> Option<Operand>
        ensures { result ≡ machine.finished (machine.state_of self) }
    {
        let operand = self.operand?;
        let whole = reduce(&mut self.stack, 0, operand);
        match self.stack.pop() {
            None => Some(whole),
            Some(_) => None,
        }
    }
}

/// What the tokens come to, if they are an expression.
pub(crate) fn read(alloc: Global, tokens: &[PpTok]) -> Result<Option<Operand>, Memory>
    ensures { IfOk result (λ value. value
        ≡ machine.run (machine.want []) (grammar.symbols tokens.now)) }
{
    let mut machine = Machine::new(alloc);
    for token in tokens {
        if !machine.take(classify(token))? {
            return Ok(None);
        }
    }
    Ok(machine.finish())
}
