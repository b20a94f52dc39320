//! The machine offered step by step.
ghost use Rattle.std.specs.Prelude.{◌≡◌, [], None, Some, List, ℕ, IfOk};
ghost use Rattle.hv_base.specs.declared.place.Place.{Place};
ghost use Rattle.hv_grammar.specs.Elements as elements;
ghost use Rattle.hv_grammar.specs.Symbols as symbols;
ghost use Rattle.hv_grammar.specs.machine.Frames.{State};
ghost use Rattle.hv_grammar.specs.machine.Steps as plain;
ghost use Rattle.hv_cparse.specs.declared.class.Class.TheVariants as classes;
ghost use Rattle.hv_cparse.specs.Control as control;
ghost use Rattle.hv_cparse.specs.working.Steps as steps;
ghost use Rattle.hv_cparse.specs.working.Counts as counts;

use crate::class::Class;
use crate::control::Control;
use crate::frame::{At, Mark, Role, more};
use crate::frames::Frames;
use crate::limits::Limits;
use crate::part::Standing;
use hv_base::{Memory, Why};
use std::alloc::Global;

/// The operators before a token, where the `(` before it may count too.
fn counted_before(operators: usize, mark: Mark) -> Result<usize, Memory>
    ensures { IfOk result (λ n. n ≡ counts.before operators mark) }
{
    if mark.late {
        more(operators, 1)
    } else {
        Ok(operators)
    }
}

/// The operators up to a token of the role and with it.
fn counted_with(operators: usize, role: Role) -> Result<usize, Memory>
    ensures { IfOk result (λ n. n ≡ counts.with_role operators role) }
{
    match role {
        Role::Outside => Ok(0),
        Role::Inside => Ok(operators),
        Role::Operator => more(operators, 1),
    }
}

impl Control {
    /// The control before an expression.
    pub fn start(alloc: Global) -> Control
        ensures state { control.IsControl result.frames result.at (plain.want []) }
        ensures operators { result.operators ≡ 0 }
    {
        Control {
            frames: Frames::new(alloc),
            at: At::Want,
            operators: 0,
        }
    }

    /// The control before an element that stands so.
    pub fn begin(alloc: Global, standing: Standing) -> Control
        ensures state { (s : elements.Standing) → control.standing_of s ≡ standing
            → control.IsControl result.frames result.at (plain.begin s) }
        ensures operators { result.operators ≡ 0 }
    {
        Control {
            frames: Frames::new(alloc),
            at: At::Start(standing),
            operators: 0,
        }
    }

    /// An equal control.
    pub fn copy(&self, alloc: Global) -> Result<Control, Memory>
        ensures { IfOk result (λ copy. copy ≡ self.now) }
    {
        Ok(Control {
            frames: self.frames.copy(alloc)?,
            at: self.at,
            operators: self.operators,
        })
    }

    /// Takes a token within the limits, by the control's own steps.
    fn advance(&mut self, limits: Limits, class: Class) -> Result<Option<Why>, Memory>
        ensures cause { IfOk result (λ why. why ≡ counts.cause (control.limits_of limits)
            self.old.operators (steps.step self.old.frames self.old.at class)) }
        ensures taken { IfOk result (λ why. why ≡ None → counts.Follows self.old.operators
            (steps.step self.old.frames self.old.at class) self.new.frames self.new.at
            self.new.operators) }
    {
        let before = self.operators;
        let Some(mark) = self.step(class)? else {
            return Ok(Some(Why::Syntax));
        };
        let started = counted_before(before, mark)?;
        let counted = counted_with(started, mark.role)?;
        if limits.brackets < mark.depth
            || limits.operators < started
            || limits.operators < counted
        {
            return Ok(Some(Why::TooDeep));
        }
        self.operators = counted;
        Ok(None)
    }

    /// Takes a token of the class within the limits, or says why it is refused. A control that
    /// refused a token is of no further use.
    pub fn take(&mut self, limits: Limits, class: Class) -> Result<Option<Why>, Memory>
        ensures cause { IfOk result (λ why. (m : State) (t : symbols.Token)
            → control.IsControl self.old.frames self.old.at m → control.class_of t.symbol ≡ class
            → why ≡ control.cause (control.limits_of limits) self.old.operators
            (plain.step m t)) }
        ensures taken { IfOk result (λ why. (m : State) (t : symbols.Token)
            → control.IsControl self.old.frames self.old.at m → control.class_of t.symbol ≡ class
            → why ≡ None → control.Follows self.old.operators (plain.step m t) self.new.frames
            self.new.at self.new.operators) }
    {
        self.advance(limits, class)
    }

    /// Whether the control's own step takes a typedef name.
    fn steps_over_type(&self, alloc: Global) -> Result<bool, Memory>
        ensures { IfOk result (λ b. b ≡ steps.is_moved
            (steps.step self.now.frames self.now.at classes.Marked)) }
    {
        let mut copy = self.copy(alloc)?;
        match copy.step(Class::Marked)? {
            Some(_) => Ok(true),
            None => Ok(false),
        }
    }

    /// Whether a typedef name would be a type here.
    #[tactic(auto, using(crate::proofs::Counting::type_taken))]
    pub fn takes_type(&self, alloc: Global) -> Result<bool, Memory>
        ensures { IfOk result (λ b. (m : State) (p : Place) (n : List ℕ)
            → control.IsControl self.now.frames self.now.at m
            → b ≡ control.is_taken (plain.step m (symbols.token_at p (symbols.marked n)))) }
    {
        self.steps_over_type(alloc)
    }

    /// Whether nothing stands open once all has ended that can.
    fn ends(mut self) -> bool
        ensures { result ≡ steps.finished self.frames self.at }
    {
        let At::Have(level) = self.at else {
            return false;
        };
        self.frames.reduce(0, level);
        self.frames.top().is_none()
    }

    /// Whether the tokens may end here.
    #[tactic(auto, using(crate::proofs::Counting::may_end))]
    pub fn finish(self) -> bool
        ensures { (m : State) → control.IsControl self.frames self.at m
            → result ≡ control.is_whole (plain.finished m) }
    {
        self.ends()
    }

    /// Whether nothing is left to be read of an element.
    fn ends_element(&self) -> bool
        ensures { result ≡ steps.element_ended self.now.frames self.now.at }
    {
        match self.at {
            At::Awaiting => self.frames.top().is_none(),
            At::MayElse => true,
            _ => false,
        }
    }

    /// Whether the tokens of an element may end here.
    #[tactic(auto, using(crate::proofs::Counting::element_may_end))]
    pub fn finish_element(&self) -> bool
        ensures { (m : State) → control.IsControl self.now.frames self.now.at m
            → result ≡ control.is_whole (plain.finished_element m) }
    {
        self.ends_element()
    }
}
