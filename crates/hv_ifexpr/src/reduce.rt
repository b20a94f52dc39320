//! Ending what stands open before an operand.
ghost use Rattle.std.specs.Prelude.{◌≡◌, ◌∷◌, true, IfNone, IfSome};
ghost use Rattle.hv_ifexpr.specs.working.Machine as machine;
ghost use Rattle.hv_plain.specs.declared.controlling.Operand.{Operand as OperandOf};

use crate::frame::Frame;
use hv_base::Stack;
use hv_plain::Operand;

/// Takes the innermost frame off, if it ends before a symbol that makes expressions of this level.
fn pop_ending(stack: &mut Stack<Frame>, level: u8) -> Option<Frame>
    ensures same { IfNone result (stack.new ≡ stack.old) }
    ensures none { IfNone result
        ((v : OperandOf) → machine.reduce level stack.old v ≡ machine.reduced stack.old v) }
    ensures some { IfSome result (λ frame. stack.old ≡ frame ∷ stack.new) }
    ensures ends { IfSome result (λ frame. machine.ends level frame ≡ true) }
{
    let frame = *stack.top()?;
    if !frame.ends(level) {
        return None;
    }
    stack.pop()
}

/// Ends each frame that ends before a symbol that makes expressions of this level, and gives the
/// value of what they make with the operand.
pub(crate) fn reduce(stack: &mut Stack<Frame>, level: u8, operand: Operand) -> Operand
    ensures { machine.reduced stack.new result ≡ machine.reduce level stack.old operand }
{
    let mut operand = operand;
    while let Some(frame) = pop_ending(stack, level) {
        operand = frame.apply(operand);
    }
    operand
}
