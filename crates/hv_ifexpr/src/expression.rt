//! The truth of a controlling expression.
ghost use Rattle.std.specs.Prelude.{◌≡◌, Some, None, IfErr, IfOk};
ghost use Rattle.hv_ifexpr.specs.working.Answer.{decided};
ghost use Rattle.hv_plain.specs.controlling.Grammar.{IsExpression, IsTruth, Tree, truth};
ghost use Rattle.hv_ifexpr.specs.declared.fault.IfFault.TheVariants.{Bad};

use crate::IfFault;
use crate::machine::read;
use hv_plain::Operand;
use hv_toks::PpTok;
use std::alloc::Global;

/// Whether there is a value and it is other than zero.
fn decide(value: Option<Operand>) -> Result<bool, IfFault>
    ensures { result ≡ decided value }
{
    match value {
        Some(
            Operand {
                is_unsigned: _,
                bits: Some(bits),
            },
        ) => Ok(bits != 0),
        _ => Err(IfFault::Bad),
    }
}

/// Whether the controlling expression of `#if` or `#elif` that these tokens are, after expansion
/// and with each `defined` replaced by `1` or `0`, is true (ISO/IEC 9899:1999, 6.10.1). The answer
/// is `Bad` exactly where they aren't such an expression, or are one without a value. Memory comes
/// from `alloc`.
pub fn evaluate(alloc: Global, tokens: &[PpTok]) -> Result<bool, IfFault>
    ensures ok { IfOk result (IsTruth tokens.now) }
    ensures only { IfOk result (λ b.
        (tree : Tree) → IsExpression tokens.now tree → truth tree ≡ Some b) }
    ensures bad { IfErr result (λ fault.
        fault ≡ Bad → (tree : Tree) → IsExpression tokens.now tree → truth tree ≡ None) }
{
    match read(alloc, tokens) {
        Ok(value) => decide(value),
        Err(_) => Err(IfFault::Memory),
    }
}
