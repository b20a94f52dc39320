//! Whether tokens are an expression.
ghost use Rattle.std.specs.Prelude.{◌≡◌, IfOk, IfErr, MatchResult};
ghost use Rattle.hv_ctree.specs.tree.Expressions.{Expr as PlainExpr};
ghost use Rattle.hv_grammar.specs.Grammar as grammar;
ghost use Rattle.hv_cparse.specs.Control as control;
ghost use Rattle.hv_cparse.specs.working.Given as given;

use crate::class::class_of;
use crate::control::Control;
use crate::fault::ParseFault;
use crate::limits::Limits;
use hv_base::Why;
use hv_grammar::answers_rightly;
use hv_toks::Classified;
use std::alloc::Global;

/// What the machine answers to the tokens, but for the tree.
fn answered(alloc: Global, limits: Limits, tokens: &[Classified]) -> Result<(), ParseFault>
    ensures { given.IsGiven (control.limits_of limits) (control.tokens_of tokens.now) result }
{
    let mut machine = Control::start(alloc);
    let mut at: usize = 0;
    for token in tokens {
        let class = class_of(&token.tok, token.typedef);
        let Ok(refusal) = machine.take(limits, class) else {
            return Err(ParseFault::Memory);
        };
        if let Some(why) = refusal {
            return Err(ParseFault::Plain { at, why });
        }
        at += 1;
    }
    if machine.finish() {
        Ok(())
    } else {
        Err(ParseFault::Plain {
            at,
            why: Why::Syntax,
        })
    }
}

/// Whether the tokens are an expression within the limits (ISO/IEC 9899:1999, 6.5), or their first
/// refusal. Memory comes from `alloc`.
pub fn check_expression(
    alloc: Global,
    limits: Limits,
    tokens: &[Classified],
) -> Result<(), ParseFault>
    ensures derived { IfOk result (λ _. (tree : PlainExpr) × grammar.DerivesExpression
        (control.limits_of limits) (control.tokens_of tokens.now) tree) }
    ensures refused { IfErr result (λ fault. control.IsRefusal (control.limits_of limits)
        (control.tokens_of tokens.now) fault) }
{
    // What the machine answers is what the grammar says: the contract rests on this law.
    answers_rightly();
    answered(alloc, limits, tokens)
}
