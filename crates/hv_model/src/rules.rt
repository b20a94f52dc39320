//! Rules, read from their text.
ghost use Rattle.std.specs.Prelude.{◌≡◌, ℕ, IfNone, IfOk, IfSome};
ghost use Rattle.std.specs.List.{list_all};
ghost use Rattle.hv_model.specs.Grammar.{IsRule};
ghost use Rattle.hv_model.specs.Rule.{Rule, is_about};
ghost use Rattle.hv_model.specs.working.Steps.{fits, rule_of};
ghost use Rattle.hv_model.specs.Token.{tokens};

use crate::code::Code;
use crate::names::Names;
use crate::parser::Parser;
use crate::scan::next_token;
use hv_base::Memory;
use std::alloc::Global;

/// The rule that the text says, where the options have these names, or `None` where it says none.
pub(crate) fn read_rule(alloc: Global, names: &Names, text: &[u8]) -> Result<Option<Code>, Memory>
    ensures rule { IfOk result (λ code. IfSome code
        (λ steps. IsRule names.now (tokens text.now) (rule_of steps))) }
    ensures none { IfOk result (λ code. IfNone code ((r : Rule)
        → IsRule names.now (tokens text.now) r → ⊥)) }
    ensures about { IfOk result (λ code. IfSome code (λ steps. (n : ℕ) → list_all (fits n) steps
        ≡ is_about n (rule_of steps))) }
{
    let mut parser = Parser::new(alloc);
    let mut rest = text;
    while let Some((token, more)) = next_token(rest) {
        if !parser.take(names, token)? {
            return Ok(None);
        }
        rest = more;
    }
    parser.finish()
}
