//! Cuts source files into preprocessing tokens, in one pass over their bytes.
#![tactic(auto)]

ghost use Rattle.std.specs.Prelude.{◌≡◌, IfOk, IfErr, length};
ghost use Rattle.hv_lexer.specs.Laws.{AreLongest, IsMadeOf, Rise};
ghost use Rattle.hv_lexer.specs.Printed.{ArePrintable, Piece, Restores, spaced};
ghost use Rattle.hv_lexer.specs.Refusal.{IsRefusalOf, Tells};
ghost use Rattle.hv_toks.specs.Cutting.{Cutting, IsCut, tokens};

mod category;
mod cursor;
mod cut;
mod gap;
mod prefix;
mod punctuator;
mod refusal;
mod whole;

use cursor::Cursor;
use hv_base::List;
use hv_toks::PpTok;
pub use refusal::LexRefusal;
use std::alloc::Global;
pub use whole::whole_token;

/// Cuts the file of this number into its preprocessing tokens, or refuses it for a comment that is
/// not closed. Out of memory may be answered at any file.
pub fn lex(alloc: Global, file: u32, bytes: &[u8]) -> Result<List<PpTok>, LexRefusal>
    ensures ok { IfOk result (λ list. IsCut file bytes.now (tokens list)) }
    ensures refused { IfErr result (IsRefusalOf (IsCut file bytes.now)) }
    ensures rising { IfOk result (λ list. Rise file 0 (length bytes.now) list) }
    // what lies between the tokens; when a token has `space` and `first`, and where a header name
    // stands
    ensures made_of { IfOk result (λ list. IsMadeOf list bytes.now) }
    // each token is the longest that starts at its place
    ensures longest { IfOk result (λ list. AreLongest list bytes.now) }
    ensures total { (cutting : Cutting) × IsCut file bytes.now cutting }
    ensures only { (cutting : Cutting) → IsCut file bytes.now cutting → Tells result cutting }
    ensures reads_back { (pieces : List Piece) → ArePrintable pieces → bytes.now ≡ spaced pieces
        → Restores result pieces }
{
    cut::cut(alloc, file, Cursor::new(bytes))
}

#[cfg(test)]
mod tests;
