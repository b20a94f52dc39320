//! What is proved of printed trees, each law on a call that does nothing.
ghost use Rattle.hv_print.specs.Laws.{ExpressionsAreTheirTokens, ProgramsAreTheirTokens, ProgramsKeepTokens};

/// Does nothing. Its contract says that the tokens of a program's tree are those that it was read
/// from, and that C tokens that derive an expression or a program are the C tokens of its tree:
/// what is printed has the same derivation again.
pub fn keeps_tokens()
    ensures programs { ProgramsKeepTokens }
    ensures expressions_back { ExpressionsAreTheirTokens }
    ensures programs_back { ProgramsAreTheirTokens }
{}
