//! Printed text is read back (ISO/IEC 9899:1999, 5.1.1.2): preprocessing gives the printed tokens
//! again, and those of a program derive its tree.
#![tactic(auto)]

ghost use Rattle.hv_readback.specs.Laws.{PlacesChangeNothingElse, ProgramsAreReadBack, ProgramsAreReadInPlace, SameProgramsHaveSameTokens, TokensAreReadBack};

/// Does nothing. Its contract says that printed tokens are preprocessed to themselves, that a
/// printed program is read as this program, and that other places of tokens change nothing but the
/// places in it.
pub fn is_read_back()
    ensures tokens { TokensAreReadBack }
    ensures programs { ProgramsAreReadBack }
    ensures places { PlacesChangeNothingElse }
    ensures in_place { ProgramsAreReadInPlace }
    ensures same_tokens { SameProgramsHaveSameTokens }
{}
