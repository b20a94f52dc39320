//! Preprocessing in one configuration (ISO/IEC 9899:1999, 6.10), as a definition, and what is
//! proved of it.
#![tactic(auto)]

ghost use Rattle.hv_plainpp.specs.Laws.{OrdinaryText, PlacesDiffer, StartsDiffer, TruthIsDerived};

/// Does nothing. Its contract says that the truth that the definition computes of a controlling
/// expression (6.10.1) is the one that its grammar derives.
pub fn truth_is_derived()
    ensures { TruthIsDerived }
{}

/// Does nothing. Its contract says that a file without directives and without names of macros gives
/// its own tokens, each by itself at its own place.
pub fn ordinary_text_is_kept()
    ensures { OrdinaryText }
{}

/// Does nothing. Its contract says that no two episodes of a configuration are met at one place.
pub fn places_differ()
    ensures { PlacesDiffer }
{}

/// Does nothing. Its contract says that no two tokens of C of a configuration have one place and
/// one index.
pub fn starts_differ()
    ensures { StartsDiffer }
{}
