//! What is proved of the grammar, each law on a call that does nothing.
ghost use Rattle.hv_grammar.specs.Laws.{AnswersAreRight, ControlDecides, ControlDecidesEnds, ControlDecidesTypes, ControlIsItself, DerivedElementIsAnswered, DerivedIsAnswered, ElementAnswersAreRight, ElementsHaveOneTree, ElementsKeepTokens, ExpressionsHaveOneTree, ExpressionsKeepTokens, MachineIsComplete, MachineIsCompleteOnElements, MachineIsSound, MachineIsSoundOnElements, RefusedElementIsAnswered, RefusedIsAnswered};

/// Does nothing. Its contract says that a tree has exactly the tokens that it was read from.
pub fn keeps_tokens()
    ensures expressions { ExpressionsKeepTokens }
    ensures elements { ElementsKeepTokens }
{}

/// Does nothing. Its contract says that no tokens are two expressions, and no element's own tokens
/// two skeletons.
pub fn has_one_tree()
    ensures expressions { ExpressionsHaveOneTree }
    ensures elements { ElementsHaveOneTree }
{}

/// Does nothing. Its contract says that the parsing machine reads exactly the expressions of the
/// grammar.
pub fn reads_expressions()
    ensures sound { MachineIsSound }
    ensures complete { MachineIsComplete }
{}

/// Does nothing. Its contract says that the parsing machine answers the tree that tokens derive
/// within the limits, or their first refusal, at its token and with its cause.
pub fn answers_rightly()
    ensures exact { AnswersAreRight }
    ensures only { DerivedIsAnswered }
    ensures only_refusal { RefusedIsAnswered }
{}

/// Does nothing. Its contract says that the parsing machine reads exactly the elements of the
/// grammar: external declarations, block items and nested statements, by their own tokens.
pub fn reads_elements()
    ensures sound { MachineIsSoundOnElements }
    ensures complete { MachineIsCompleteOnElements }
{}

/// Does nothing. Its contract says that the parsing machine answers the skeleton that an element's
/// own tokens derive within the limits, or their first refusal, at its token and with its cause.
pub fn answers_elements_rightly()
    ensures exact { ElementAnswersAreRight }
    ensures only { DerivedElementIsAnswered }
    ensures only_refusal { RefusedElementIsAnswered }
{}

/// Does nothing. Its contract says that states of the machine which differ only in what was read
/// take the same tokens, with the same marks, to such states, and may end alike.
pub fn decides_by_control()
    ensures itself { ControlIsItself }
    ensures steps { ControlDecides }
    ensures ends { ControlDecidesEnds }
    ensures types { ControlDecidesTypes }
{}
