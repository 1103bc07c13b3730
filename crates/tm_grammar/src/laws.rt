//! Laws about the definitions, as functions that do nothing.
ghost use Rattle.tm_grammar.specs.Rows.{Rows};
ghost use Rattle.tm_grammar.specs.Walk.{IsFirst, AllFit};

/// Law: the wrong path is that of the first value that does not fit in the list of what the walk looks
/// at, and where there is none every value in the list fits.
pub fn wrong_is_first_misfit()
    ensures first { IsFirst }
    ensures none { AllFit }
{}

/// Law: some answers, worked out by the definition.
pub fn worked_answers()
    ensures { Rows }
{}
