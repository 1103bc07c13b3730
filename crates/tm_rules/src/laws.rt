//! Laws about the definitions, as functions that do nothing.
ghost use Rattle.tm_rules.specs.Laws.{StartsContribute, OpenRulesAreCut, OthersAreFlattened, NumbersArePlaces};

/// Law: what a rule contributes, case by case, without the depth that bounds the recursion.
pub fn flattening_by_cases()
    ensures starts { StartsContribute }
    ensures cut { OpenRulesAreCut }
    ensures others { OthersAreFlattened }
{}

/// Law: as many rules are made of each part of a grammar as are counted before the next one is numbered.
pub fn numbers_are_places()
    ensures { NumbersArePlaces }
{}
