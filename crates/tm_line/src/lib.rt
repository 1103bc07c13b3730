//! A tokenizer of rules of patterns, one scan after another.
//!
//! A line is tokenized turn by turn, as `tm_line_turns` defines it, by `tm_line_parts`; this crate says what its rules find
//! and push (`rules`). At each turn all candidates of the innermost open rule, its end among them, are one scan
//! (`search`), over a list that was made when the setting was (`prepared`). Each scan takes its steps from the line's budget.
//!
//! Take a rule 1 that matches `[0-9]` as string.t, and a rule 2 from `/*` to `*/` as comment.t with
//! digits in it. The line `1 /*2` takes four turns, where all candidates of the open rule are searched:
//!
//! | From | `[0-9]` | `/*` or `*/` | Found | Steps |
//! |---|---|---|---|---|
//! | 0, in the root | 0 to 1 | 2 to 4 | the digit | 2 + 8 |
//! | 1, in the root | 4 to 5 | 2 to 4 | the comment's begin | 5 + 6 |
//! | 4, in the comment | 4 to 5 | none | the digit | 2 + 6 |
//! | 5, in the comment | none | none | nothing: the line stops | 2 + 4 |
//!
//! A start at which the search fails takes 1 step for the digit, and 2 for a row of two letters.
#![tactic(auto)]

ghost use Rattle.std.specs.Prelude.{◌≡◌, ℕ, true, false, List};
ghost use Rattle.tm_line.specs.Groups.{IsNamedByTemplate};
ghost use Rattle.tm_line_turns.specs.declared.found.Match.{Match};
ghost use Rattle.tm_line_turns.specs.Language.{IsRunAtEachDepth};
ghost use Rattle.tm_defs.specs.declared.rules.Rule.{Rule};
ghost use Rattle.tm_onig_scan.specs.Winner.{earliest_winner, scan_cost};
ghost use Rattle.tm_line.specs.Example.{found_at, patterns, text};
ghost use Rattle.tm_line.specs.Grammar.{rules_language};

mod groups;
mod names;
pub mod prepared;
mod rules;
mod search;
mod texts;
mod threads;
pub mod tokenizer;

/// A line has exactly one outcome, whatever its rules.
pub fn one_outcome()
    ensures { (rules : List Rule) → IsRunAtEachDepth (rules_language rules) }
{}

/// The name of a group pushes what its template gives at the match, also where its words were found once for all matches.
pub fn groups_are_named()
    ensures { (template text : List ℕ) (m : Match) → IsNamedByTemplate template text m }
{}

/// The first two turns of the table at the head of this module, computed by the definitions.
pub fn worked_searches()
    ensures first { earliest_winner text 0 true false patterns ≡ found_at 0 0 1 }
    ensures first_cost { scan_cost text 0 true false patterns ≡ 10 }
    ensures next { earliest_winner text 1 false false patterns ≡ found_at 1 2 4 }
    ensures next_cost { scan_cost text 1 false false patterns ≡ 11 }
{}
