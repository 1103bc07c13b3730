//! What a line does to the open rules, and what it paints.
//!
//! A tokenizer goes through a line turn by turn. At each turn it asks the innermost open rule what is
//! found first from its position on. Take a grammar of two rules: inside the root, `(` begins a
//! group and `let` is a keyword; inside a group, `)` ends it. The line `let (x` and its line break
//! then take three turns:
//!
//! | Position | Open rules | Found | Painted |
//! |---|---|---|---|
//! | 0 | root | the match of `let`, 0 to 3 | `let` as root and keyword |
//! | 3 | root | the begin of a group, 4 to 5 | the space as root, `(` as root and group |
//! | 5 | root, group | nothing | `x` and the line break as root and group; the line stops |
//!
//! The open rules behind the line are those with which the next one begins. `specs/LineRun` has a
//! definition for each case, `specs/Laws` says that a line has exactly one outcome, and `specs/Line`
//! says what a whole line gives. How rules are searched is a parameter (`Grammar`, for one text;
//! `Language`, for all), so that every tokenizer of this service means the same by a line.
#![tactic(auto)]

ghost use Rattle.std.specs.Prelude.{◌≡◌, ◌∷◌, [], None, false};
ghost use Rattle.tm_paint.specs.Painted.{runs_of, scopes_at};
ghost use Rattle.tm_line_turns.specs.Example.{example, start, root, keyword, group, depth, token};
ghost use Rattle.tm_line_turns.specs.Language.{FindsInText, GroupsAddNothing, HasNoCaptures, IsRunAtEachDepth, Language};
ghost use Rattle.tm_line_turns.specs.Line.{HoldsUpAll};
ghost use Rattle.tm_line_turns.specs.LineRun.{Grammar, earlier, line_run, opened, plain};
ghost use Rattle.tm_line_turns.specs.Laws.{FindsWithin, IsLineRun};
ghost use Rattle.tm_line_turns.specs.Moves.{IsOrdered};

pub mod captures;
pub mod found;
pub mod groups;
pub mod painter;
mod threads;
pub mod whiles;

/// A line has exactly one outcome: the one that satisfies the equation of its turns.
pub fn one_outcome()
    ensures { (g : Grammar) → FindsWithin g → IsLineRun g }
{}

/// At one position the ends come before any begin, and the begins are at most as many as there are rules.
pub fn turns_at_one_position()
    ensures { (g : Grammar) → FindsWithin g → IsOrdered g }
{}

/// The line at the head of this module, computed by the definitions: its tokens, where the metadata
/// of scopes is how many they are, its open rules, and the steps of its three searches.
pub fn worked_line()
    ensures tokens { let pieces = (line_run example start).part.pieces in
        runs_of (λ o. depth (scopes_at pieces o)) 0 6 ≡ token 0 2 ∷ token 3 1 ∷ token 4 2 ∷ [] }
    ensures stack { (line_run example start).stack ≡
        opened (plain 2 (root ∷ group ∷ []) false) 3 None ∷ earlier (plain 0 (root ∷ []) false) ∷ [] }
    ensures texts { (line_run example start).part.made.texts ≡ keyword ∷ group ∷ [] }
    ensures cost { (line_run example start).part.cost ≡ 30 }
{}

/// So has the text of a group, however deep it lies.
pub fn one_outcome_at_each_depth()
    ensures { (l : Language) → FindsInText l → IsRunAtEachDepth l }
{}

/// Where no rule says anything of a group, lines are those of a grammar in which groups add nothing.
pub fn groups_add_nothing()
    ensures { (l : Language) → HasNoCaptures l → GroupsAddNothing l }
{}

/// Where no open rule has a `while`, a line holds up all of them.
pub fn all_are_held_up()
    ensures { (l : Language) → HoldsUpAll l }
{}
