//! Lines whose groups have names or are tokenized again, computed by the definitions. `specs/Groups` has the rules.
//!
//! | Pattern | Line | Tokens |
//! |---|---|---|
//! | `(a)(b)`, group 1 a comment | `ab` | comment, root from 1 |
//! | `a(b+)c`, group 1 tokenized by a rule with the string `b` | `abbc` | root, string from 1, root from 3 |
//! | `a`, a keyword that is tokenized by the root | `a` | keyword, nine times |
ghost use Rattle.std.specs.Prelude.{◌≡◌, ◌∷◌, []};
ghost use Rattle.tm_line_turns.specs.Groups.{comment, keyword, regex, root, string};
ghost use Rattle.tm_line_turns.specs.Groups.{scopes_on, steps_on, token_of, tokens_later, tokens_on};
ghost use Rattle.tm_line_turns.specs.Groups.{crossing_groups, halted_groups, skipped_groups, two_groups};
ghost use Rattle.tm_line_turns.specs.Groups.{deep_group, endless_group, first_group, inner_group, near_group};

/// Groups with names: side by side; with one that is not set and an empty one before; behind a group that starts
/// beyond the match; and crossing, where a layer is left only behind those on it.
pub fn worked_names()
    ensures two { tokens_on two_groups (97 ∷ 98 ∷ []) ≡ token_of 0 comment ∷ token_of 1 root ∷ [] }
    ensures skipped { tokens_on skipped_groups (97 ∷ 98 ∷ 99 ∷ []) ≡ token_of 0 keyword ∷ token_of 1 root ∷ [] }
    ensures halted { tokens_on halted_groups (97 ∷ 98 ∷ 99 ∷ []) ≡ token_of 0 root ∷ [] }
    ensures crossing { tokens_on crossing_groups (97 ∷ 98 ∷ 99 ∷ 100 ∷ []) ≡
        token_of 0 comment ∷ token_of 1 string ∷ token_of 2 keyword ∷ [] }
{}

/// Groups that are tokenized again: each search in them costs as one of the line does; a rule that is open around the
/// match is near in its group; `\A` may match only at the start of the first line, and `\G` nowhere at first; one
/// group within another; and one that is its own rule, which ends by depth, where it has its name once more.
pub fn worked_again()
    ensures inner { tokens_on inner_group (97 ∷ 98 ∷ 98 ∷ 99 ∷ []) ≡
        token_of 0 root ∷ token_of 1 string ∷ token_of 3 root ∷ [] }
    ensures inner_steps { steps_on inner_group (97 ∷ 98 ∷ 98 ∷ 99 ∷ []) ≡ 50 }
    ensures near { tokens_on near_group (97 ∷ 98 ∷ []) ≡ token_of 0 string ∷ token_of 1 comment ∷ [] }
    ensures near_steps { steps_on near_group (97 ∷ 98 ∷ []) ≡ 40 }
    ensures first { tokens_on first_group (97 ∷ 98 ∷ []) ≡ token_of 0 string ∷ token_of 1 comment ∷ [] }
    ensures later { tokens_later first_group (97 ∷ 98 ∷ []) ≡ token_of 0 root ∷ token_of 1 comment ∷ [] }
    ensures deep { tokens_on deep_group (97 ∷ 98 ∷ 99 ∷ []) ≡
        token_of 0 comment ∷ token_of 1 string ∷ token_of 2 comment ∷ [] }
    ensures deep_steps { steps_on deep_group (97 ∷ 98 ∷ 99 ∷ []) ≡ 60 }
    ensures endless { scopes_on endless_group (97 ∷ []) ≡ root ∷ keyword ∷ keyword ∷ keyword ∷ keyword ∷ keyword ∷ keyword ∷ keyword ∷ keyword ∷ keyword ∷ [] }
    ensures endless_steps { steps_on endless_group (97 ∷ []) ≡ 180 }
{}
