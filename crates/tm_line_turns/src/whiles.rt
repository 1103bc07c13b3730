//! Lines under rules that each line must hold up, computed by the definitions. `specs/Whiles` has the rules.
//!
//! A block quote begins with `^>` and goes on while `^>` does, whose text is a string. Inside it a rule begins with `\(`
//! and goes on while `\G-` does.
//!
//! | Line | Tokens | Open rules | Steps |
//! |---|---|---|---|
//! | `> (` | comment, regex from 2 | 3 | 7 |
//! | `>-a` | string, regex from 1 | 3 | 8 |
//! | `>a` | string, comment from 1 | 2 | 14 |
//! | `b` | root | 1 | 14 |
ghost use Rattle.std.specs.Prelude.{◌≡◌, ◌∷◌, [], true, false};
ghost use Rattle.tm_line_turns.specs.Groups.{comment, keyword, regex, root, string, token_of};
ghost use Rattle.tm_line_turns.specs.Whiles.{end_in, scopes_in, steps_of, tokens_in};
ghost use Rattle.tm_line_turns.specs.Whiles.{in_comment, in_keyword, in_regex, in_root};
ghost use Rattle.tm_line_turns.specs.Whiles.{again_quote, ahead, at_start, begun_block, begun_quote, held_block, held_quote, lost_block, lost_quote, lost_regex};

/// The four lines at the head of this module.
pub fn worked_quote()
    ensures begins { tokens_in begun_quote [] (62 ∷ 32 ∷ 40 ∷ []) ≡ token_of 0 comment ∷ token_of 2 regex ∷ [] }
    ensures begins_end { end_in begun_quote [] (62 ∷ 32 ∷ 40 ∷ []) ≡ in_root ∷ in_comment ∷ in_regex ∷ [] }
    ensures begins_steps { steps_of begun_quote [] (62 ∷ 32 ∷ 40 ∷ []) ≡ 7 }
    ensures held { tokens_in held_quote (in_root ∷ in_comment ∷ in_regex ∷ []) (62 ∷ 45 ∷ 97 ∷ []) ≡
        token_of 0 string ∷ token_of 1 regex ∷ [] }
    ensures held_end { end_in held_quote (in_root ∷ in_comment ∷ in_regex ∷ []) (62 ∷ 45 ∷ 97 ∷ []) ≡
        in_root ∷ in_comment ∷ in_regex ∷ [] }
    ensures held_steps { steps_of held_quote (in_root ∷ in_comment ∷ in_regex ∷ []) (62 ∷ 45 ∷ 97 ∷ []) ≡ 8 }
    ensures inner { tokens_in lost_regex (in_root ∷ in_comment ∷ in_regex ∷ []) (62 ∷ 97 ∷ []) ≡
        token_of 0 string ∷ token_of 1 comment ∷ [] }
    ensures inner_end { end_in lost_regex (in_root ∷ in_comment ∷ in_regex ∷ []) (62 ∷ 97 ∷ []) ≡ in_root ∷ in_comment ∷ [] }
    ensures inner_steps { steps_of lost_regex (in_root ∷ in_comment ∷ in_regex ∷ []) (62 ∷ 97 ∷ []) ≡ 14 }
    ensures outer { tokens_in lost_quote (in_root ∷ in_comment ∷ []) (98 ∷ []) ≡ token_of 0 root ∷ [] }
    ensures outer_end { end_in lost_quote (in_root ∷ in_comment ∷ []) (98 ∷ []) ≡ in_root ∷ [] }
    ensures outer_steps { steps_of lost_quote (in_root ∷ in_comment ∷ []) (98 ∷ []) ≡ 14 }
{}

/// A block quote alone: `> a`, `> b` and `c`.
pub fn worked_block()
    ensures begins { tokens_in begun_block [] (62 ∷ 32 ∷ 97 ∷ []) ≡ token_of 0 comment ∷ [] }
    ensures begins_end { end_in begun_block [] (62 ∷ 32 ∷ 97 ∷ []) ≡ in_root ∷ in_comment ∷ [] }
    ensures held { tokens_in held_block (in_root ∷ in_comment ∷ []) (62 ∷ 32 ∷ 98 ∷ []) ≡ token_of 0 comment ∷ [] }
    ensures held_end { end_in held_block (in_root ∷ in_comment ∷ []) (62 ∷ 32 ∷ 98 ∷ []) ≡ in_root ∷ in_comment ∷ [] }
    ensures lost { tokens_in lost_block (in_root ∷ in_comment ∷ []) (99 ∷ []) ≡ token_of 0 root ∷ [] }
    ensures lost_end { end_in lost_block (in_root ∷ in_comment ∷ []) (99 ∷ []) ≡ in_root ∷ [] }
    ensures lost_steps { steps_of lost_block (in_root ∷ in_comment ∷ []) (99 ∷ []) ≡ 14 }
{}

/// A rule that is not held up takes all those in it with it, and leaves those around it, with or without a `while`; the
/// outermost rule is not asked.
pub fn worked_loss()
    ensures within { end_in lost_quote (in_root ∷ in_comment ∷ in_keyword (root ∷ comment ∷ keyword ∷ []) false ∷ []) (98 ∷ []) ≡ in_root ∷ [] }
    ensures around { end_in lost_quote (in_root ∷ in_keyword (root ∷ keyword ∷ []) false ∷ in_comment ∷ []) (98 ∷ []) ≡
        in_root ∷ in_keyword (root ∷ keyword ∷ []) false ∷ [] }
    ensures around_steps { steps_of lost_quote (in_root ∷ in_keyword (root ∷ keyword ∷ []) false ∷ in_comment ∷ []) (98 ∷ []) ≡ 7 }
    ensures lowest { end_in lost_quote (in_comment ∷ in_keyword (root ∷ keyword ∷ []) false ∷ []) (98 ∷ []) ≡
        in_comment ∷ in_keyword (root ∷ keyword ∷ []) false ∷ [] }
    ensures lowest_steps { steps_of lost_quote (in_comment ∷ in_keyword (root ∷ keyword ∷ []) false ∷ []) (98 ∷ []) ≡ 0 }
{}

/// The anchor is at first that of the innermost rule, whichever rule is asked; behind a `while` it is there, also behind
/// one that takes no character; the groups of a `while` lie on the content scopes of its rule.
pub fn worked_anchor()
    ensures innermost { end_in at_start (in_root ∷ in_regex ∷ in_keyword (root ∷ keyword ∷ []) true ∷ []) (97 ∷ []) ≡
        in_root ∷ in_regex ∷ in_keyword (root ∷ keyword ∷ []) true ∷ [] }
    ensures without { end_in at_start (in_root ∷ in_regex ∷ in_keyword (root ∷ keyword ∷ []) false ∷ []) (97 ∷ []) ≡ in_root ∷ [] }
    ensures ahead { end_in ahead (in_root ∷ in_comment ∷ in_regex ∷ []) (45 ∷ 97 ∷ []) ≡ in_root ∷ in_comment ∷ in_regex ∷ [] }
    ensures again { tokens_in again_quote (in_root ∷ in_comment ∷ in_keyword (root ∷ comment ∷ regex ∷ []) false ∷ []) (62 ∷ []) ≡ token_of 0 keyword ∷ [] }
    ensures again_scopes { scopes_in again_quote (in_root ∷ in_comment ∷ in_keyword (root ∷ comment ∷ regex ∷ []) false ∷ []) (62 ∷ []) 0 ≡
        root ∷ comment ∷ string ∷ keyword ∷ [] }
    ensures again_steps { steps_of again_quote (in_root ∷ in_comment ∷ in_keyword (root ∷ comment ∷ regex ∷ []) false ∷ []) (62 ∷ []) ≡ 6 }
{}
