//! The search of what is found first in an open rule.
//!
//! All candidates of the rule are one scan over the text. Where its end does not count, or was made at its begin, that
//! stands in the list in place of the rule's own.
ghost use Rattle.std.specs.Prelude.{◌≡◌, ◌≤◌, ◌<◌, ◌^◌, ℕ, List, Option, length, IfOk, option_map};
ghost use Rattle.std.specs.Option.{option_copied};
ghost use Rattle.tm_defs.specs.Tables.{IsFrameOf, frame_at};
ghost use Rattle.tm_onig_class.specs.Tree.{Tree};
ghost use Rattle.tm_onig_scan.specs.Asked.{put_in};
ghost use Rattle.tm_onig_scan.specs.Winner.{earliest_winner, scan_cost, start_of};
ghost use Rattle.tm_patcache.specs.Programs.{tree_in};
ghost use Rattle.tm_rules.specs.Candidates.{flattened_candidates};
ghost use Rattle.tm_line.specs.Search.{end_of, match_of, patterns_in, started, winner_in};
ghost use Rattle.tm_line.specs.inner.Prepared.{StandsIn, end_place, replaced};
ghost use Rattle.tm_line.specs.inner.Searched.{Searches};

use crate::prepared::{Inside, Prepared};
use std::sync::Arc;
use tm_defs::caps::Caps;
use tm_defs::memory::OutOfMemory;
use tm_defs::rules::Rule;
use tm_defs::tables::States;
use tm_defs::tokenizer::LineFault;
use tm_line_parts::rules::Question;
use tm_line_turns::found::{Match, Winner};
use tm_onig_scan::asked::{Asked, Instead};
use tm_onig_vm::fault::FindFault;
use tm_onig_vm::program::{Prog, Room};
use tm_onig_vm::starts::Anchors;
use tm_rules::candidate::Candidate;

/// Start and end of the whole match.
fn whole(caps: &Caps) -> (u32, u32)
    ensures start { result.0 ≡ start_of caps.now }
    ensures end { result.1 ≡ end_of caps.now }
{
    match caps.as_slice() {
        [Some(group), ..] => *group,
        _ => (0, 0),
    }
}

fn match_of(caps: Caps) -> Match
    ensures { result ≡ match_of caps }
{
    let (start, end) = whole(&caps);
    Match {
        start: start as usize,
        end: end as usize,
        groups: caps,
    }
}

/// What the match of the pattern that starts a rule is.
fn started(m: Match, n: u32, rule: Option<&Rule>) -> Winner
    ensures { result ≡ started m n (option_copied rule.entry) }
{
    match rule {
        Some(Rule::Match { .. }) => Winner::Matches(n, m),
        Some(Rule::BeginEnd { .. }) => Winner::Begins(n, m),
        Some(Rule::BeginWhile { .. }) => Winner::Begins(n, m),
        Some(Rule::Only { .. }) => Winner::Nothing,
        None => Winner::Nothing,
    }
}

impl Prepared {
    /// What a scan found, which is that of a candidate by its place.
    fn winner_in(&self, candidates: &[Candidate], won: Option<(u32, Caps)>) -> Winner
        ensures { result ≡ winner_in self.now candidates.now won }
    {
        let Some((place, caps)) = won else {
            return Winner::Nothing;
        };
        let m = match_of(caps);
        match candidates.get(place as usize) {
            Some(Candidate::Start(n)) => started(m, *n, self.rule(*n)),
            Some(Candidate::End) => Winner::Ends(m),
            None => Winner::Nothing,
        }
    }

    /// What stands in place of an open rule's own end: none where that counts, or where the rule has none.
    fn end_instead<S: States>(
        &self,
        table: &S,
        inside: &Inside,
        asked: Question,
    ) -> Result<Option<Option<Arc<Prog>>>, OutOfMemory>
        requires { IsFrameOf (S.tables table.now) asked.frame }
        ensures { let f = frame_at (S.tables table.now) asked.frame in
            IfOk result (λ end. StandsIn self.now f asked.has_end inside.now.end_last (option_map tree_in end)) }
    {
        if inside.end_last.is_none() {
            return Ok(None);
        }
        if !asked.has_end {
            return Ok(Some(None));
        }
        match asked.frame.end {
            Some(text) => Ok(Some(self.ends.get(table.text_of(text))?)),
            None => Ok(None),
        }
    }

    /// What is found first in an open rule.
    pub(crate) fn search<S: States>(
        &self,
        room: &mut Room,
        table: &S,
        text: &[char],
        asked: Question,
        budget: &mut u64,
    ) -> Result<Winner, FindFault>
        requires frame { IsFrameOf (S.tables table.now) asked.frame }
        requires at { asked.at ≤ length text.now }
        requires small { length text.now < 2 ^ 31 }
        ensures { let f = frame_at (S.tables table.now) asked.frame in
            let ps = patterns_in self.now f asked.has_end in
            Searches (winner_in self.now (flattened_candidates self.now f.rule) (earliest_winner text.now asked.at asked.first asked.anchored ps)) (scan_cost text.now asked.at asked.first asked.anchored ps) budget.old budget.new result }
    {
        let rule = asked.frame.rule;
        let Some(inside) = self.inside(rule) else {
            return Ok(Winner::Nothing);
        };
        let end = self.end_instead(table, inside, asked)?;
        let it = Asked {
            text,
            anchors: Anchors {
                first: asked.at,
                allow_a: asked.first,
                allow_g: asked.anchored,
            },
        };
        let won = self.scanner.first_among(
            self.alloc,
            &inside.list,
            instead_of(inside, &end),
            it,
            room,
            budget,
        )?;
        Ok(self.winner_in(self.rules.candidates(rule), won))
    }
}

/// Where the end stands among the candidates of a rule that has one.
fn end_place(inside: &Inside) -> u32
    requires { length inside.now.list.numbers.items < 2 ^ 32 }
    ensures { result ≡ end_place inside.now.end_last (length inside.now.list.numbers.items) }
{
    match inside.end_last {
        Some(true) => {
            let count = inside.list.numbers.len() as u32;
            if count == 0 { 0 } else { count - 1 }
        }
        Some(false) => 0,
        None => 0,
    }
}

/// What stands in the list of a rule for this search, if anything does.
fn instead_of<'a>(inside: &Inside, end: &'a Option<Option<Arc<Prog>>>) -> Option<Instead<'a>>
    requires { length inside.now.list.numbers.items < 2 ^ 32 }
    ensures { (ps : List (Option Tree)) → put_in ps result ≡ replaced ps (end_place inside.now.end_last (length inside.now.list.numbers.items)) (option_map tree_in end.now) }
{
    match end {
        Some(program) => Some(Instead {
            place: end_place(inside),
            program: match program {
                Some(program) => Some(&**program),
                None => None,
            },
        }),
        None => None,
    }
}
