//! A scanner that remembers: one list of patterns in one text, searched again and again.
//!
//! A pass does no work behind its winner, so what it leaves to be remembered is where no match begins: from the
//! start that it was asked for up to the winner's, or up to the text's end. A later search from a start in between
//! goes on at that winner's start at once, or ends at once where there was none. For the patterns `bc` and `c` in
//! `aaabc`:
//!
//! | Asked from | Goes over the starts | Answer | Known then |
//! |---|---|---|---|
//! | 0 | 0, 1, 2, 3 | `bc`, from 3 to 5 | none begins from 0 to 3 |
//! | 2 | 3 | `bc`, from 3 to 5 | none begins from 2 to 3 |
//! | 5 | 5 | none | none begins from 5 to 6 |
//! | 5 | | none | the same |
//!
//! That is true of every search where no pattern of the list has `\A` or `\G`. Of a list with such a pattern nothing
//! is remembered.
ghost use Rattle.std.specs.Prelude.{◌≡◌, ℕ, ◌+◌, ◌<◌, ◌≤◌, ◌^◌, List, Option, length, IfOk, IsErrOf};
ghost use Rattle.tm_onig_class.specs.Tree.{Tree};
ghost use Rattle.tm_onig_scan.specs.Asked.{put_in};
ghost use Rattle.tm_onig_scan.specs.Memo.{sought, until_of};
ghost use Rattle.tm_onig_scan.specs.Rows.{AreCandidates};
ghost use Rattle.tm_onig_scan.specs.Steady.{NoneStarts};
ghost use Rattle.tm_onig_scan.specs.Winner.{trees_of, patterns_at, earliest_winner, scan_cost, start_of};

use crate::Scanner;
use crate::asked::{Asked, Instead};
use crate::candidates::Candidates;
use crate::passes::{Job, pass};
use crate::steady::{all_steady, steady_put};
use std::alloc::Global;
use std::marker::Model;
use tm_defs::caps::Caps;
use tm_defs::texts::Line;
use tm_onig_vm::fault::FindFault;
use tm_onig_vm::program::{Prog, Room};
use tm_onig_vm::starts::Anchors;

/// A list of patterns in one text, and between which starts none of them matches. Contracts see the patterns and
/// the text.
#[derive(Drop)]
pub struct Memo<'a> {
    programs: &'a [Option<Prog>],
    list: Option<&'a Candidates>,
    instead: Option<Instead<'a>>,
    text: &'a [char],
    steady: bool,
    from: usize,
    until: usize,
}

impl<'a> Model for Memo<'a> {
    ghost use Rattle.std.specs.Coded.{codes};
    ghost use Rattle.tm_onig_class.specs.contracts.patterns.Pattern as pattern;
    ghost use Rattle.tm_onig_scan.specs.Memo.{MemoOf};

    ghost Value = { MemoOf };

    ghost coded = { Prim.hlevel (codes, pattern.the_row.coded) };

    ghost use Rattle.tm_onig_scan.specs.inner.MemoView.{memo_of, IsMemo};

    ghost view = { memo_of };

    ghost invariant = { IsMemo };
}

/// The first start from this one on where a match may begin, where none begins from `known` to `until`.
fn first_start(from: usize, known: usize, until: usize) -> usize
    ensures later { from ≤ result }
    ensures none { (line : List ℕ) (patterns : List (Option Tree)) → NoneStarts line patterns known until → NoneStarts line patterns from result }
{
    if known <= from { from.max(until) } else { from }
}

/// Where a match starts, in characters.
fn start_of(caps: &Caps) -> usize
    ensures { result ≡ start_of caps.now }
{
    match caps.as_slice().first() {
        Some(Some(span)) => span.0 as usize,
        _ => 0,
    }
}

/// Up to which start no match begins: that of the winner, and where there is none all of the text.
fn until_of(found: &Option<(u32, Caps)>, length: usize) -> usize
    requires small { length < 2 ^ 31 }
    ensures { result ≡ until_of found.now length }
{
    match found {
        Some(won) => start_of(&won.1),
        None => length + 1,
    }
}

impl<'a> Memo<'a> {
    /// Of all patterns of a scanner, in a line. Whether `\A` or `\G` stands in one of them is found out here.
    pub fn new(scanner: &'a Scanner, line: &'a Line) -> Memo<'a>
        requires small { length line.now < 2 ^ 31 }
        ensures sought { sought result ≡ trees_of scanner.now }
        ensures text { result.text ≡ line.now }
    {
        let programs = scanner.programs.as_slice();
        Memo {
            programs,
            list: None,
            instead: None,
            text: line.as_slice(),
            steady: all_steady(programs),
            from: 0,
            until: 0,
        }
    }

    /// Of a list that this scanner made, with another pattern in place of one of the list, in a text that may be
    /// a part of a line.
    pub fn among(
        scanner: &'a Scanner,
        candidates: &'a Candidates,
        instead: Option<Instead<'a>>,
        text: &'a [char],
    ) -> Memo<'a>
        requires candidates { AreCandidates (trees_of scanner.now) candidates.now }
        requires small { length text.now < 2 ^ 31 }
        ensures sought { sought result ≡ put_in (patterns_at (trees_of scanner.now) candidates.now.numbers.items) instead.entry }
        ensures text { result.text ≡ text.now }
    {
        Memo {
            programs: scanner.programs.as_slice(),
            list: Some(candidates),
            instead,
            text,
            steady: candidates.steady && steady_put(instead),
            from: 0,
            until: 0,
        }
    }

    /// As `Scanner::next`, of the patterns of this memo in its text.
    pub fn next(
        &mut self,
        alloc: Global,
        from: u32,
        allow_a: bool,
        allow_g: bool,
        budget: &mut u64,
    ) -> Result<Option<(u32, Caps)>, FindFault>
        ensures kept { self.new ≡ self.old }
        ensures hit { IfOk result (λ winner. winner ≡ earliest_winner self.old.text from allow_a allow_g (sought self.old)) }
        ensures over { IsErrOf result FindFault.Budget → budget.old < scan_cost self.old.text from allow_a allow_g (sought self.old) }
        ensures falls { (budget.new ≤ budget.old) × (budget.old ≤ budget.new + scan_cost self.old.text from allow_a allow_g (sought self.old)) }
    {
        let anchors = Anchors {
            first: from as usize,
            allow_a,
            allow_g,
        };
        self.first(alloc, anchors, &mut Room::new(alloc), budget)
    }

    /// As `Scanner::first_among`, of the patterns of this memo in its text.
    pub fn first(
        &mut self,
        alloc: Global,
        anchors: Anchors,
        room: &mut Room,
        budget: &mut u64,
    ) -> Result<Option<(u32, Caps)>, FindFault>
        ensures kept { self.new ≡ self.old }
        ensures hit { IfOk result (λ winner. winner ≡ earliest_winner self.old.text anchors.first anchors.allow_a anchors.allow_g (sought self.old)) }
        ensures over { IsErrOf result FindFault.Budget → budget.old < scan_cost self.old.text anchors.first anchors.allow_a anchors.allow_g (sought self.old) }
        ensures falls { (budget.new ≤ budget.old) × (budget.old ≤ budget.new + scan_cost self.old.text anchors.first anchors.allow_a anchors.allow_g (sought self.old)) }
    {
        let begin = first_start(anchors.first, self.from, self.until);
        let job = Job {
            alloc,
            programs: self.programs,
            asked: Asked {
                text: self.text,
                anchors,
            },
        };
        match pass(&job, self.list, self.instead, begin, room, budget) {
            Ok(found) => {
                if self.steady {
                    self.from = anchors.first;
                    self.until = until_of(&found, self.text.len());
                }
                Ok(found)
            }
            Err(fault) => Err(fault),
        }
    }
}
