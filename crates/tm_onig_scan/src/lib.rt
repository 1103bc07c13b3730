//! Searches a line for several patterns at once.
//!
//! A `Scanner` is made of the texts of its patterns, all at once or one after another, and searches lines
//! again and again: of all patterns, or of those of a list of numbers, the one that is found earliest wins,
//! the first in the list on a tie. One pass goes over the starts, and tries at each the patterns in their
//! order, but for those that cannot start there. So the first match wins, and nothing is searched behind it.
//!
//! The patterns `b`, `(`, `ab` and `a` in the line `xab`:
//!
//! | Start | What stands there | May start | Tried | Steps |
//! |---|---|---|---|---|
//! | 0 | `x` | none | | |
//! | 1 | `a` | 2 and 3 | `ab`, which matches from 1 to 3 | 4 |
//!
//! Pattern 2 wins, pattern 1 being unreadable, and the pass takes 4 steps, where the searches of the four
//! patterns one after another, each to its first match, take 4 + 6 + 3 = 13.
#![tactic(auto)]

ghost use Rattle.std.specs.Option.{is_some, option_copied};
ghost use Rattle.std.specs.Prelude.{◌≡◌, ◌↔◌, ◌+◌, ◌++◌, ◌<◌, ◌≤◌, ◌^◌, ◌-◌, ℕ, Bool, List, [], ◌∷◌, Option, length, map, option_map, Some, IsTrue, true, OnOk, OnErr, IfOk, IfSome, IsErrOf, slice_get};
ghost use Rattle.tm_onig_class.specs.Tree.{Tree, tree_of};
ghost use Rattle.tm_onig_parse.specs.Parsed.{parsed};
ghost use Rattle.tm_onig_search.specs.Outcomes.{Caps};
ghost use Rattle.tm_onig_scan.specs.Winner.{trees_of, parsed_if, pattern_at, patterns_at, IsReadable, earliest_winner, scan_cost};
ghost use Rattle.tm_onig_scan.specs.Asked.{put_in};
ghost use Rattle.tm_onig_scan.specs.Pass.{Pass, pass_from};
ghost use Rattle.tm_onig_scan.specs.Rows.{AreCandidates};
ghost use Rattle.tm_onig_scan.specs.Steady.{is_steady};
ghost use Rattle.tm_onig_search.specs.Find.{hit_at};
ghost use Rattle.tm_onig_search.specs.Places.{subject};
ghost use Rattle.tm_onig_scan.specs.WinnerLaws.{IsEarliest, IsWinner};

pub mod asked;
pub mod candidates;
pub mod memo;
mod passes;
mod programs;
mod steady;

use asked::{Asked, Instead};
use candidates::{Candidates, candidates_of};
use passes::{Job, pass};
use programs::program_at;
use std::alloc::Global;
use std::marker::Model;
use tm_defs::caps::Caps;
use tm_defs::memory::OutOfMemory;
use tm_defs::texts::{Line, Name};
use tm_onig_atom::store::Sets;
use tm_onig_parse::{ParseFault, parse_with};
use tm_onig_vm::fault::FindFault;
use tm_onig_vm::program::{Prog, Room, compile, find};
use tm_onig_vm::starts::Anchors;

/// Patterns that are searched together, each with its place in the list as its number. A pattern whose
/// text is unreadable keeps its place and matches nowhere.
#[derive(Drop)]
pub struct Scanner {
    programs: Vec<Option<Prog>>,
}

impl Model for Scanner {
    ghost use Rattle.std.specs.Coded.{codes};
    ghost use Rattle.std.specs.Prelude.{ℕ, List, Option, length, ◌<◌, ◌^◌};
    ghost use Rattle.tm_onig_class.specs.declared.patterns.Pattern.{Pattern};
    ghost use Rattle.tm_onig_class.specs.contracts.patterns.Pattern as pattern;

    ghost Value = { List (Option Pattern) };

    ghost coded = { Prim.hlevel (codes, pattern.the_row.coded) };

    ghost view = { λ scanner. scanner.programs.items };

    ghost invariant = { λ scanner. length scanner.programs.items < 2 ^ 32 };
}

/// The program of a pattern's text; none where the text is no pattern.
fn program_of(alloc: Global, sets: &mut Sets, text: &Name) -> Result<Option<Prog>, OutOfMemory>
    ensures { IfOk result (λ program. option_map tree_of program ≡ parsed text.now) }
{
    match parse_with(alloc, sets, text) {
        Ok(pattern) => {
            let program = compile(alloc, &pattern)?;
            Ok(Some(program))
        }
        Err(ParseFault::Unreadable) => Ok(None),
        Err(ParseFault::OutOfMemory) => Err(OutOfMemory),
    }
}

/// The same where there may be no text.
fn program_if(
    alloc: Global,
    sets: &mut Sets,
    text: Option<&Name>,
) -> Result<Option<Prog>, OutOfMemory>
    ensures { IfOk result (λ program. option_map tree_of program ≡ parsed_if (option_copied text.entry)) }
{
    match text {
        Some(text) => program_of(alloc, sets, text),
        None => Ok(None),
    }
}

/// Whether there is a program.
fn is_program(program: &Option<Prog>) -> bool
    ensures { result ≡ is_some (option_map tree_of program.now) }
{
    match program {
        Some(_) => true,
        None => false,
    }
}

impl Scanner {
    /// A scanner without patterns.
    pub fn new(alloc: Global) -> Self
        ensures { trees_of result ≡ [] }
    {
        Scanner {
            programs: Vec::new(alloc),
        }
    }

    /// Adds the pattern of a text behind the others; where there is no text, a place at which nothing
    /// matches. A pattern beyond 2^32 - 1 is answered as want of memory. After a refusal the scanner is as
    /// before.
    pub fn push(&mut self, alloc: Global, text: Option<&Name>) -> Result<(), OutOfMemory>
        ensures ok { OnOk result (trees_of self.new ≡ trees_of self.old ++ parsed_if (option_copied text.entry) ∷ []) }
        ensures err { OnErr result (self.new ≡ self.old) }
    {
        self.push_with(alloc, &mut Sets::new(alloc), text)?;
        Ok(())
    }

    /// As `push`, with a store of sets that is lent: patterns that are added with one store share the sets that
    /// they name, and their classes. Tells whether the pattern is readable; where there is no text it is not.
    pub fn push_with(
        &mut self,
        alloc: Global,
        sets: &mut Sets,
        text: Option<&Name>,
    ) -> Result<bool, OutOfMemory>
        ensures ok { OnOk result (trees_of self.new ≡ trees_of self.old ++ parsed_if (option_copied text.entry) ∷ []) }
        ensures told { IfOk result (λ readable. readable ≡ is_some (parsed_if (option_copied text.entry))) }
        ensures err { OnErr result (self.new ≡ self.old) }
    {
        if self.programs.len() >= u32::MAX as usize {
            return Err(OutOfMemory);
        }
        let program = program_if(alloc, sets, text)?;
        let readable = is_program(&program);
        self.programs.push(program)?;
        Ok(readable)
    }

    /// A scanner for the patterns of these texts, in this order. A list of 2^32 texts or more is answered
    /// as want of memory.
    pub fn build(alloc: Global, patterns: &[Name]) -> Result<Self, OutOfMemory>
        ensures { IfOk result (λ scanner. trees_of scanner ≡ map parsed patterns.now) }
    {
        let mut scanner = Scanner::new(alloc);
        let mut sets = Sets::new(alloc);
        for text in patterns {
            scanner.push_with(alloc, &mut sets, Some(text))?;
        }
        Ok(scanner)
    }

    /// How many patterns there are, the unreadable ones too.
    pub fn len(&self) -> u32
        ensures { result ≡ length self.now }
    {
        self.programs.len() as u32
    }

    /// Whether the pattern of this number is readable.
    pub fn readable(&self, number: u32) -> bool
        requires { number < length self.now }
        ensures is { IsTrue result ↔ IsReadable (trees_of self.now) number }
        ensures told { result ≡ is_some (pattern_at (trees_of self.now) number) }
    {
        is_program(&self.programs[number as usize])
    }

    /// The list of the patterns of these numbers, ready to be searched again and again: before which characters
    /// each of them may start is found out here. A list of 2^32 numbers or more is answered as want of memory.
    pub fn candidates(&self, alloc: Global, numbers: Vec<u32>) -> Result<Candidates, OutOfMemory>
        ensures numbers { IfOk result (λ made. made.numbers.items ≡ numbers.items) }
        ensures right { IfOk result (λ made. AreCandidates (trees_of self.now) made) }
    {
        if numbers.len() > u32::MAX as usize {
            return Err(OutOfMemory);
        }
        candidates_of(alloc, self.programs.as_slice(), numbers)
    }

    /// The number of the pattern that is found earliest from `from` on, the first in the list on a tie, and
    /// the groups of its match; none where no pattern matches at any start up to the line's end. Positions
    /// are in characters. `allow_a` and `allow_g` say whether `\A` may match at 0 and `\G` at `from`.
    ///
    /// What is tried takes its steps from the budget, and `Budget` comes only where the searches of all patterns,
    /// one after another, cost more than the budget in all.
    pub fn next(
        &self,
        alloc: Global,
        line: &Line,
        from: u32,
        allow_a: bool,
        allow_g: bool,
        budget: &mut u64,
    ) -> Result<Option<(u32, Caps)>, FindFault>
        requires small { length line.now < 2 ^ 31 }
        ensures hit { IfOk result (λ winner. winner ≡ earliest_winner line.now from allow_a allow_g (trees_of self.now)) }
        ensures over { IsErrOf result FindFault.Budget → budget.old < scan_cost line.now from allow_a allow_g (trees_of self.now) }
        ensures falls { (budget.new ≤ budget.old) × (budget.old ≤ budget.new + scan_cost line.now from allow_a allow_g (trees_of self.now)) }
    {
        let anchors = Anchors {
            first: from as usize,
            allow_a,
            allow_g,
        };
        let job = Job {
            alloc,
            programs: self.programs.as_slice(),
            asked: Asked {
                text: line.as_slice(),
                anchors,
            },
        };
        pass(
            &job,
            None,
            None,
            from as usize,
            &mut Room::new(alloc),
            budget,
        )
    }

    /// As `next`, of the pattern of this number alone, which then has the place 0. A number beyond the patterns
    /// is as one whose pattern is unreadable.
    pub fn next_of(
        &self,
        alloc: Global,
        number: u32,
        line: &Line,
        from: u32,
        allow_a: bool,
        allow_g: bool,
        budget: &mut u64,
    ) -> Result<Option<(u32, Caps)>, FindFault>
        requires small { length line.now < 2 ^ 31 }
        ensures hit { let patterns = pattern_at (trees_of self.now) number ∷ [] in
            IfOk result (λ winner. winner ≡ earliest_winner line.now from allow_a allow_g patterns) }
        ensures over { let patterns = pattern_at (trees_of self.now) number ∷ [] in
            IsErrOf result FindFault.Budget → budget.old < scan_cost line.now from allow_a allow_g patterns }
        ensures falls { let patterns = pattern_at (trees_of self.now) number ∷ [] in
            (budget.new ≤ budget.old) × (budget.old ≤ budget.new + scan_cost line.now from allow_a allow_g patterns) }
    {
        let Some(program) = program_at(self.programs.as_slice(), number) else {
            return Ok(None);
        };
        match find(alloc, program, line, from, allow_a, allow_g, budget) {
            Ok(None) => Ok(None),
            Ok(Some(caps)) => Ok(Some((0, caps))),
            Err(fault) => Err(fault),
        }
    }

    /// As `next`, of the candidates alone: the one that is found earliest, the first of them on a tie, with its
    /// place among them. A number beyond the patterns is as one whose pattern is unreadable. The candidates are
    /// those that this scanner made of the patterns that it has.
    pub fn next_among(
        &self,
        alloc: Global,
        candidates: &Candidates,
        line: &Line,
        from: u32,
        allow_a: bool,
        allow_g: bool,
        budget: &mut u64,
    ) -> Result<Option<(u32, Caps)>, FindFault>
        requires candidates { AreCandidates (trees_of self.now) candidates.now }
        requires small { length line.now < 2 ^ 31 }
        ensures hit { let patterns = patterns_at (trees_of self.now) candidates.now.numbers.items in
            IfOk result (λ winner. winner ≡ earliest_winner line.now from allow_a allow_g patterns) }
        ensures over { let patterns = patterns_at (trees_of self.now) candidates.now.numbers.items in
            IsErrOf result FindFault.Budget → budget.old < scan_cost line.now from allow_a allow_g patterns }
        ensures falls { let patterns = patterns_at (trees_of self.now) candidates.now.numbers.items in
            (budget.new ≤ budget.old) × (budget.old ≤ budget.new + scan_cost line.now from allow_a allow_g patterns) }
    {
        let anchors = Anchors {
            first: from as usize,
            allow_a,
            allow_g,
        };
        let asked = Asked {
            text: line.as_slice(),
            anchors,
        };
        self.first_among(
            alloc,
            candidates,
            None,
            asked,
            &mut Room::new(alloc),
            budget,
        )
    }

    /// As `next_among`, in a text that may be a part of a line, with another pattern in place of one of the list,
    /// and in a room that is lent: one that searches have used already takes no memory but for the groups of a
    /// match, which has eight of them without.
    pub fn first_among(
        &self,
        alloc: Global,
        candidates: &Candidates,
        instead: Option<Instead>,
        asked: Asked,
        room: &mut Room,
        budget: &mut u64,
    ) -> Result<Option<(u32, Caps)>, FindFault>
        requires candidates { AreCandidates (trees_of self.now) candidates.now }
        requires small { length asked.text.now < 2 ^ 31 }
        ensures hit { let patterns = put_in (patterns_at (trees_of self.now) candidates.now.numbers.items) instead.entry in
            IfOk result (λ winner. winner ≡ earliest_winner asked.entry.text.now asked.entry.anchors.first asked.entry.anchors.allow_a asked.entry.anchors.allow_g patterns) }
        ensures over { let patterns = put_in (patterns_at (trees_of self.now) candidates.now.numbers.items) instead.entry in
            IsErrOf result FindFault.Budget → budget.old < scan_cost asked.entry.text.now asked.entry.anchors.first asked.entry.anchors.allow_a asked.entry.anchors.allow_g patterns }
        ensures falls { let patterns = put_in (patterns_at (trees_of self.now) candidates.now.numbers.items) instead.entry in
            (budget.new ≤ budget.old) × (budget.old ≤ budget.new + scan_cost asked.entry.text.now asked.entry.anchors.first asked.entry.anchors.allow_a asked.entry.anchors.allow_g patterns) }
    {
        let job = Job {
            alloc,
            programs: self.programs.as_slice(),
            asked,
        };
        pass(
            &job,
            Some(candidates),
            instead,
            asked.anchors.first,
            room,
            budget,
        )
    }
}

/// Law: the winner is found earliest of its patterns, and is the first in the list of those found there; and
/// what is so is the winner.
pub fn earliest_pattern()
    ensures earliest { (line : List ℕ) (from : ℕ) (allow_a allow_g : Bool) (patterns : List (Option Tree)) →
        IsEarliest line from allow_a allow_g patterns }
    ensures only { (line : List ℕ) (from : ℕ) (allow_a allow_g : Bool) (patterns : List (Option Tree)) (winner : ℕ × Caps) →
        IsWinner line from allow_a allow_g patterns winner → earliest_winner line from allow_a allow_g patterns ≡ Some winner }
{}

/// Law: the first match of one pass over the starts is the winner, and the pass makes a part of the attempts
/// that the searches of the patterns make one after another.
#[tactic(auto, using(crate::proofs::Tried::pass_winner, crate::proofs::Tried::pass_cost))]
pub fn one_pass_is_enough()
    ensures winner { (line : List ℕ) (from : ℕ) (allow_a allow_g : Bool) (patterns : List (Option Tree)) →
        (pass_from (subject line from allow_a allow_g) (length line + 1 - from) from patterns).winner ≡ earliest_winner line from allow_a allow_g patterns }
    ensures cost { (line : List ℕ) (from : ℕ) (allow_a allow_g : Bool) (patterns : List (Option Tree)) →
        (pass_from (subject line from allow_a allow_g) (length line + 1 - from) from patterns).cost ≤ scan_cost line from allow_a allow_g patterns }
{}

/// Law: what a pattern without `\A` and `\G` matches at a start is the same wherever the search began.
#[tactic(auto, using(crate::proofs::Elsewhere::hit_alike))]
pub fn prove_steady()
    ensures { (t : Tree) → is_steady t ≡ true → (line : List ℕ) (start first second : ℕ) (allow_a allow_g also_a also_g : Bool) →
        hit_at t line first allow_a allow_g start ≡ hit_at t line second also_a also_g start }
{}

fn crosses<T: Send + Sync>(value: &T) {
    let _value = value;
}

/// Scanners and their lists may cross and be shared between threads.
pub fn scanners_cross(scanner: &Scanner, candidates: &Candidates) {
    crosses(scanner);
    crosses(candidates);
}
