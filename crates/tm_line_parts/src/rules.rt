//! What a line asks of its rules, and what it is tokenized with.
ghost use Rattle.std.specs.Prelude.{◌≡◌, ◌<◌, ◌≤◌, ◌^◌, length, IfOk, IfErr, ⊤};
ghost use Rattle.std.specs.Option.{MatchOption};
ghost use Rattle.tm_defs.specs.Tables.{IsFrameOf, frame_at, none_made, path_at};
ghost use Rattle.tm_defs.specs.Tokenizer.{IsLineCause};
ghost use Rattle.tm_line_turns.specs.Laws.{IsMatchWithin, IsWinnerWithin};
ghost use Rattle.tm_line_turns.specs.declared.found.Match.{Match};
ghost use Rattle.tm_line_parts.specs.Adds.{Spends};

use std::alloc::Global;
use tm_defs::frames::{Frame, ScopeList};
use tm_defs::memory::OutOfMemory;
use tm_defs::tables::States;
use tm_defs::texts::{Name, ScopePath};
use tm_defs::tokenizer::LineFault;
use tm_line_turns::captures::GroupRule;
use tm_line_turns::found::{Match, Whose, Winner};
use tm_line_turns::painter::Painted;

/// What is asked at a turn: what the innermost rule, whose frame this is, finds first from a position on, in
/// characters. Its end counts where a rule is open around it, `\A` may match where `first` says so, and `\G`
/// where `anchored` does.
#[derive(Clone, Copy, Debug, PartialEq, Eq)]
pub struct Question {
    pub frame: Frame,
    pub has_end: bool,
    pub at: usize,
    pub first: bool,
    pub anchored: bool,
}

/// What is asked of a rule that a line must hold up, whose frame this is: what its `while` finds from a position
/// on, in characters. `\A` may match where `first` says so, and `\G` where `anchored` does.
#[derive(Clone, Copy, Debug, PartialEq, Eq)]
pub struct WhileQuestion {
    pub frame: Frame,
    pub at: usize,
    pub first: bool,
    pub anchored: bool,
}

/// Rules by number, as a line asks them.
pub trait LineRules {
    /// What a line keeps for its searches.
    type Room: Drop;

    ghost use Rattle.std.specs.Prelude.{List, ℕ};
    ghost use Rattle.tm_defs.specs.Tables.{GrowsWithin, TableEntries, Tables};
    ghost use Rattle.tm_line_turns.specs.Language.{FindsInText, Language};

    /// What they say of every text.
    ghost language: { Self → Language };

    /// What is kept is right for these rules, a table and a text.
    ghost Fits: { Self → Tables → List ℕ → Self.Room → Type 0 };

    /// What is found first. `Budget` comes only where the searches cost more than the budget.
    fn winner<S: States>(
        &self,
        room: &mut Self::Room,
        table: &S,
        text: &[char],
        asked: Question,
        budget: &mut u64,
    ) -> Result<Winner, LineFault>
        requires frame { IsFrameOf (S.tables table.now) asked.frame }
        requires at { asked.at ≤ length text.now }
        requires small { length text.now < 2 ^ 31 }
        requires room { Fits self.now (S.tables table.now) text.now room.old }
        ensures found { IfOk result (λ w. w ≡ (language self.now).winner text.now (frame_at (S.tables table.now) asked.frame) asked.has_end asked.at asked.first asked.anchored) }
        ensures within { IfOk result (IsWinnerWithin (language self.now).rules (length text.now)) }
        ensures spends { Spends ((language self.now).cost text.now (frame_at (S.tables table.now) asked.frame) asked.has_end asked.at asked.first asked.anchored) budget.old budget.new }
        ensures cause { IfErr result (IsLineCause budget.old ((language self.now).cost text.now (frame_at (S.tables table.now) asked.frame) asked.has_end asked.at asked.first asked.anchored) none_made (S.tables table.now)) }
        ensures room { Fits self.now (S.tables table.now) text.now room.new };

    /// The names that a rule pushes, where they are the same for every match.
    fn fixed_names(&self, rule: u32) -> Option<&ScopePath>
        ensures { MatchOption result ⊤ (λ names. (text : List ℕ) (m : Match) → names.now ≡ (language self.now).names text rule m) };

    /// The names that a rule pushes for a match.
    fn names(&self, text: &[char], rule: u32, m: &Match) -> Result<ScopePath, OutOfMemory>
        requires { IsMatchWithin (length text.now) m.now }
        ensures { IfOk result (λ names. names ≡ (language self.now).names text.now rule m.now) };

    /// Those that it pushes for what is inside it alone, where they are the same for every match.
    fn fixed_content_names(&self, rule: u32) -> Option<&ScopePath>
        ensures { MatchOption result ⊤ (λ names. (text : List ℕ) (m : Match) → names.now ≡ (language self.now).content_names text rule m) };

    /// Those that it pushes for what is inside it alone.
    fn content_names(&self, text: &[char], rule: u32, m: &Match) -> Result<ScopePath, OutOfMemory>
        requires { IsMatchWithin (length text.now) m.now }
        ensures { IfOk result (λ names. names ≡ (language self.now).content_names text.now rule m.now) };

    /// The text that ends it, where that depends on what its begin captured.
    fn end_text(&self, text: &[char], rule: u32, m: &Match) -> Result<Option<Name>, OutOfMemory>
        requires { IsMatchWithin (length text.now) m.now }
        ensures { IfOk result (λ end. end ≡ (language self.now).end_text text.now rule m.now) };

    /// What a rule says of the groups of one of its patterns, in the order in which they are walked.
    fn captures(&self, whose: Whose, rule: u32) -> &[GroupRule]
        ensures { result.now ≡ (language self.now).captures whose rule };

    /// The names that a text gives with what a match captured.
    fn filled(&self, text: &[char], m: &Match, template: &Name) -> Result<ScopePath, OutOfMemory>
        requires { IsMatchWithin (length text.now) m.now }
        ensures { IfOk result (λ names. names ≡ (language self.now).filled text.now m.now template.now) };

    /// Whether a rule has a `while`, by which each later line must hold it up.
    fn has_while(&self, rule: u32) -> bool
        ensures { result ≡ (language self.now).has_while rule };

    /// What its `while` finds. `Budget` comes only where the search costs more than the budget.
    fn while_match<S: States>(
        &self,
        room: &mut Self::Room,
        table: &S,
        text: &[char],
        asked: WhileQuestion,
        budget: &mut u64,
    ) -> Result<Option<Match>, LineFault>
        requires frame { IsFrameOf (S.tables table.now) asked.frame }
        requires at { asked.at ≤ length text.now }
        requires small { length text.now < 2 ^ 31 }
        requires room { Fits self.now (S.tables table.now) text.now room.old }
        ensures found { IfOk result (λ found. found ≡ (language self.now).while_match text.now (frame_at (S.tables table.now) asked.frame) asked.at asked.first asked.anchored) }
        ensures within { IfOk result (λ found. MatchOption found ⊤ (IsMatchWithin (length text.now))) }
        ensures spends { Spends ((language self.now).while_cost text.now (frame_at (S.tables table.now) asked.frame) asked.at asked.first asked.anchored) budget.old budget.new }
        ensures cause { IfErr result (IsLineCause budget.old ((language self.now).while_cost text.now (frame_at (S.tables table.now) asked.frame) asked.at asked.first asked.anchored) none_made (S.tables table.now)) }
        ensures room { Fits self.now (S.tables table.now) text.now room.new };

    /// A room for the text of a group.
    fn inner_room(&self, text: &[char]) -> Result<Self::Room, OutOfMemory>
        ensures { (t : Tables) → IfOk result (Fits self.now t text.now) };

    /// The 32-bit metadata of a scope list.
    fn meta<S: States>(&self, table: &S, list: ScopeList) -> u32
        requires { list.0 < length (S.tables table.now).paths }
        ensures { result ≡ (language self.now).meta (path_at (S.tables table.now) list) };

    /// What is found lies in the text.
    ghost finds: { (x : Self) → FindsInText (language x) };

    /// What is kept is right still where the table has grown.
    ghost keeps: { (x : Self) (made : TableEntries) (t u : Tables) (text : List ℕ) (room : Self.Room) → GrowsWithin made t u → Fits x t text room → Fits x u text room };
}

/// What a line is tokenized with: the rules, and the text with its line break.
#[derive(Drop)]
pub struct Job<'a, R: LineRules> {
    pub alloc: Global,
    pub rules: &'a R,
    pub text: &'a [char],
}

/// What does not change in a run: the rules, the text, and how many times its groups may be tokenized again one
/// within the other.
#[derive(Drop)]
pub struct Level<'a, R: LineRules> {
    pub alloc: Global,
    pub rules: &'a R,
    pub text: &'a [char],
    pub depth: u32,
}

/// What a line adds to: its pieces, and the budget that is left, in steps.
#[derive(Drop)]
pub struct Out {
    pub pieces: Vec<Painted>,
    pub budget: u64,
}
