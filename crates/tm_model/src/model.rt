//! The model of a text: its lines, and what is kept of each.
ghost use Rattle.std.specs.Prelude.{◌≡◌, ℕ, suc, ◌+◌, ◌<◌, ◌≤◌, ◌-◌, ◌^◌, IsTrue, IfOk, IfErr, IfSome, OnOk, OnErr, MatchOption, List, Some, None, true, length, slice_get};
ghost use Rattle.std.specs.Arc.{arc_value};
ghost use Rattle.tm_defs.specs.Tables.{IsNumbering};
ghost use Rattle.tm_defs.specs.declared.frames.FrameData.{FrameData};
ghost use Rattle.tm_machine.specs.declared.entries.Entry.{Entry};
ghost use Rattle.tm_machine.specs.Documents.{CanEdit};
ghost use Rattle.tm_machine.specs.Entries.{front, is_accurate, AreAccurate, IsFromScratch};
ghost use Rattle.tm_machine.specs.Turns.{Turns, Forces, IsBlockedFront, IsRun, turn_ticks};
ghost use Rattle.tm_machine.specs.Reach.{GrowsByLines};
ghost use Rattle.tm_text.specs.Texts.{IsText};
ghost use Rattle.tm_model.specs.Held.{Held, IsSound, document, new_model, changed_model, set_model, setting_now, IsChangeCause};
ghost use Rattle.tm_machine.specs.Numbered.{with_state, GrowsAtFront, IsTurnCause};

use std::alloc::Global;
use std::sync::Arc;
use std::sync::ledger::Ledger;
use tm_defs::changes::{Change, ChangeFault};
use tm_defs::events::Turn;
use tm_defs::frames::StateId;
use tm_defs::memory::OutOfMemory;
use tm_defs::steps::Steps;
use tm_defs::tables::TableFault;
use tm_defs::texts::Line;
use tm_defs::tokenizer::LineTok;
use tm_document::document::Document;
use tm_machine::entries::Entry;
use tm_state::states::StateTable;
use tm_text::text::Text;

/// The version behind which no change is taken.
pub const LAST_VERSION: u32 = 0x7fff_ffff;

/// What a run of lines did: how many lines were done, and the line at which the run ended early since it costs more
/// than the budget.
#[derive(Clone, Copy, Debug, PartialEq, Eq)]
pub struct Forced {
    pub done: u32,
    pub blocked: Option<u32>,
}

/// A text that is tokenized line by line, by one setting of a list. Lines count from 0; `budget` is in steps of plain
/// search a line; the epoch is the number of the setting.
#[derive(Drop)]
pub struct Model<'a, T: LineTok> {
    document: Document<'a, T>,
}

impl<'a, T: LineTok> std::marker::Model for Model<'a, T> {
    ghost use Rattle.std.specs.Prelude.{◌≤◌};
    ghost use Rattle.tm_machine.specs.Documents.{last_version};
    ghost use Rattle.tm_model.specs.Held.{Held};

    ghost Value = { Held T };

    ghost view = { λ a. a.document };

    ghost invariant = { λ a. a.document.version ≤ last_version };
}

impl<'a, T: LineTok> Model<'a, T> {
    /// A model of a text of which no line is done, at version 0 and by setting 0. Each table of the numbering holds up
    /// to `limit` entries.
    pub fn new(
        alloc: Global,
        settings: &'a [T],
        budget: u64,
        limit: u32,
        text: Text,
    ) -> Result<Self, OutOfMemory>
        requires settings { 0 < length settings.now }
        requires limit { 0 < limit }
        ensures { IfOk result (λ model. model ≡ new_model settings.entry.now budget limit text.lines) }
    {
        let document = Document::new(alloc, settings, budget, limit, text)?;
        Ok(Model { document })
    }

    /// How many lines the text has.
    pub fn len(&self) -> u32
        ensures { result ≡ length self.now.lines }
    {
        self.document.len()
    }

    /// How often the text was changed.
    pub fn version(&self) -> u32
        ensures { result ≡ self.now.version }
    {
        self.document.version()
    }

    /// The number of the setting.
    pub fn epoch(&self) -> u32
        ensures { result ≡ self.now.epoch }
    {
        self.document.epoch()
    }

    /// The first line that is not good. A line is accurate exactly where it stands before it.
    pub fn front(&self) -> Option<u32>
        ensures { result ≡ front self.now.entries }
    {
        self.document.front()
    }

    /// Whether every line up to this one is good. What is stored of it is then what tokenizing the text from its first
    /// line gives.
    pub fn accurate(&self, i: u32) -> bool
        requires { i < length self.now.lines }
        ensures value { result ≡ is_accurate self.now.entries i }
        ensures right { IsTrue result → IsFromScratch (setting_now T.plain T.tokenized T.plain_cost T.entries_made self.now) self.now.lines self.now.entries i }
    {
        self.document.accurate(i)
    }

    /// What is kept of a line.
    pub fn entry(&self, i: u32) -> &Entry<StateId>
        requires { i < length self.now.lines }
        ensures { slice_get self.now.entries i ≡ Some (with_state self.now.tables result.now) }
    {
        self.document.entry(i)
    }

    /// The characters of a line.
    pub fn line_text(&self, i: u32) -> &Arc<Line>
        requires { i < length self.now.lines }
        ensures { slice_get self.now.lines i ≡ Some (arc_value result.now) }
    {
        self.document.line_text(i)
    }

    /// The table in which the ends of entries are numbers.
    pub fn table(&self) -> &StateTable
        ensures { result.now ≡ self.now.tables }
    {
        self.document.table()
    }

    /// Hands the invariant to callers: it does nothing.
    pub fn prove_sound(&self)
        ensures sound { IsSound T.plain T.tokenized T.plain_cost T.entries_made self.now }
        ensures accurate { AreAccurate (setting_now T.plain T.tokenized T.plain_cost T.entries_made self.now) self.now.lines self.now.entries }
        ensures numbered { IsNumbering self.now.tables }
        ensures text { IsText self.now.lines }
    {
        self.document.prove_sound();
    }

    /// Takes another setting, by which nothing is known of a line. The text and the tables stay. It takes no memory.
    pub fn setting(&mut self, number: u32)
        requires { number < length self.old.settings }
        ensures { self.new ≡ set_model self.old number }
    {
        self.document.setting(number);
    }

    /// Tokenizes the first line that is not good. `Blocked` comes where it costs more than the budget, and then at each
    /// call until the line, or the end before it, changes. After a refusal the entries are as before; the tables may
    /// have grown by what the line makes.
    pub fn line<L: Ledger>(&mut self, steps: &mut Steps<L>) -> Result<Turn, TableFault>
        ensures turn { IfOk result (λ turn. Turns (setting_now T.plain T.tokenized T.plain_cost T.entries_made self.old) self.old.budget self.old.lines self.old.entries turn self.new.entries) }
        ensures others { self.new ≡ record self.old { entries = self.new.entries; tables = self.new.tables } }
        ensures grows { GrowsAtFront (setting_now T.plain T.tokenized T.plain_cost T.entries_made self.old) self.old.lines self.old.entries self.old.tables self.new.tables }
        ensures err { OnErr result (self.new.entries ≡ self.old.entries) }
        ensures cause { IfErr result (IsTurnCause (setting_now T.plain T.tokenized T.plain_cost T.entries_made self.old) self.old.lines self.old.entries self.new.tables) }
        ensures ticks { steps.new ≡ steps.old + turn_ticks self.old.entries }
    {
        self.document.line(steps)
    }

    /// A turn on this line, which is the front.
    fn turn_at<L: Ledger>(&mut self, i: u32, steps: &mut Steps<L>) -> Result<Turn, TableFault>
        requires { front self.old.entries ≡ Some i }
        ensures turn { IfOk result (λ turn. Turns (setting_now T.plain T.tokenized T.plain_cost T.entries_made self.old) self.old.budget self.old.lines self.old.entries turn self.new.entries) }
        ensures others { self.new ≡ record self.old { entries = self.new.entries; tables = self.new.tables } }
        ensures grows { GrowsAtFront (setting_now T.plain T.tokenized T.plain_cost T.entries_made self.old) self.old.lines self.old.entries self.old.tables self.new.tables }
        ensures err { OnErr result (self.new.entries ≡ self.old.entries) }
        ensures cause { IfErr result (IsTurnCause (setting_now T.plain T.tokenized T.plain_cost T.entries_made self.old) self.old.lines self.old.entries self.new.tables) }
        ensures ticks { steps.new ≡ steps.old + turn_ticks self.old.entries }
    {
        self.document.turn_at(i, steps)
    }

    /// The front, where it does not stand behind this line.
    fn front_to(&self, last: u32) -> Option<u32>
        ensures { MatchOption result (is_accurate self.now.entries last ≡ true) (λ i. (front self.now.entries ≡ Some i) × (i ≤ last)) }
    {
        match self.front() {
            Some(i) => if i <= last { Some(i) } else { None },
            None => None,
        }
    }

    /// Tokenizes line after line, from the first that is not good on, until every line up to this one is good or one
    /// costs more than the budget. No line is done twice, and good lines between them are not looked at. After a refusal
    /// the lines that were done stay done.
    pub fn force<L: Ledger>(
        &mut self,
        line: u32,
        steps: &mut Steps<L>,
    ) -> Result<Forced, TableFault>
        requires { line < length self.old.lines }
        ensures forced { IfOk result (λ forced. Forces (setting_now T.plain T.tokenized T.plain_cost T.entries_made self.old) self.old.budget self.old.lines line self.old.entries forced.done forced.blocked self.new.entries) }
        ensures ticks { IfOk result (λ forced. (behind : List (Entry (List FrameData))) × IsRun (setting_now T.plain T.tokenized T.plain_cost T.entries_made self.old) self.old.budget self.old.lines line self.old.entries forced.done steps.old steps.new behind) }
        ensures refused { OnErr result ((count : ℕ) × IsRun (setting_now T.plain T.tokenized T.plain_cost T.entries_made self.old) self.old.budget self.old.lines line self.old.entries count steps.old steps.new self.new.entries) }
        ensures others { self.new ≡ record self.old { entries = self.new.entries; tables = self.new.tables } }
        ensures grows { GrowsByLines (setting_now T.plain T.tokenized T.plain_cost T.entries_made self.old) self.old.lines self.old.tables self.new.tables }
        ensures cause { IfErr result (IsTurnCause (setting_now T.plain T.tokenized T.plain_cost T.entries_made self.old) self.old.lines self.new.entries self.new.tables) }
        ensures accurate { IfOk result (λ forced. forced.blocked ≡ None → is_accurate self.new.entries line ≡ true) }
        ensures blocked { IfOk result (λ forced. IfSome forced.blocked (λ i. (i ≤ line) × IsBlockedFront (setting_now T.plain T.tokenized T.plain_cost T.entries_made self.old) self.old.budget self.old.lines self.new.entries i)) }
    {
        self.prove_sound();
        let mut done = 0;
        'lines: while let Some(i) = self.front_to(line) {
            match self.turn_at(i, steps) {
                Ok(Turn::Done(_)) => done += 1,
                Ok(Turn::Blocked(front)) => {
                    return Ok(Forced {
                        done,
                        blocked: Some(front),
                    });
                }
                Ok(Turn::Idle) => unreachable!(),
                Err(fault) => return Err(fault),
            }
        }
        Ok(Forced {
            done,
            blocked: None,
        })
    }

    /// The same up to the last line.
    pub fn settle<L: Ledger>(&mut self, steps: &mut Steps<L>) -> Result<Forced, TableFault>
        ensures settled { IfOk result (λ forced. Forces (setting_now T.plain T.tokenized T.plain_cost T.entries_made self.old) self.old.budget self.old.lines (length self.old.lines - 1) self.old.entries forced.done forced.blocked self.new.entries) }
        ensures ticks { IfOk result (λ forced. (behind : List (Entry (List FrameData))) × IsRun (setting_now T.plain T.tokenized T.plain_cost T.entries_made self.old) self.old.budget self.old.lines (length self.old.lines - 1) self.old.entries forced.done steps.old steps.new behind) }
        ensures refused { OnErr result ((count : ℕ) × IsRun (setting_now T.plain T.tokenized T.plain_cost T.entries_made self.old) self.old.budget self.old.lines (length self.old.lines - 1) self.old.entries count steps.old steps.new self.new.entries) }
        ensures others { self.new ≡ record self.old { entries = self.new.entries; tables = self.new.tables } }
        ensures grows { GrowsByLines (setting_now T.plain T.tokenized T.plain_cost T.entries_made self.old) self.old.lines self.old.tables self.new.tables }
        ensures cause { IfErr result (IsTurnCause (setting_now T.plain T.tokenized T.plain_cost T.entries_made self.old) self.old.lines self.new.entries self.new.tables) }
        ensures all { IfOk result (λ forced. forced.blocked ≡ None → front self.new.entries ≡ None) }
        ensures blocked { IfOk result (λ forced. IfSome forced.blocked (λ i. IsBlockedFront (setting_now T.plain T.tokenized T.plain_cost T.entries_made self.old) self.old.budget self.old.lines self.new.entries i)) }
    {
        self.prove_sound();
        self.force(self.len() - 1, steps)
    }

    /// Changes the text. The version is looked at first, then the places: the first, the second, their order; then the
    /// number of characters. All memory is taken before anything changes.
    pub fn change(&mut self, change: &Change) -> Result<u32, ChangeFault>
        ensures can { OnOk result (CanEdit (document self.old) change.now) }
        ensures version { IfOk result (λ version. version ≡ suc self.old.version) }
        ensures ok { OnOk result (self.new ≡ changed_model self.old change.now) }
        ensures err { OnErr result (self.new ≡ self.old) }
        ensures cause { IfErr result (IsChangeCause self.old change.now) }
    {
        let version = self.document.version();
        if version == LAST_VERSION {
            return Err(ChangeFault::VersionFull(version));
        }
        match self.document.change(change) {
            Ok(_effect) => Ok(version + 1),
            Err(fault) => Err(fault),
        }
    }
}
