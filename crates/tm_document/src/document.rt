//! A text with its version, the setting of a list by which it is tokenized, and what is kept of its lines.
//!
//! It is the part that a model and a worker have in common: a turn on the front, a change and another setting are the
//! steps of the machine's documents, proved once.
ghost use Rattle.std.specs.Prelude.{◌≡◌, ℕ, ◌+◌, ◌<◌, ◌^◌, ◌-◌, IsTrue, IfOk, IfErr, OnOk, OnErr, Some, length, option_map, slice_get};
ghost use Rattle.std.specs.Arc.{arc_value};
ghost use Rattle.tm_defs.specs.Tables.{IsNumbering, state_at};
ghost use Rattle.tm_machine.specs.Changes.{effect_of, lines_changed};
ghost use Rattle.tm_machine.specs.Entries.{front, is_accurate, start_at, AreAccurate, IsFromScratch};
ghost use Rattle.tm_machine.specs.Places.{IsIn};
ghost use Rattle.tm_machine.specs.Sizes.{Fits};
ghost use Rattle.tm_machine.specs.Turns.{Turns, opening, turn_ticks};
ghost use Rattle.tm_text.specs.Texts.{IsChangeFault, IsText};
ghost use Rattle.tm_document.specs.Held.{IsSoundHeld, changed_held, new_held, set_held, setting_now};
ghost use Rattle.tm_machine.specs.Numbered.{with_state, GrowsAtFront, IsKnownEnd, IsTurnCause};

use crate::numbered::NumberedStore;
use std::alloc::Global;
use std::sync::Arc;
use std::sync::ledger::Ledger;
use tm_defs::changes::{Change, ChangeFault, LineEffect};
use tm_defs::events::Turn;
use tm_defs::frames::StateId;
use tm_defs::memory::OutOfMemory;
use tm_defs::steps::Steps;
use tm_defs::tables::TableFault;
use tm_defs::texts::Line;
use tm_defs::tokenizer::LineTok;
use tm_machine::entries::Entry;
use tm_state::states::StateTable;
use tm_text::text::Text;

/// A text that is tokenized line by line, by one setting of a list. Lines count from 0; `budget` is in steps of plain
/// search a line; the epoch is the number of the setting.
#[derive(Drop)]
pub struct Document<'a, T: LineTok> {
    settings: &'a [T],
    budget: u64,
    epoch: u32,
    version: u32,
    text: Text,
    kept: NumberedStore,
}

impl<'a, T: LineTok> std::marker::Model for Document<'a, T> {
    ghost use Rattle.tm_document.specs.Held.{Held, IsSoundHeld, held_of};

    ghost Value = { Held T };

    ghost view = { λ a. held_of a.settings.now a.epoch a.version a.budget a.text.lines a.kept };

    ghost invariant = { λ a. IsSoundHeld T.plain T.tokenized T.plain_cost T.entries_made (held_of a.settings.now a.epoch a.version a.budget a.text.lines a.kept) };
}

impl<'a, T: LineTok> Document<'a, T> {
    /// A document of a text of which no line is done, at version 0 and by setting 0. Each table of the numbering holds up
    /// to `limit` entries.
    pub fn new(
        alloc: Global,
        settings: &'a [T],
        budget: u64,
        limit: u32,
        text: Text,
    ) -> Result<Self, OutOfMemory>
        requires settings { 0 < length settings.now }
        requires limit { 0 < limit }
        ensures { IfOk result (λ document. document ≡ new_held settings.entry.now budget limit text.lines) }
    {
        text.prove_known();
        let kept = NumberedStore::new(alloc, text.len(), limit)?;
        Ok(Document {
            settings,
            budget,
            epoch: 0,
            version: 0,
            text,
            kept,
        })
    }

    /// How many lines the text has.
    pub fn len(&self) -> u32
        ensures { result ≡ length self.now.lines }
    {
        self.text.len()
    }

    /// How often the text was changed.
    pub fn version(&self) -> u32
        ensures { result ≡ self.now.version }
    {
        self.version
    }

    /// The number of the setting.
    pub fn epoch(&self) -> u32
        ensures { result ≡ self.now.epoch }
    {
        self.epoch
    }

    /// The settings, of which the epoch tells one.
    pub fn settings(&self) -> &'a [T]
        ensures { result.now ≡ self.now.settings }
    {
        self.settings
    }

    /// The first line that is not good. A line is accurate exactly where it stands before it.
    pub fn front(&self) -> Option<u32>
        ensures { result ≡ front self.now.entries }
    {
        self.kept.front()
    }

    /// Whether every line up to this one is good. What is stored of it is then what tokenizing the text from its first
    /// line gives.
    pub fn accurate(&self, i: u32) -> bool
        requires { i < length self.now.lines }
        ensures value { result ≡ is_accurate self.now.entries i }
        ensures right { IsTrue result → IsFromScratch (setting_now T.plain T.tokenized T.plain_cost T.entries_made self.now) self.now.lines self.now.entries i }
    {
        match self.kept.front() {
            Some(front) => i < front,
            None => true,
        }
    }

    /// What is kept of a line.
    pub fn entry(&self, i: u32) -> &Entry<StateId>
        requires { i < length self.now.lines }
        ensures entry { slice_get self.now.entries i ≡ Some (with_state self.now.tables result.now) }
        ensures known { IsKnownEnd (length self.now.tables.states) result.now.end }
    {
        self.kept.entry(i)
    }

    /// The number of the state before a line, if the line before it has an end.
    pub fn start(&self, i: u32) -> Option<StateId>
        requires { i < length self.now.lines }
        ensures state { start_at opening self.now.entries i ≡ option_map (state_at self.now.tables) result }
        ensures known { IsKnownEnd (length self.now.tables.states) result }
    {
        self.kept.start(i)
    }

    /// The characters of a line.
    pub fn line_text(&self, i: u32) -> &Arc<Line>
        requires { i < length self.now.lines }
        ensures { slice_get self.now.lines i ≡ Some (arc_value result.now) }
    {
        self.text.line(i)
    }

    /// The table in which the ends of entries are numbers.
    pub fn table(&self) -> &StateTable
        ensures { result.now ≡ self.now.tables }
    {
        self.kept.table()
    }

    /// Hands the invariant to callers: it does nothing.
    pub fn prove_sound(&self)
        ensures sound { IsSoundHeld T.plain T.tokenized T.plain_cost T.entries_made self.now }
        ensures accurate { AreAccurate (setting_now T.plain T.tokenized T.plain_cost T.entries_made self.now) self.now.lines self.now.entries }
        ensures numbered { IsNumbering self.now.tables }
        ensures text { IsText self.now.lines }
    {
        self.kept.prove_known();
        self.text.prove_known();
    }

    /// Takes another setting, by which nothing is known of a line. The text and the tables stay. It takes no memory.
    pub fn setting(&mut self, number: u32)
        requires { number < length self.old.settings }
        ensures { self.new ≡ set_held self.old number }
    {
        self.epoch = number;
        self.kept.clear();
    }

    /// Tokenizes the first line that is not good. `Blocked` comes where it costs more than the budget, and then at each
    /// call until the line, or the end before it, changes. After a refusal the entries are as before; the tables may
    /// have grown by what the line makes.
    pub fn line<L: Ledger>(&mut self, steps: &mut Steps<L>) -> Result<Turn, TableFault>
        ensures turn { IfOk result (λ turn. Turns (setting_now T.plain T.tokenized T.plain_cost T.entries_made self.old) self.old.budget self.old.lines self.old.entries turn self.new.entries) }
        ensures others { self.new ≡ record self.old { entries = self.new.entries; tables = self.new.tables } }
        ensures grows { GrowsAtFront (setting_now T.plain T.tokenized T.plain_cost T.entries_made self.old) self.old.lines self.old.entries self.old.tables self.new.tables }
        ensures err { OnErr result (self.new.entries ≡ self.old.entries) }
        ensures cause { IfErr result (IsTurnCause (setting_now T.plain T.tokenized T.plain_cost T.entries_made self.old) self.old.lines self.old.entries self.new.tables) }
        ensures ticks { steps.new ≡ steps.old + turn_ticks self.old.entries }
    {
        match self.front() {
            Some(i) => self.turn_at(i, steps),
            None => Ok(Turn::Idle),
        }
    }

    /// A turn on this line, which is the front.
    pub fn turn_at<L: Ledger>(&mut self, i: u32, steps: &mut Steps<L>) -> Result<Turn, TableFault>
        requires { front self.old.entries ≡ Some i }
        ensures turn { IfOk result (λ turn. Turns (setting_now T.plain T.tokenized T.plain_cost T.entries_made self.old) self.old.budget self.old.lines self.old.entries turn self.new.entries) }
        ensures others { self.new ≡ record self.old { entries = self.new.entries; tables = self.new.tables } }
        ensures grows { GrowsAtFront (setting_now T.plain T.tokenized T.plain_cost T.entries_made self.old) self.old.lines self.old.entries self.old.tables self.new.tables }
        ensures err { OnErr result (self.new.entries ≡ self.old.entries) }
        ensures cause { IfErr result (IsTurnCause (setting_now T.plain T.tokenized T.plain_cost T.entries_made self.old) self.old.lines self.old.entries self.new.tables) }
        ensures ticks { steps.new ≡ steps.old + turn_ticks self.old.entries }
    {
        self.text.prove_known();
        let setting = &self.settings[self.epoch as usize];
        let line = self.text.line(i);
        self.kept.turn(setting, self.budget, i, line, steps)
    }

    /// Changes the text, which makes the next version. The places are looked at first: the first, the second, their
    /// order; then the number of characters. All memory is taken before anything changes.
    pub fn change(&mut self, change: &Change) -> Result<LineEffect, ChangeFault>
        requires version { self.old.version < 2 ^ 32 - 1 }
        ensures places { OnOk result (IsIn self.old.lines change.now) }
        ensures fits { OnOk result (Fits (lines_changed self.old.lines change.now)) }
        ensures effect { IfOk result (λ effect. effect ≡ effect_of self.old.lines change.now) }
        ensures ok { OnOk result (self.new ≡ changed_held self.old change.now) }
        ensures err { OnErr result (self.new ≡ self.old) }
        ensures cause { IfErr result (IsChangeFault self.old.lines change.now) }
    {
        let plan = self.text.plan(change)?;
        let Ok(()) = self.kept.replace(plan.effect()) else {
            return Err(ChangeFault::OutOfMemory);
        };
        let effect = self.text.commit(plan);
        self.version += 1;
        Ok(effect)
    }
}
