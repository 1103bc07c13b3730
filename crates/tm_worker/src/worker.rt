//! The worker: orders, turns, and what it posts.
ghost use Rattle.std.specs.Prelude.{◌≡◌, ◌+◌, ◌<◌, ◌≤◌, ◌^◌, IfOk, IfErr, IfSome, OnOk, OnErr, MatchOption, Some, false, [], length, map, slice_get};
ghost use Rattle.std.specs.Arc.{arc_value};
ghost use Rattle.tm_machine.specs.Machine.{fresh_after};
ghost use Rattle.tm_machine.specs.Numbered.{GrowsAtFront, IsTurnCause};
ghost use Rattle.tm_machine.specs.Turns.{Turns, turn_ticks};
ghost use Rattle.std.specs.List.{AllByRecursion};
ghost use Rattle.tm_rebase.specs.Batches.{count_of_items, items_of_runs};
ghost use Rattle.tm_rebase.specs.Right.{IsRightBatch, IsRightRun};
ghost use Rattle.tm_document.specs.Held.{setting_now};
ghost use Rattle.tm_rebase.specs.declared.orders.Order.TheVariants as order;
ghost use Rattle.tm_worker.specs.Orders.{CanObey, IsOrderCause};
ghost use Rattle.tm_worker.specs.Posted.{AreApart, IsPosted, items_to_post};
ghost use Rattle.tm_worker.specs.Working.{new_worker, obeyed_worker, turned_worker};

use crate::fresh::FreshLines;
use crate::runs::push_runs;
use std::alloc::Global;
use std::sync::Arc;
use std::sync::ledger::Ledger;
use tm_defs::changes::{Change, ChangeFault, Place};
use tm_defs::events::Turn;
use tm_defs::memory::OutOfMemory;
use tm_defs::steps::Steps;
use tm_defs::tables::TableFault;
use tm_defs::texts::Line;
use tm_defs::tokenizer::LineTok;
use tm_document::document::Document;
use tm_rebase::batches::{Batch, Run};
use tm_rebase::orders::Order;
use tm_text::text::Text;

/// Why an order was refused. The worker is as before.
#[derive(Drop)]
pub enum OrderFault {
    /// The version that the change makes is not the next one.
    Gap { worker: u32, order: u32 },
    BadPlace(Place),
    /// The text would have this many characters, each line break counted as one.
    TextFull(u64),
    /// There are only `count` settings.
    NoSetting { number: u32, count: u32 },
    /// The order, which may be tried again.
    OutOfMemory(Order),
}

/// A copy of a text that orders change and settings tokenize, and which of its lines were done since the last post.
/// Lines count from 0; `budget` is in steps of plain search a line; the epoch is the number of the setting.
#[derive(Drop)]
pub struct Worker<'a, T: LineTok> {
    document: Document<'a, T>,
    fresh: FreshLines,
}

impl<'a, T: LineTok> std::marker::Model for Worker<'a, T> {
    ghost use Rattle.std.specs.Prelude.{◌≡◌, length};
    ghost use Rattle.tm_worker.specs.Working.{Working};

    ghost Value = { Working T };

    ghost view = { λ a. record { held = a.document; fresh = a.fresh.marks } };

    ghost invariant = { λ a. length a.fresh.marks ≡ length a.document.lines };
}

impl<'a, T: LineTok> Worker<'a, T> {
    /// A worker on a text of which no line is done, at version 0 and by setting 0. Each table of its numbering holds up
    /// to `limit` entries.
    pub fn new(
        alloc: Global,
        settings: &'a [T],
        budget: u64,
        limit: u32,
        text: Text,
    ) -> Result<Self, OutOfMemory>
        requires settings { 0 < length settings.now }
        requires limit { 0 < limit }
        ensures { IfOk result (λ worker. worker ≡ new_worker settings.entry.now budget limit text.lines) }
    {
        text.prove_known();
        let fresh = FreshLines::new(alloc, text.len());
        let document = Document::new(alloc, settings, budget, limit, text)?;
        Ok(Worker { document, fresh })
    }

    /// How many lines the text has.
    pub fn len(&self) -> u32
        ensures { result ≡ length self.now.held.lines }
    {
        self.document.len()
    }

    /// How many changes the worker has done.
    pub fn version(&self) -> u32
        ensures { result ≡ self.now.held.version }
    {
        self.document.version()
    }

    /// The number of the setting.
    pub fn epoch(&self) -> u32
        ensures { result ≡ self.now.held.epoch }
    {
        self.document.epoch()
    }

    /// The characters of a line.
    pub fn mirror_line(&self, i: u32) -> &Arc<Line>
        requires { i < length self.now.held.lines }
        ensures { slice_get self.now.held.lines i ≡ Some (arc_value result.now) }
    {
        self.document.line_text(i)
    }

    /// Does an order of the foreground. A change must make the next version, which is looked at first; new lines are not
    /// fresh. A setting leaves nothing known of any line, and no line is fresh. All memory is taken before anything
    /// changes.
    pub fn order(&mut self, order: Order) -> Result<(), OrderFault>
        ensures can { OnOk result (CanObey self.old order) }
        ensures ok { OnOk result (self.new ≡ obeyed_worker self.old order) }
        ensures err { OnErr result (self.new ≡ self.old) }
        ensures cause { IfErr result (IsOrderCause self.old order) }
    {
        match order {
            Order::Change { version, change } => self.follow(version, change),
            Order::Setting { number } => self.set(number),
        }
    }

    /// Does a change that makes this version.
    fn follow(&mut self, version: u32, change: Change) -> Result<(), OrderFault>
        ensures can { OnOk result (CanObey self.old (order.Change version change)) }
        ensures ok { OnOk result (self.new ≡ obeyed_worker self.old (order.Change version change)) }
        ensures err { OnErr result (self.new ≡ self.old) }
        ensures cause { IfErr result (IsOrderCause self.old (order.Change version change)) }
    {
        let now = self.document.version();
        if version == 0 || version - 1 != now {
            return Err(OrderFault::Gap {
                worker: now,
                order: version,
            });
        }
        let Ok(room) = self.fresh.room() else {
            return Err(OrderFault::OutOfMemory(Order::Change { version, change }));
        };
        match self.document.change(&change) {
            Ok(effect) => {
                self.fresh.replace(effect, room);
                Ok(())
            }
            Err(ChangeFault::BadPlace(place)) => Err(OrderFault::BadPlace(place)),
            Err(ChangeFault::TextFull(count)) => Err(OrderFault::TextFull(count)),
            Err(ChangeFault::VersionFull(_version)) => unreachable!(),
            Err(ChangeFault::OutOfMemory) => {
                Err(OrderFault::OutOfMemory(Order::Change { version, change }))
            }
        }
    }

    /// Takes the setting of this number.
    fn set(&mut self, number: u32) -> Result<(), OrderFault>
        ensures can { OnOk result (CanObey self.old (order.Setting number)) }
        ensures ok { OnOk result (self.new ≡ obeyed_worker self.old (order.Setting number)) }
        ensures err { OnErr result (self.new ≡ self.old) }
        ensures cause { IfErr result (IsOrderCause self.old (order.Setting number)) }
    {
        let count = self.document.settings().len();
        if number as usize >= count {
            return Err(OrderFault::NoSetting {
                number,
                count: count as u32,
            });
        }
        self.document.setting(number);
        self.fresh.clear();
        Ok(())
    }

    /// Tokenizes the first line that is not good, which is fresh then. `Blocked` comes where it costs more than the
    /// budget, and then at each call until the line, or the end before it, changes. After a refusal entries and marks are
    /// as before; the tables may have grown by what the line makes.
    pub fn line<L: Ledger>(&mut self, steps: &mut Steps<L>) -> Result<Turn, TableFault>
        ensures turn { IfOk result (λ turn. Turns (setting_now T.plain T.tokenized T.plain_cost T.entries_made self.old.held) self.old.held.budget self.old.held.lines self.old.held.entries turn self.new.held.entries) }
        ensures fresh { IfOk result (λ turn. self.new.fresh ≡ fresh_after self.old.fresh turn) }
        ensures others { self.new ≡ turned_worker self.old self.new.held.entries self.new.held.tables self.new.fresh }
        ensures grows { GrowsAtFront (setting_now T.plain T.tokenized T.plain_cost T.entries_made self.old.held) self.old.held.lines self.old.held.entries self.old.held.tables self.new.held.tables }
        ensures err { OnErr result ((self.new.held.entries ≡ self.old.held.entries) × (self.new.fresh ≡ self.old.fresh)) }
        ensures cause { IfErr result (IsTurnCause (setting_now T.plain T.tokenized T.plain_cost T.entries_made self.old.held) self.old.held.lines self.old.held.entries self.new.held.tables) }
        ensures ticks { OnOk result (steps.new ≡ steps.old + turn_ticks self.old.held.entries) }
        ensures few_ticks { steps.new ≤ steps.old + turn_ticks self.old.held.entries }
    {
        if self.fresh.reserve().is_err() {
            return Err(TableFault::OutOfMemory);
        }
        match self.document.line(steps) {
            Ok(Turn::Done(i)) => {
                self.fresh.mark(i);
                Ok(Turn::Done(i))
            }
            Ok(turn) => Ok(turn),
            Err(fault) => Err(fault),
        }
    }

    /// The lines that are fresh and good, as a batch for the foreground, and no line is fresh any more. None comes exactly
    /// where there is no such line, and changes nothing. The lines of a run are as many as can be.
    pub fn post(&mut self) -> Result<Option<Batch>, OutOfMemory>
        ensures posted { IfOk result (λ posted. MatchOption posted (items_to_post self.old ≡ []) (λ batch. IsPosted self.old batch)) }
        ensures right { IfOk result (λ posted. IfSome posted (λ batch. IsRightBatch T.tokenized (map T.plain self.old.held.settings) batch)) }
        ensures others { IfOk result (λ posted. MatchOption posted (self.new ≡ self.old) (λ batch. self.new ≡ record self.old { fresh = map (λ f. false) self.old.fresh })) }
        ensures err { OnErr result (self.new ≡ self.old) }
    {
        let runs = self.runs_to_post()?;
        if runs.len() == 0 {
            return Ok(None);
        }
        self.fresh.clear();
        let settings = self.document.settings();
        let epoch = self.document.epoch();
        let version = self.document.version();
        Ok(Some(Batch::new(settings, epoch, version, runs)))
    }

    /// The runs of lines that are fresh and good.
    fn runs_to_post(&self) -> Result<Vec<Run>, OutOfMemory>
        ensures items { IfOk result (λ runs. items_of_runs runs.items ≡ items_to_post self.now) }
        ensures apart { IfOk result (λ runs. AreApart 0 runs.items) }
        ensures right { IfOk result (λ runs. AllByRecursion (IsRightRun (setting_now T.plain T.tokenized T.plain_cost T.entries_made self.now.held).tokenized) runs.items) }
        ensures few { IfOk result (λ runs. count_of_items runs.items < 2 ^ 31) }
        ensures setting { self.now.held.epoch < length self.now.held.settings }
    {
        self.document.prove_sound();
        let alloc = self.fresh.allocator();
        let mut runs = Vec::new(alloc);
        for span in self.fresh.spans() {
            push_runs(alloc, &self.document, *span, &mut runs)?;
        }
        Ok(runs)
    }
}
