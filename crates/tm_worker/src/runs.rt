//! The runs of a batch: neighbouring lines that are fresh and good.
ghost use Rattle.std.specs.Prelude.{◌≡◌, ◌+◌, ◌<◌, ◌≤◌, ◌++◌, ◌^◌, suc, true, false, IfOk, OnOk, Some, length, slice_get};
ghost use Rattle.std.specs.Arc.{arc_value};
ghost use Rattle.std.specs.List.{AllByRecursion};
ghost use Rattle.tm_defs.specs.Tables.{state_at};
ghost use Rattle.tm_document.specs.Held.{setting_now};
ghost use Rattle.tm_machine.specs.Accepts.{good_at};
ghost use Rattle.tm_machine.specs.Entries.{end_at, start_at};
ghost use Rattle.tm_machine.specs.Turns.{opening};
ghost use Rattle.tm_rebase.specs.Batches.{applied, items_of_runs, placed_from};
ghost use Rattle.tm_rebase.specs.Right.{IsRightItem, IsRightRun};
ghost use Rattle.tm_worker.specs.inner.Segments.{AreUpTo, segment};
ghost use Rattle.tm_worker.specs.Posted.{placed_if};

use std::alloc::Global;
use std::sync::Arc;
use tm_defs::frames::StateId;
use tm_defs::memory::OutOfMemory;
use tm_defs::texts::Line;
use tm_defs::tokenizer::LineTok;
use tm_document::document::Document;
use tm_rebase::batches::{Item, Items, Run};
use tm_store::spans::Span;

/// Whether a line is good.
fn is_good<'a, T: LineTok>(document: &Document<'a, T>, i: u32) -> bool
    requires { i < length document.now.lines }
    ensures { result ≡ good_at document.now.entries i }
{
    document.prove_sound();
    document.entry(i).good
}

/// The characters of a line, shared.
fn shared_line<'a, T: LineTok>(document: &Document<'a, T>, i: u32) -> Result<Arc<Line>, OutOfMemory>
    requires { i < length document.now.lines }
    ensures { IfOk result (λ line. slice_get document.now.lines i ≡ Some (arc_value line)) }
{
    Ok(document.line_text(i).clone()?)
}

/// What was made of a good line, which begins in this state, and the state behind it.
fn item_of<'a, T: LineTok>(
    document: &Document<'a, T>,
    i: u32,
    before: StateId,
) -> Result<(Item, StateId), OutOfMemory>
    requires within { i < length document.now.lines }
    requires good { good_at document.now.entries i ≡ true }
    requires known { before.0 < length document.now.tables.states }
    requires begins { start_at opening document.now.entries i ≡ Some (state_at document.now.tables before) }
    ensures line { IfOk result (λ made. slice_get document.now.lines i ≡ Some (arc_value made.0.line)) }
    ensures right { IfOk result (λ made. IsRightItem (setting_now T.plain T.tokenized T.plain_cost T.entries_made document.now).tokenized (state_at document.now.tables before) made.0) }
    ensures known { IfOk result (λ made. made.1.0 < length document.now.tables.states) }
    ensures end { IfOk result (λ made. end_at document.now.entries i ≡ Some (state_at document.now.tables made.1)) }
    ensures leads { IfOk result (λ made. applied (state_at document.now.tables before) made.0.delta ≡ state_at document.now.tables made.1) }
{
    document.prove_sound();
    let entry = document.entry(i);
    let Some(tokens) = &entry.tokens else {
        unreachable!()
    };
    let Some(end) = entry.end else { unreachable!() };
    let line = shared_line(document, i)?;
    let tokens = tokens.copy()?;
    let delta = document.table().diff(before, end)?;
    let item = Item {
        line,
        tokens,
        delta,
    };
    Ok((item, end))
}

/// The run that begins with a good line: it goes on as long as lines are good, up to the line before `end`.
fn run_from<'a, T: LineTok>(
    alloc: Global,
    document: &Document<'a, T>,
    first: u32,
    end: u32,
) -> Result<Run, OutOfMemory>
    requires some { first < end }
    requires within { end ≤ length document.now.lines }
    requires good { good_at document.now.entries first ≡ true }
    ensures first { IfOk result (λ run. run.first ≡ first) }
    ensures some { IfOk result (λ run. 0 < length run.items) }
    ensures within { IfOk result (λ run. first + length run.items ≤ end) }
    ensures items { IfOk result (λ run. placed_from first run.start run.items ++ segment document.now.lines document.now.entries (first + length run.items) end ≡ segment document.now.lines document.now.entries first end) }
    ensures stops { IfOk result (λ run. first + length run.items < end → good_at document.now.entries (first + length run.items) ≡ false) }
    ensures right { IfOk result (IsRightRun (setting_now T.plain T.tokenized T.plain_cost T.entries_made document.now).tokenized) }
{
    document.prove_sound();
    let Some(before) = document.start(first) else {
        unreachable!()
    };
    let start = document.table().frames(before)?;
    let mut items = Vec::new(alloc);
    let mut at = first;
    let mut state = before;
    'lines: while at < end && is_good(document, at) {
        let (item, behind) = item_of(document, at, state)?;
        items.push(item)?;
        state = behind;
        at += 1;
    }
    Ok(Run {
        first,
        start,
        items: Items::new(items),
    })
}

/// Adds the run that begins with a line, if that is good. Gives the line behind it, of which is known whether it is good:
/// behind a run that is one that is not, or the end.
fn push_run<'a, T: LineTok>(
    alloc: Global,
    document: &Document<'a, T>,
    at: u32,
    end: u32,
    runs: &mut Vec<Run>,
) -> Result<u32, OutOfMemory>
    requires some { at < end }
    requires within { end ≤ length document.now.lines }
    requires small { length document.now.lines < 2 ^ 31 }
    requires apart { AreUpTo 0 runs.old.items at }
    requires right { AllByRecursion (IsRightRun (setting_now T.plain T.tokenized T.plain_cost T.entries_made document.now).tokenized) runs.old.items }
    ensures items { IfOk result (λ next. items_of_runs runs.new.items ++ segment document.now.lines document.now.entries next end ≡ items_of_runs runs.old.items ++ segment document.now.lines document.now.entries at end) }
    ensures apart { IfOk result (λ next. AreUpTo 0 runs.new.items next) }
    ensures right { OnOk result (AllByRecursion (IsRightRun (setting_now T.plain T.tokenized T.plain_cost T.entries_made document.now).tokenized) runs.new.items) }
    ensures later { IfOk result (λ next. at < next) }
    ensures within { IfOk result (λ next. next ≤ suc end) }
{
    document.prove_sound();
    if !is_good(document, at) {
        return Ok(at + 1);
    }
    let run = run_from(alloc, document, at, end)?;
    let behind = at + run.items.as_slice().len() as u32;
    runs.push(run)?;
    Ok(behind + 1)
}

/// Adds the runs of the good lines of a range.
pub fn push_runs<'a, T: LineTok>(
    alloc: Global,
    document: &Document<'a, T>,
    span: Span,
    runs: &mut Vec<Run>,
) -> Result<(), OutOfMemory>
    requires some { span.first < span.end }
    requires within { span.end ≤ length document.now.lines }
    requires apart { AreUpTo 0 runs.old.items span.first }
    requires right { AllByRecursion (IsRightRun (setting_now T.plain T.tokenized T.plain_cost T.entries_made document.now).tokenized) runs.old.items }
    ensures items { OnOk result (items_of_runs runs.new.items ≡ items_of_runs runs.old.items ++ segment document.now.lines document.now.entries span.first span.end) }
    ensures apart { OnOk result (AreUpTo 0 runs.new.items (suc span.end)) }
    ensures right { OnOk result (AllByRecursion (IsRightRun (setting_now T.plain T.tokenized T.plain_cost T.entries_made document.now).tokenized) runs.new.items) }
{
    document.prove_sound();
    let mut at = span.first;
    'lines: while at < span.end {
        at = push_run(alloc, document, at, span.end, runs)?;
    }
    Ok(())
}
