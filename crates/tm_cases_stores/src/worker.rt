//! What goes to the worker and what comes back: lines through changes, and batches.
ghost use Rattle.std.specs.Prelude.{◌≡◌, ◌<◌, ◌+◌, ◌^◌, [], ◌∷◌, length, IfOk, IsTrue, is_some};
ghost use Rattle.tm_machine.specs.Changes.{line_after};
ghost use Rattle.tm_rebase.specs.Places.{HasSmallPlaces, IsSmallEffect};

use crate::still::Still;
use crate::values::{list, number, number_at};
use std::alloc::Global;
use std::sync::Arc;
use tm_cases::{Case, CaseFault};
use tm_defs::changes::LineEffect;
use tm_defs::frames::{Delta, StateData};
use tm_defs::memory::OutOfMemory;
use tm_defs::texts::Line;
use tm_defs::tokens::Tokens;
use tm_rebase::batches::{Batch, Item, Items, Run};
use tm_rebase::places::map;

/// Numbers of lines are below this.
const LINE_LIMIT: u32 = 0x8000_0000;

/// Whether the numbers of an effect are as small as the line map wants them.
fn is_small(effect: LineEffect) -> bool
    ensures { IsTrue result → IsSmallEffect effect }
{
    effect.first < LINE_LIMIT && effect.old < LINE_LIMIT && effect.new < LINE_LIMIT
}

/// Whether each number is as small as the line map wants it.
fn has_small_places(effects: &[LineEffect], line: u32) -> bool
    ensures { IsTrue result → HasSmallPlaces effects.now line }
{
    let mut at = line;
    for effect in effects {
        if at >= LINE_LIMIT || !is_small(*effect) {
            return false;
        }
        if at < effect.first {
            continue;
        }
        if at < effect.first + effect.old {
            return true;
        }
        at = at + effect.new - effect.old;
    }
    at < LINE_LIMIT
}

/// Whether a line still stands behind changes.
fn still_stands(effects: &[LineEffect], line: u32) -> bool
    requires { HasSmallPlaces effects.now line }
    ensures { result ≡ is_some (line_after effects.now line) }
{
    map(effects, line).is_some()
}

/// `map EFFECTS, LINE`: where the line is behind effects `[FIRST, OLD, NEW]`.
pub fn place(alloc: Global, case: &Case) -> Result<String, CaseFault> {
    let mut effects = Vec::new(alloc);
    for item in list(case.value(0)?)? {
        let item = list(item)?;
        effects.push(LineEffect {
            first: number_at(item, 0)?,
            old: number_at(item, 1)?,
            new: number_at(item, 2)?,
        })?;
    }
    let line = number(case.value(1)?)?;
    if !has_small_places(effects.as_slice(), line) {
        return Ok(String::from_str(alloc, "too large")?);
    }
    match map(effects.as_slice(), line) {
        Some(place) => Ok(format!(in alloc; "line {place}")?),
        None => Ok(String::from_str(alloc, "replaced")?),
    }
}

/// What the still tokenizer makes of a line.
fn still_item(alloc: Global, line: Line) -> Result<Item, OutOfMemory>
    ensures tokens { IfOk result (λ item. item.tokens ≡ []) }
    ensures pops { IfOk result (λ item. item.delta.pops ≡ 0) }
    ensures pushed { IfOk result (λ item. item.delta.pushed ≡ []) }
{
    let tokens = Tokens::new(Vec::new(alloc));
    let pushed = StateData::new(Vec::new(alloc));
    let delta = Delta { pops: 0, pushed };
    let line = Arc::new(alloc, line)?;
    Ok(Item {
        line,
        tokens,
        delta,
    })
}

/// A run of one item, which begins in the opening state.
fn one_run(alloc: Global, first: u32, item: Item) -> Result<Vec<Run>, OutOfMemory>
    ensures { IfOk result (λ runs. runs.items ≡ record { first = first; start = []; items = item ∷ [] } ∷ []) }
{
    let start = StateData::new(Vec::new(alloc));
    let mut items = Vec::new(alloc);
    items.push(item)?;
    let items = Items::new(items);
    let mut runs = Vec::new(alloc);
    runs.push(Run {
        first,
        start,
        items,
    })?;
    Ok(runs)
}

/// A batch of one line, which ends as it began.
fn batch_of_line(
    alloc: Global,
    settings: &[Still],
    epoch: u32,
    version: u32,
    first: u32,
    line: Line,
) -> Result<Batch, OutOfMemory>
    requires epoch { epoch < length settings.now }
    requires line { first + 1 < 2 ^ 31 }
    ensures epoch { IfOk result (λ batch. batch.epoch ≡ epoch) }
    ensures version { IfOk result (λ batch. batch.version ≡ version) }
{
    let item = still_item(alloc, line)?;
    let runs = one_run(alloc, first, item)?;
    Ok(Batch::new(settings, epoch, version, runs))
}

/// `batch EPOCH, VERSION, FIRST, TEXT`: a batch of one line by one of two settings, as its readers show it.
pub fn batch(alloc: Global, case: &Case) -> Result<String, CaseFault> {
    let (epoch, version) = (number(case.value(0)?)?, number(case.value(1)?)?);
    let first = number(case.value(2)?)?;
    if epoch >= 2 || first >= LINE_LIMIT - 1 {
        return Err(CaseFault::NoField);
    }
    let line = Line::new(case.text(3)?.chars().collect(alloc)?);
    let settings = [Still { alloc }, Still { alloc }];
    let Ok(batch) = batch_of_line(alloc, &settings, epoch, version, first, line) else {
        return Err(CaseFault::OutOfMemory);
    };
    let (epoch, version) = (batch.epoch(), batch.version());
    let mut text = format!(in alloc; "epoch {epoch} version {version}")?;
    for run in batch.runs() {
        let (first, frames) = (run.first, run.start.as_slice().len());
        text.push_str(format!(in alloc; ", from {first} in {frames}")?.as_str())?;
        for item in run.items.as_slice() {
            let (length, pops) = (item.line.as_slice().len(), item.delta.pops);
            text.push_str(format!(in alloc; ": {length} characters, pops {pops}")?.as_str())?;
        }
    }
    Ok(text)
}
