//! Many lines, to measure by: done in the foreground, done by a worker, and posted.
ghost use Rattle.std.specs.Prelude.{◌≡◌, ◌<◌, length};

use crate::acts::{number_in, text_in};
use crate::closing::Closing;
use std::alloc::Global;
use std::marker::Brand;
use std::sync::ledger::{Blank, Ledger};
use tm_cases::{Case, CaseFault};
use tm_defs::events::Turn;
use tm_defs::steps::Steps;
use tm_model::model::Model;
use tm_rebase::batches::Batch;
use tm_text::text::Text;
use tm_worker::worker::Worker;

/// Each table may hold this many entries.
const LIMIT: u32 = 16_777_216;

/// Steps of plain search a line.
const BUDGET: u64 = 1_000_000;

/// Turns in the foreground. Gives how many lines were done.
fn foreground<L: Ledger>(
    alloc: Global,
    text: Text,
    turns: u32,
    steps: &mut Steps<L>,
) -> Result<u32, CaseFault> {
    let settings = [Closing { alloc, meta: 7 }];
    let Ok(mut model) = Model::new(alloc, &settings, BUDGET, LIMIT, text) else {
        return Err(CaseFault::OutOfMemory);
    };
    let mut done: u32 = 0;
    for _ in 0..turns {
        if let Ok(Turn::Done(_)) = model.line(steps) {
            done = done.saturating_add(1);
        }
    }
    Ok(done)
}

/// How many items a batch has.
fn count(batch: &Batch) -> usize {
    let mut count = 0;
    for run in batch.runs() {
        count = run.items.as_slice().len().saturating_add(count);
    }
    count
}

/// Turns of a worker, which posts then if it shall. Gives how many lines were done, and how many posted.
fn background<L: Ledger>(
    alloc: Global,
    text: Text,
    turns: u32,
    posts: bool,
    steps: &mut Steps<L>,
) -> Result<(u32, usize), CaseFault> {
    let settings = [Closing { alloc, meta: 7 }];
    let Ok(mut worker) = Worker::new(alloc, &settings, BUDGET, LIMIT, text) else {
        return Err(CaseFault::OutOfMemory);
    };
    let mut done: u32 = 0;
    for _ in 0..turns {
        if let Ok(Turn::Done(_)) = worker.line(steps) {
            done = done.saturating_add(1);
        }
    }
    if !posts {
        return Ok((done, 0));
    }
    match worker.post() {
        Ok(Some(batch)) => Ok((done, count(&batch))),
        Ok(None) => Ok((done, 0)),
        Err(_) => Err(CaseFault::OutOfMemory),
    }
}

/// Who does the turns.
#[derive(Clone, Copy)]
enum Side {
    Model,
    Worker,
    PostingWorker,
}

fn side_in(word: &str) -> Result<Side, CaseFault> {
    match word {
        "model" => Ok(Side::Model),
        "worker" => Ok(Side::Worker),
        "post" => Ok(Side::PostingWorker),
        _ => Err(CaseFault::NoField),
    }
}

fn worked<L: Ledger>(
    alloc: Global,
    blank: Blank,
    side: Side,
    text: Text,
    turns: u32,
) -> Result<String, CaseFault>
    requires name { blank.name ≡ L.name }
    requires parts { blank.parts ≡ L.parts }
    requires some { 0 < blank.parts }
{
    let mut steps = Steps::<L>::new(blank);
    let (done, posted) = match side {
        Side::Model => (foreground(alloc, text, turns, &mut steps)?, 0),
        Side::Worker => background(alloc, text, turns, false, &mut steps)?,
        Side::PostingWorker => background(alloc, text, turns, true, &mut steps)?,
    };
    Ok(format!(in alloc; "done {done}, posted {posted}")?)
}

/// `many SIDE, TEXT, TURNS`: turns on a text of a `model`, of a `worker`, or of a worker that posts behind them (`post`).
pub fn many(alloc: Global, case: &Case) -> Result<String, CaseFault> {
    let text = text_in(alloc, case.value(1)?)?;
    let (side, turns) = (side_in(case.text(0)?)?, number_in(case, 2)?);
    worked::<Brand>(alloc, Blank::new(1), side, text, turns)
}
