//! Answers as text.

use std::alloc::Global;
use tm_cases::CaseFault;
use tm_defs::changes::Place;
use tm_defs::events::Turn;
use tm_defs::tables::TableFault;
use tm_defs::tokenizer::LineTok;
use tm_rebase::batches::{Batch, Item, Run};
use tm_worker::worker::{OrderFault, Worker};

/// `ab:7-1+0`: the characters, the metadata of the first token, the frames that the line closes and those that it opens.
fn item_text(alloc: Global, item: &Item) -> Result<String, CaseFault> {
    let mut text = String::new(alloc);
    for c in item.line.as_slice() {
        text.push(*c)?;
    }
    match item.tokens.as_slice().first() {
        Some(token) => text.push_str(format!(in alloc; ":{}", token.meta)?.as_str())?,
        None => text.push_str(":-")?,
    }
    let (closed, opened) = (item.delta.pops, item.delta.pushed.as_slice().len());
    text.push_str(format!(in alloc; "-{closed}+{opened}")?.as_str())?;
    Ok(text)
}

fn run_text(alloc: Global, run: &Run) -> Result<String, CaseFault> {
    let (first, frames) = (run.first, run.start.as_slice().len());
    let mut text = format!(in alloc; "from {first} in {frames}")?;
    for item in run.items.as_slice() {
        text.push(' ')?;
        text.push_str(item_text(alloc, item)?.as_str())?;
    }
    Ok(text)
}

/// The numbers of a batch, and its runs.
pub fn batch_text(alloc: Global, batch: &Batch) -> Result<String, CaseFault> {
    let (epoch, version) = (batch.epoch(), batch.version());
    let mut text = format!(in alloc; "batch by {epoch} at {version}")?;
    for run in batch.runs() {
        text.push_str(", ")?;
        text.push_str(run_text(alloc, run)?.as_str())?;
    }
    Ok(text)
}

fn place_text(alloc: Global, place: Place) -> Result<String, CaseFault> {
    match place {
        Place::NoLine { line, lines } => Ok(format!(in alloc;
            "line {line} is not one of {lines}"
        )?),
        Place::NoCol { line, col, len } => {
            Ok(format!(in alloc; "column {col} is behind the {len} of line {line}")?)
        }
        Place::Reversed => Ok(String::from_str(alloc, "reversed")?),
    }
}

/// What an order answered.
pub fn order_text(alloc: Global, answer: Result<(), OrderFault>) -> Result<String, CaseFault> {
    match answer {
        Ok(()) => Ok(String::from_str(alloc, "obeyed")?),
        Err(OrderFault::Gap { worker, order }) => {
            Ok(format!(in alloc; "gap between {worker} and {order}")?)
        }
        Err(OrderFault::BadPlace(place)) => place_text(alloc, place),
        Err(OrderFault::TextFull(count)) => Ok(format!(in alloc; "text full at {count}")?),
        Err(OrderFault::NoSetting { number, count }) => {
            Ok(format!(in alloc; "setting {number} is not one of {count}")?)
        }
        Err(OrderFault::OutOfMemory(_order)) => Err(CaseFault::OutOfMemory),
    }
}

/// What a turn answered.
pub fn turn_text(alloc: Global, answer: Result<Turn, TableFault>) -> Result<String, CaseFault> {
    match answer {
        Ok(Turn::Done(i)) => Ok(format!(in alloc; "line {i}")?),
        Ok(Turn::Blocked(i)) => Ok(format!(in alloc; "line {i} costs too much")?),
        Ok(Turn::Idle) => Ok(String::from_str(alloc, "idle")?),
        Err(TableFault::TableFull(count)) => Ok(format!(in alloc; "table full at {count}")?),
        Err(TableFault::OutOfMemory) => Err(CaseFault::OutOfMemory),
    }
}

/// The numbers of a worker and its text, its lines in bars.
pub fn worker_text<'a, T: LineTok>(
    alloc: Global,
    worker: &Worker<'a, T>,
) -> Result<String, CaseFault> {
    let (epoch, version) = (worker.epoch(), worker.version());
    let mut text = format!(in alloc; "text by {epoch} at {version} |")?;
    for i in 0..worker.len() {
        for c in worker.mirror_line(i).as_slice() {
            text.push(*c)?;
        }
        text.push('|')?;
    }
    Ok(text)
}
