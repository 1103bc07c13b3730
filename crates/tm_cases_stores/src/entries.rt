//! Stores: what is kept of each line, step by step.
ghost use Rattle.std.specs.Prelude.{◌<◌, IfOk};

use crate::callers::first_is_done;
use crate::values::{list, number, number_at, text_at};
use serde_json::Value;
use std::alloc::Global;
use tm_cases::{Case, CaseFault};
use tm_defs::changes::LineEffect;
use tm_defs::memory::OutOfMemory;
use tm_defs::tokens::{Token, Tokens};
use tm_machine::entries::Entry;
use tm_store::store::Store;

const LINES_BOUND: u32 = 0x8000_0000;

fn want(_refused: OutOfMemory) -> CaseFault {
    CaseFault::OutOfMemory
}

/// One token with this metadata.
fn one_token(alloc: Global, meta: u32) -> Result<Tokens, CaseFault> {
    let mut tokens = Vec::new(alloc);
    tokens.push(Token { start: 0, meta })?;
    Ok(Tokens::new(tokens))
}

/// The line, the tokens and the end of a step; the line is in the store.
fn stored_fields(alloc: Global, lines: u32, step: &[Value]) -> Result<(u32, Tokens, u32), CaseFault>
    ensures { IfOk result (λ r. r.0 < lines) }
{
    let i = number_at(step, 1)?;
    if i >= lines {
        return Err(CaseFault::NoField);
    }
    Ok((
        i,
        one_token(alloc, number_at(step, 2)?)?,
        number_at(step, 3)?,
    ))
}

fn put(alloc: Global, store: &mut Store<u32>, step: &[Value]) -> Result<(), CaseFault> {
    let (i, tokens, end) = stored_fields(alloc, store.len(), step)?;
    store.reserve(2).map_err(want)?;
    store.put(i, tokens, end);
    Ok(())
}

/// The first line is done, by the proved caller.
fn first(alloc: Global, store: &mut Store<u32>, step: &[Value]) -> Result<(), CaseFault> {
    let tokens = one_token(alloc, number_at(step, 1)?)?;
    let end = number_at(step, 2)?;
    if store.len() == 0 {
        return Err(CaseFault::NoField);
    }
    first_is_done(store, tokens, end).map_err(want)
}

fn guess(alloc: Global, store: &mut Store<u32>, step: &[Value]) -> Result<(), CaseFault> {
    let (i, tokens, end) = stored_fields(alloc, store.len(), step)?;
    store.reserve(2).map_err(want)?;
    store.guess(i, tokens, end);
    Ok(())
}

fn block(store: &mut Store<u32>, step: &[Value]) -> Result<(), CaseFault> {
    let i = number_at(step, 1)?;
    if i >= store.len() {
        return Err(CaseFault::NoField);
    }
    store.block(i);
    Ok(())
}

fn replace(store: &mut Store<u32>, step: &[Value]) -> Result<(), CaseFault> {
    let effect = LineEffect {
        first: number_at(step, 1)?,
        old: number_at(step, 2)?,
        new: number_at(step, 3)?,
    };
    let len = store.len();
    if effect.old == 0 || effect.new == 0 || effect.new >= LINES_BOUND {
        return Err(CaseFault::NoField);
    }
    if effect.old > len
        || effect.first > len - effect.old
        || len - effect.old >= LINES_BOUND - effect.new
    {
        return Err(CaseFault::NoField);
    }
    store.replace(effect).map_err(want)
}

/// What is kept of a line: the metadata of its token, its end, and `g` for good, `b` for blocked or a point.
fn entry_text(alloc: Global, entry: &Entry<u32>) -> Result<String, CaseFault> {
    let mut text = String::new(alloc);
    match &entry.tokens {
        Some(tokens) => match tokens.as_slice().first() {
            Some(token) => text.push_str(token.meta.to_string(alloc)?.as_str())?,
            None => text.push('-')?,
        },
        None => text.push('-')?,
    }
    text.push('/')?;
    match entry.end {
        Some(end) => text.push_str(end.to_string(alloc)?.as_str())?,
        None => text.push('-')?,
    }
    if entry.good {
        text.push('g')?;
    }
    if entry.blocked {
        text.push('b')?;
    }
    if !entry.good && !entry.blocked {
        text.push('.')?;
    }
    Ok(text)
}

fn show(alloc: Global, store: &Store<u32>) -> Result<String, CaseFault> {
    let mut text = String::new(alloc);
    for i in 0..store.len() {
        if i > 0 {
            text.push(' ')?;
        }
        text.push_str(entry_text(alloc, store.entry(i))?.as_str())?;
    }
    Ok(text)
}

fn front(alloc: Global, store: &Store<u32>) -> Result<String, CaseFault> {
    match store.front() {
        Some(i) => Ok(format!(in alloc; "front {i}")?),
        None => Ok(String::from_str(alloc, "no front")?),
    }
}

/// One step, and what it answers.
fn step(
    alloc: Global,
    store: &mut Store<u32>,
    step: &[Value],
) -> Result<Option<String>, CaseFault> {
    match text_at(step, 0)? {
        "put" => put(alloc, store, step)?,
        "first" => first(alloc, store, step)?,
        "guess" => guess(alloc, store, step)?,
        "block" => block(store, step)?,
        "replace" => replace(store, step)?,
        "clear" => store.clear(),
        "front" => return Ok(Some(front(alloc, store)?)),
        "show" => return Ok(Some(show(alloc, store)?)),
        "len" => {
            let len = store.len();
            return Ok(Some(format!(in alloc; "len {len}")?));
        }
        _ => return Err(CaseFault::NoCommand),
    }
    Ok(None)
}

/// `store LINES, STEPS`: the answers of the steps that have one.
pub fn store(alloc: Global, case: &Case) -> Result<String, CaseFault> {
    let lines = number(case.value(0)?)?;
    if lines == 0 || lines >= LINES_BOUND {
        return Err(CaseFault::NoField);
    }
    let mut store = Store::new(alloc, lines).map_err(want)?;
    let mut answers = String::new(alloc);
    for item in list(case.value(1)?)? {
        if let Some(answer) = step(alloc, &mut store, list(item)?)? {
            if !answers.is_empty() {
                answers.push_str("; ")?;
            }
            answers.push_str(answer.as_str())?;
        }
    }
    Ok(answers)
}
