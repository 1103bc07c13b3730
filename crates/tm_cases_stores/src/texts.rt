//! Texts: bytes that are read, and changes one after another.

use crate::callers::by_a_plan;
use crate::values::{list, number, number_at, text_at};
use serde_json::Value;
use std::alloc::Global;
use tm_cases::{Case, CaseFault};
use tm_defs::changes::{Change, ChangeFault, LineEffect, Place};
use tm_defs::texts::Name;
use tm_text::faults::TextFault;
use tm_text::text::Text;

/// The lines of a text, each in bars.
fn show(alloc: Global, text: &Text) -> Result<String, CaseFault> {
    let mut shown = String::new(alloc);
    for i in 0..text.len() {
        shown.push('|')?;
        for c in text.line(i).as_slice() {
            shown.push(*c)?;
        }
    }
    shown.push('|')?;
    Ok(shown)
}

fn fault_text(alloc: Global, fault: TextFault) -> Result<String, CaseFault> {
    match fault {
        TextFault::NotUtf8(offset) => Ok(format!(in alloc; "not UTF-8 at {offset}")?),
        TextFault::TextFull(count) => Ok(format!(in alloc; "full at {count}")?),
        TextFault::OutOfMemory => Err(CaseFault::OutOfMemory),
    }
}

/// The bytes of a list of numbers.
fn bytes_of(alloc: Global, items: &[Value]) -> Result<Vec<u8>, CaseFault> {
    let mut bytes = Vec::new(alloc);
    for item in items {
        let byte = u8::try_from(number(item)?).map_err(|_| CaseFault::NoField)?;
        bytes.push(byte)?;
    }
    Ok(bytes)
}

/// `bytes LIST`: the lines of these bytes.
pub fn bytes(alloc: Global, case: &Case) -> Result<String, CaseFault> {
    let bytes = bytes_of(alloc, list(case.value(0)?)?)?;
    match Text::from_bytes(alloc, bytes.as_slice()) {
        Ok(text) => show(alloc, &text),
        Err(fault) => fault_text(alloc, fault),
    }
}

/// `repeat TEXT, COUNT`: how many lines there are where a text stands so many times, or the fault.
pub fn repeat(alloc: Global, case: &Case) -> Result<String, CaseFault> {
    let piece = case.text(0)?;
    let mut bytes = Vec::new(alloc);
    for _ in 0..number(case.value(1)?)? {
        bytes.extend_from_slice(piece.as_bytes())?;
    }
    match Text::from_bytes(alloc, bytes.as_slice()) {
        Ok(text) => {
            let len = text.len();
            Ok(format!(in alloc; "lines {len}")?)
        }
        Err(fault) => fault_text(alloc, fault),
    }
}

fn name(alloc: Global, text: &str) -> Result<Name, CaseFault> {
    Ok(Name::new(text.chars().collect(alloc)?))
}

/// The change of a step: two places, and a text.
fn change_of(alloc: Global, step: &[Value]) -> Result<Change, CaseFault> {
    Ok(Change {
        from_line: number_at(step, 1)?,
        from_col: number_at(step, 2)?,
        to_line: number_at(step, 3)?,
        to_col: number_at(step, 4)?,
        text: name(alloc, text_at(step, 5)?)?,
    })
}

fn place_text(alloc: Global, place: Place) -> Result<String, CaseFault> {
    match place {
        Place::NoLine { line, lines } => Ok(format!(in alloc; "no line {line} of {lines}")?),
        Place::NoCol { line, col, len } => {
            Ok(format!(in alloc; "no column {col} of {len} in line {line}")?)
        }
        Place::Reversed => Ok(String::from_str(alloc, "reversed")?),
    }
}

fn refusal(alloc: Global, fault: ChangeFault) -> Result<String, CaseFault> {
    match fault {
        ChangeFault::BadPlace(place) => place_text(alloc, place),
        ChangeFault::TextFull(count) => Ok(format!(in alloc; "full at {count}")?),
        ChangeFault::VersionFull(version) => Ok(format!(in alloc; "version full at {version}")?),
        ChangeFault::OutOfMemory => Err(CaseFault::OutOfMemory),
    }
}

fn effect_text(alloc: Global, effect: LineEffect) -> Result<String, CaseFault> {
    let LineEffect { first, old, new } = effect;
    Ok(format!(in alloc; "first {first} old {old} new {new}")?)
}

fn apply(alloc: Global, text: &mut Text, change: &Change) -> Result<String, CaseFault> {
    match text.apply(change) {
        Ok(effect) => effect_text(alloc, effect),
        Err(fault) => refusal(alloc, fault),
    }
}

/// A plan, the text before it is committed, and its effect.
fn plan(alloc: Global, text: &mut Text, change: &Change) -> Result<String, CaseFault> {
    match text.plan(change) {
        Ok(plan) => {
            let planned = effect_text(alloc, plan.effect())?;
            let before = show(alloc, text)?;
            let done = effect_text(alloc, text.commit(plan))?;
            Ok(format!(in alloc; "{planned} {before} {done}")?)
        }
        Err(fault) => refusal(alloc, fault),
    }
}

/// A copy, the change of the text, and the copy behind it.
fn copy(alloc: Global, text: &mut Text, change: &Change) -> Result<String, CaseFault> {
    let copy = text.copy().map_err(|_| CaseFault::OutOfMemory)?;
    let before = show(alloc, &copy)?;
    let effect = apply(alloc, text, change)?;
    let kept = show(alloc, &copy)?;
    Ok(format!(in alloc; "{before} {effect} {kept}")?)
}

/// One step, and what it answers.
fn step(alloc: Global, text: &mut Text, step: &[Value]) -> Result<String, CaseFault> {
    match text_at(step, 0)? {
        "apply" => {
            let change = change_of(alloc, step)?;
            apply(alloc, text, &change)
        }
        "planned" => {
            let change = change_of(alloc, step)?;
            match by_a_plan(text, &change) {
                Ok(effect) => effect_text(alloc, effect),
                Err(fault) => refusal(alloc, fault),
            }
        }
        "plan" => {
            let change = change_of(alloc, step)?;
            plan(alloc, text, &change)
        }
        "copy" => {
            let change = change_of(alloc, step)?;
            copy(alloc, text, &change)
        }
        "show" => show(alloc, text),
        "len" => {
            let len = text.len();
            Ok(format!(in alloc; "len {len}")?)
        }
        _ => Err(CaseFault::NoCommand),
    }
}

/// `grow COUNT, TEXT`: a text of so many letters, to whose front a text is added: the answer of the change, and how
/// many lines there are then.
pub fn grow(alloc: Global, case: &Case) -> Result<String, CaseFault> {
    let mut bytes = Vec::new(alloc);
    for _ in 0..number(case.value(0)?)? {
        bytes.push(b'a')?;
    }
    let mut text = match Text::from_bytes(alloc, bytes.as_slice()) {
        Ok(text) => text,
        Err(fault) => return fault_text(alloc, fault),
    };
    let change = Change {
        from_line: 0,
        from_col: 0,
        to_line: 0,
        to_col: 0,
        text: name(alloc, case.text(1)?)?,
    };
    let answer = apply(alloc, &mut text, &change)?;
    let len = text.len();
    Ok(format!(in alloc; "{answer}; lines {len}")?)
}

/// `text TEXT, STEPS`: the answers of the steps.
pub fn text(alloc: Global, case: &Case) -> Result<String, CaseFault> {
    let mut text = match Text::from_bytes(alloc, case.text(0)?.as_bytes()) {
        Ok(text) => text,
        Err(fault) => return fault_text(alloc, fault),
    };
    let mut answers = String::new(alloc);
    for item in list(case.value(1)?)? {
        if !answers.is_empty() {
            answers.push_str("; ")?;
        }
        answers.push_str(step(alloc, &mut text, list(item)?)?.as_str())?;
    }
    Ok(answers)
}
