//! Files in memory, out of the fields of a case.

use crate::values::{bytes, numbers};
use serde_json::Value;
use std::alloc::Global;
use tm_cases::CaseFault;
use tm_outside::memory::{MemFiles, MemSink};

/// The settings file of a case that gives none.
const SETTINGS: &str = r#"{"settings":[{"grammar":"g"}]}"#;

/// A piece so many times between two others.
fn repeated(alloc: Global, value: &Value, times: u64) -> Result<String, CaseFault> {
    let mut text = String::from_str(alloc, part(value, "front"))?;
    let each = part(value, "each");
    for _ in 0..times {
        text.push_str(each)?;
    }
    text.push_str(part(value, "back"))?;
    Ok(text)
}

fn part<'v>(value: &'v Value, key: &str) -> &'v str {
    value.get(key).and_then(Value::as_str).unwrap_or("")
}

/// A text as it stands, an object with `times` as the text `front`, so many times `each`, and `back`, and any other
/// value as its JSON.
fn piece(alloc: Global, value: &Value) -> Result<String, CaseFault> {
    if let Some(text) = value.as_str() {
        return Ok(String::from_str(alloc, text)?);
    }
    match value.get("times").and_then(Value::as_u64) {
        Some(times) => repeated(alloc, value, times),
        None => Ok(value.to_string(alloc)?),
    }
}

/// The text of a file: a piece, or a list of them with line feeds between.
pub fn text_of(alloc: Global, value: &Value) -> Result<String, CaseFault> {
    let Some(lines) = value.as_array() else {
        return piece(alloc, value);
    };
    let mut text = String::new(alloc);
    for (i, line) in lines.iter().enumerate() {
        if i != 0 {
            text.push('\n')?;
        }
        text.push_str(piece(alloc, line)?.as_str())?;
    }
    Ok(text)
}

/// A file of this text.
pub fn add(
    alloc: Global,
    files: &mut Vec<(String, Vec<u8>)>,
    name: &str,
    text: &str,
) -> Result<(), CaseFault> {
    files.push((String::from_str(alloc, name)?, bytes(alloc, text)?))?;
    Ok(())
}

/// The files of an object, and the settings file `s` where that names none.
pub fn files_of(alloc: Global, value: &Value) -> Result<Vec<(String, Vec<u8>)>, CaseFault> {
    let Some(members) = value.as_object() else {
        return Err(CaseFault::NoField);
    };
    let mut files = Vec::new(alloc);
    for (name, value) in members.iter() {
        let text = text_of(alloc, value)?;
        add(alloc, &mut files, name.as_str(), text.as_str())?;
    }
    if value.get("s").is_none() {
        add(alloc, &mut files, "s", SETTINGS)?;
    }
    Ok(files)
}

/// The numbers of the calls that fail, at a key of the last field of a case.
pub fn failing(alloc: Global, faults: Option<&Value>, key: &str) -> Result<Vec<u32>, CaseFault> {
    match faults.and_then(|faults| faults.get(key)) {
        Some(list) => numbers(alloc, list),
        None => Ok(Vec::new(alloc)),
    }
}

pub fn reader(files: Vec<(String, Vec<u8>)>, failing: Vec<u32>) -> MemFiles {
    MemFiles::new(files, failing)
}

pub fn sink(alloc: Global, failing: Vec<u32>) -> MemSink {
    MemSink::new(Vec::new(alloc), failing)
}
