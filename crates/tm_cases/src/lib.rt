//! Cases as data: a line of text, read as a command and its fields.
//!
//! A table of cases costs the gate nothing but the run of the program that answers it, where a test is proved
//! row by row. Each program of cases reads its standard input with this crate, a case a line, and prints an
//! answer a line, so that both files agree line by line.
#![tactic(auto)]

use serde_json::{Error as JsonError, Value};
use std::alloc::{AllocError, AllocFailed, Global};
use thiserror::Error;

/// Why a line or a field is not what the program of cases asked for.
#[derive(Clone, Copy, Debug, PartialEq, Eq, Error)]
pub enum CaseFault {
    /// The fields of the line are not JSON values with commas between them.
    #[error("the fields are not JSON values with commas between them")]
    NotFields,
    /// The field is absent, or of another kind.
    #[error("a field is absent or of another kind")]
    NoField,
    /// The command is not one of the program's.
    #[error("no command of this program")]
    NoCommand,
    /// Memory was refused.
    #[error("out of memory")]
    OutOfMemory,
}

impl<T: Drop> From<AllocFailed<T>> for CaseFault {
    fn from(_fault: AllocFailed<T>) -> CaseFault {
        CaseFault::OutOfMemory
    }
}

impl From<AllocError> for CaseFault {
    fn from(_fault: AllocError) -> CaseFault {
        CaseFault::OutOfMemory
    }
}

/// A command and its fields.
#[derive(Drop)]
pub struct Case {
    command: String,
    fields: Vec<Value>,
}

impl Case {
    /// Reads `COMMAND FIELD, FIELD, ..`, where each field is a JSON value, or `COMMAND: TEXT`, whose one field is
    /// the rest of the line as it stands, `⏎` for a line feed. A blank line and one that begins with `#` are no
    /// case.
    pub fn read(alloc: Global, line: &str) -> Result<Option<Case>, CaseFault> {
        if line.trim().is_empty() || line.starts_with('#') {
            return Ok(None);
        }
        let (command, rest) = line.split_once(' ').unwrap_or((line, ""));
        let (command, fields) = match command.strip_suffix(':') {
            Some(command) => (command, plain_field(alloc, rest)?),
            None => (command, json_fields(alloc, rest)?),
        };
        Ok(Some(Case {
            command: String::from_str(alloc, command)?,
            fields,
        }))
    }

    pub fn command(&self) -> &str {
        self.command.as_str()
    }

    /// How many fields there are.
    pub fn len(&self) -> usize {
        self.fields.len()
    }

    /// The field at this place, counted from 0.
    pub fn value(&self, place: usize) -> Result<&Value, CaseFault> {
        self.fields.get(place).ok_or(CaseFault::NoField)
    }

    /// The text at this place.
    pub fn text(&self, place: usize) -> Result<&str, CaseFault> {
        self.value(place)?.as_str().ok_or(CaseFault::NoField)
    }

    /// The whole number at this place.
    pub fn number(&self, place: usize) -> Result<u64, CaseFault> {
        self.value(place)?.as_u64().ok_or(CaseFault::NoField)
    }
}

/// The rest of a line as its one field.
fn plain_field(alloc: Global, rest: &str) -> Result<Vec<Value>, CaseFault> {
    let mut text = String::new(alloc);
    for c in rest.chars() {
        text.push(if c == '⏎' { '\n' } else { c })?;
    }
    let mut fields = Vec::new(alloc);
    fields.push(Value::String(text))?;
    Ok(fields)
}

/// The JSON values of a line.
fn json_fields(alloc: Global, rest: &str) -> Result<Vec<Value>, CaseFault> {
    let list = format!(in alloc; "[{rest}]")?;
    match Value::from_str(alloc, list.as_str()) {
        Ok(Value::Array(fields)) => Ok(fields),
        Ok(_) => Err(CaseFault::NotFields),
        Err(fault) => Err(fault_of(&fault)),
    }
}

fn fault_of(fault: &JsonError) -> CaseFault {
    if fault.is_memory() {
        CaseFault::OutOfMemory
    } else {
        CaseFault::NotFields
    }
}

/// The text in one line: `⏎` for each line feed.
pub fn one_line(alloc: Global, text: &str) -> Result<String, CaseFault> {
    let mut line = String::new(alloc);
    for c in text.chars() {
        line.push(if c == '\n' { '⏎' } else { c })?;
    }
    Ok(line)
}
