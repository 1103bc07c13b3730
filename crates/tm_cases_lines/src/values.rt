//! Numbers and lists out of the fields of a case.

use serde_json::Value;
use std::alloc::Global;
use tm_cases::CaseFault;
use tm_defs::texts::Name;

/// A number of 32 bits.
pub fn small(value: &Value) -> Result<u32, CaseFault> {
    match value.as_u64() {
        Some(number) => u32::try_from(number).map_err(|_| CaseFault::NoField),
        None => Err(CaseFault::NoField),
    }
}

/// The number of 32 bits at this place of a list.
pub fn small_at(list: &[Value], place: usize) -> Result<u32, CaseFault> {
    small(list.get(place).ok_or(CaseFault::NoField)?)
}

pub fn text(value: &Value) -> Result<&str, CaseFault> {
    value.as_str().ok_or(CaseFault::NoField)
}

pub fn list(value: &Value) -> Result<&[Value], CaseFault> {
    match value.as_array() {
        Some(items) => Ok(items.as_slice()),
        None => Err(CaseFault::NoField),
    }
}

/// The numbers of a list.
pub fn numbers(alloc: Global, value: &Value) -> Result<Vec<u32>, CaseFault> {
    let mut numbers = Vec::new(alloc);
    for item in list(value)? {
        numbers.push(small(item)?)?;
    }
    Ok(numbers)
}

/// The texts of a list.
pub fn texts(alloc: Global, value: &Value) -> Result<Vec<String>, CaseFault> {
    let mut texts = Vec::new(alloc);
    for item in list(value)? {
        texts.push(String::from_str(alloc, text(item)?)?)?;
    }
    Ok(texts)
}

pub fn bytes(alloc: Global, text: &str) -> Result<Vec<u8>, CaseFault> {
    Ok(Vec::from_slice(alloc, text.as_bytes())?)
}

pub fn characters(alloc: Global, text: &str) -> Result<Vec<char>, CaseFault> {
    Ok(text.chars().collect(alloc)?)
}

pub fn name(alloc: Global, text: &str) -> Result<Name, CaseFault> {
    Ok(Name::new(characters(alloc, text)?))
}

/// Characters as a text.
pub fn joined(alloc: Global, characters: &[char]) -> Result<String, CaseFault> {
    let mut text = String::new(alloc);
    for c in characters {
        text.push(*c)?;
    }
    Ok(text)
}

/// Bytes as a text; those that are not UTF-8 are told as such.
pub fn shown(bytes: &[u8]) -> &str {
    std::str::from_utf8(bytes).unwrap_or("not UTF-8")
}
