//! The texts of cases, and characters as answers show them.

use std::alloc::{AllocError, Global};
use tm_cases::{Case, CaseFault};
use tm_defs::memory::OutOfMemory;

/// What is printed of what is no pattern.
const UNREADABLE: &str = "unreadable";

/// The answer for what is no pattern.
pub(crate) fn unreadable(alloc: Global) -> Result<String, CaseFault> {
    Ok(String::from_str(alloc, UNREADABLE)?)
}

/// The value, where memory sufficed.
pub(crate) fn made<T>(value: Result<T, OutOfMemory>) -> Result<T, CaseFault> {
    match value {
        Ok(value) => Ok(value),
        Err(OutOfMemory) => Err(CaseFault::OutOfMemory),
    }
}

/// The characters of a text.
pub(crate) fn chars(alloc: Global, text: &str) -> Result<Vec<char>, AllocError> {
    let mut chars = Vec::new(alloc);
    for c in text.chars() {
        chars.push(c)?;
    }
    Ok(chars)
}

/// Adds a text so many times.
fn push_times(chars: &mut Vec<char>, text: &str, times: u64) -> Result<(), AllocError> {
    for _ in 0..times {
        for c in text.chars() {
            chars.push(c)?;
        }
    }
    Ok(())
}

/// The fields `TIMES, OPEN, INNER, CLOSE`: so many times the first text, then the second, then so many times
/// the third.
pub(crate) fn repeated(alloc: Global, case: &Case) -> Result<Vec<char>, CaseFault> {
    let times = case.number(0)?;
    let mut chars = Vec::new(alloc);
    push_times(&mut chars, case.text(1)?, times)?;
    push_times(&mut chars, case.text(2)?, 1)?;
    push_times(&mut chars, case.text(3)?, times)?;
    Ok(chars)
}

/// Whether a character is printed as it stands: the letters and signs of Latin-1.
fn is_plain(c: char) -> bool {
    matches!(c, ' '..='~' | '\u{A1}'..='\u{FF}')
}

/// Adds a character as it stands, or its number.
pub(crate) fn push_shown(alloc: Global, text: &mut String, c: char) -> Result<(), AllocError> {
    if is_plain(c) {
        return text.push(c);
    }
    let code = c as u32;
    let number = format!(in alloc; "\\u{{{code:X}}}")?;
    text.push_str(&number)
}
