//! Selectors and what they match.

use crate::callers::comes_first;
use crate::texts::{name_of, path_of};
use std::alloc::Global;
use tm_cases::{Case, CaseFault};
use tm_defs::texts::Name;
use tm_selector::selector::Selector;

/// The priorities of a selector on the paths from a field on, `none` where it does not match.
fn priorities_of(
    alloc: Global,
    case: &Case,
    text: &Name,
    first: usize,
) -> Result<String, CaseFault> {
    let Ok(selector) = Selector::parse(alloc, text) else {
        return Err(CaseFault::OutOfMemory);
    };
    let mut answer = String::new(alloc);
    for place in first..case.len() {
        let path = path_of(alloc, case.text(place)?)?;
        if place > first {
            answer.push(' ')?;
        }
        match selector.matches(&path) {
            Some(priority) => answer.push_str(format!(in alloc; "{priority}")?.as_str())?,
            None => answer.push_str("none")?,
        }
    }
    Ok(answer)
}

/// `selector TEXT, PATH, PATH, ..`
pub fn priorities(alloc: Global, case: &Case) -> Result<String, CaseFault> {
    let text = name_of(alloc, case.text(0)?)?;
    priorities_of(alloc, case, &text, 1)
}

/// Adds a text so many times.
fn push_times(chars: &mut Vec<char>, text: &str, times: u64) -> Result<(), CaseFault> {
    for _ in 0..times {
        for c in text.chars() {
            chars.push(c)?;
        }
    }
    Ok(())
}

/// `selector_repeated TIMES, OPEN, INNER, CLOSE, PATH, PATH, ..`: the selector is so many times the first text, then
/// the second, then so many times the third.
pub fn priorities_of_repeated(alloc: Global, case: &Case) -> Result<String, CaseFault> {
    let times = case.number(0)?;
    let mut chars = Vec::new(alloc);
    push_times(&mut chars, case.text(1)?, times)?;
    push_times(&mut chars, case.text(2)?, 1)?;
    push_times(&mut chars, case.text(3)?, times)?;
    priorities_of(alloc, case, &Name::new(chars), 4)
}

/// `first TEXT, PATH, PATH, ..`: for each path, whether a rule of the selector is tried before those of the grammar.
pub fn firsts(alloc: Global, case: &Case) -> Result<String, CaseFault> {
    let text = name_of(alloc, case.text(0)?)?;
    let Ok(selector) = Selector::parse(alloc, &text) else {
        return Err(CaseFault::OutOfMemory);
    };
    let mut answer = String::new(alloc);
    for place in 1..case.len() {
        let path = path_of(alloc, case.text(place)?)?;
        if place > 1 {
            answer.push(' ')?;
        }
        answer.push_str(if comes_first(&selector, &path) {
            "yes"
        } else {
            "no"
        })?;
    }
    Ok(answer)
}
