//! Names, numbers and texts that may be absent, in a line of an answer.

use std::alloc::{AllocError, Global};
use tm_defs::texts::Name;

pub(crate) fn push_name(text: &mut String, name: &Name) -> Result<(), AllocError> {
    for c in name.as_slice() {
        text.push(*c)?;
    }
    Ok(())
}

/// Adds a word and a text, where there is one.
pub(crate) fn push_text(
    text: &mut String,
    word: &str,
    value: &Option<Name>,
) -> Result<(), AllocError> {
    if let Some(value) = value {
        text.push_str(word)?;
        push_name(text, value)?;
    }
    Ok(())
}

pub(crate) fn push_number(alloc: Global, text: &mut String, number: u32) -> Result<(), AllocError> {
    text.push_str(format!(in alloc; "{number}")?.as_str())
}

/// `BadShape` with the path of the first wrong value.
pub(crate) fn bad_shape(alloc: Global, path: &Name) -> Result<String, AllocError> {
    let mut text = String::from_str(alloc, "BadShape(")?;
    push_name(&mut text, path)?;
    text.push(')')?;
    Ok(text)
}
