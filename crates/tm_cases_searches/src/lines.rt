//! Lines and names of cases, and the groups of a match as text.
ghost use Rattle.std.specs.Prelude.{◌<◌, ◌^◌, length, IfOk};

use std::alloc::{AllocError, Global};
use tm_cases::CaseFault;
use tm_defs::caps::Caps;
use tm_defs::texts::{Line, Name};

/// The characters of a text.
pub fn chars(alloc: Global, text: &str) -> Result<Vec<char>, AllocError> {
    let mut chars = Vec::new(alloc);
    for c in text.chars() {
        chars.push(c)?;
    }
    Ok(chars)
}

/// A line of a case: they are short.
pub fn line(alloc: Global, text: &str) -> Result<Line, CaseFault>
    ensures { IfOk result (λ line. length line < 2 ^ 31) }
{
    let chars = chars(alloc, text)?;
    if chars.len() > 10_000 {
        return Err(CaseFault::NoField);
    }
    Ok(Line::new(chars))
}

pub fn name(alloc: Global, text: &str) -> Result<Name, AllocError> {
    Ok(Name::new(chars(alloc, text)?))
}

/// A number of a case that is to fit into 32 bits.
pub fn small(number: u64) -> Result<u32, CaseFault> {
    if number <= u32::MAX as u64 {
        Ok(number as u32)
    } else {
        Err(CaseFault::NoField)
    }
}

/// The groups, each as its start and its end, `-` where it is unset.
pub fn groups(alloc: Global, caps: &Caps) -> Result<String, CaseFault> {
    let mut text = String::new(alloc);
    for set in caps.as_slice() {
        if !text.is_empty() {
            text.push(' ')?;
        }
        match set {
            Some((start, end)) => text.push_str(&format!(in alloc; "{start}..{end}")?)?,
            None => text.push('-')?,
        }
    }
    Ok(text)
}
