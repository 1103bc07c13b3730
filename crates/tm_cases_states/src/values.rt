//! Texts, lists and numbers between cases and tables.

use std::alloc::Global;
use tm_cases::{Case, CaseFault};
use tm_defs::memory::OutOfMemory;
use tm_defs::tables::TableFault;
use tm_defs::texts::{Name, ScopePath};

pub fn refused(_fault: OutOfMemory) -> CaseFault {
    CaseFault::OutOfMemory
}

/// A whole number of a case that fits 32 bits.
pub fn number(case: &Case, place: usize) -> Result<u32, CaseFault> {
    u32::try_from(case.number(place)?).map_err(|_| CaseFault::NoField)
}

pub fn name_of(alloc: Global, text: &str) -> Result<Name, CaseFault> {
    let mut chars = Vec::new(alloc);
    for c in text.chars() {
        chars.push(c)?;
    }
    Ok(Name::new(chars))
}

/// The names of a text, with a separator between them.
pub fn path_of(alloc: Global, text: &str, between: char) -> Result<ScopePath, CaseFault> {
    let mut names = Vec::new(alloc);
    for word in text.split(between) {
        if !word.is_empty() {
            names.push(name_of(alloc, word)?)?;
        }
    }
    Ok(ScopePath::new(names))
}

pub fn write_name(into: &mut String, name: &Name) -> Result<(), CaseFault> {
    for c in name.as_slice() {
        into.push(*c)?;
    }
    Ok(())
}

/// The names with a separator between them.
pub fn write_path(into: &mut String, path: &ScopePath, between: char) -> Result<(), CaseFault> {
    let mut first = true;
    for name in path.as_slice() {
        if !first {
            into.push(between)?;
        }
        first = false;
        write_name(into, name)?;
    }
    Ok(())
}

/// The number that a table gave, or the limit that it is full at.
pub fn numbered(alloc: Global, answer: Result<u32, TableFault>) -> Result<String, CaseFault> {
    match answer {
        Ok(number) => Ok(format!(in alloc; "{number}")?),
        Err(TableFault::TableFull(limit)) => Ok(format!(in alloc; "full {limit}")?),
        Err(TableFault::OutOfMemory) => Err(CaseFault::OutOfMemory),
    }
}

/// The answer to a number that the table has not given.
pub fn unknown(alloc: Global) -> Result<String, CaseFault> {
    Ok(String::from_str(alloc, "unknown")?)
}
