//! How many of the patterns given, one a line, are readable.

use anyhow::{Result, bail};
use std::io::{BufRead, BufReader};
use tm_defs::texts::Name;
use tm_onig_atom::store::Sets;
use tm_onig_parse::{ParseFault, parse_with};

/// The characters of a text.
pub(crate) fn chars_of(rt: &HostRuntime, text: &str) -> Result<Vec<char>> {
    let mut chars = Vec::new(rt.alloc());
    for c in text.chars() {
        chars.push(c)?;
    }
    Ok(chars)
}

/// Prints how many patterns are readable, and how many are not. All are read with one store of sets.
pub(crate) fn count(rt: &HostRuntime) -> Result<()> {
    let mut readable: u64 = 0;
    let mut unreadable: u64 = 0;
    let mut sets = Sets::new(rt.alloc());
    for line in BufReader::new(rt.alloc(), rt.reader())?.lines(rt.alloc()) {
        let name = Name::new(chars_of(rt, line?.as_str())?);
        match parse_with(rt.alloc(), &mut sets, &name) {
            Ok(_) => readable = readable.saturating_add(1),
            Err(ParseFault::Unreadable) => unreadable = unreadable.saturating_add(1),
            Err(ParseFault::OutOfMemory) => bail!("out of memory"),
        }
    }
    println!(rt; "readable {readable}")?;
    println!(rt; "unreadable {unreadable}")?;
    Ok(())
}
