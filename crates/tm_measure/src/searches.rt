//! Searches of lines for a pattern, and programs of a pattern.
//!
//! Standard input has the budget, the pattern, and then the lines.
ghost use Rattle.std.specs.Prelude.{◌<◌, ◌^◌, length};

use crate::patterns::chars_of;
use anyhow::{Result, bail};
use std::io::{BufRead, BufReader};
use tm_defs::texts::{Line, Name};
use tm_onig_class::patterns::Pattern;
use tm_onig_parse::parse;
use tm_onig_vm::fault::FindFault;
use tm_onig_vm::program::{Prog, compile, find, instructions};

/// The least length, in characters, of a line that is too long.
pub(crate) const TOO_LONG: usize = 0x8000_0000;

/// The lines of standard input.
pub(crate) fn lines_of(rt: &HostRuntime) -> Result<Vec<String>> {
    let mut lines = Vec::new(rt.alloc());
    for line in BufReader::new(rt.alloc(), rt.reader())?.lines(rt.alloc()) {
        lines.push(line?)?;
    }
    Ok(lines)
}

/// The pattern of this text.
fn pattern_of(rt: &HostRuntime, text: &str) -> Result<Pattern> {
    match parse(rt.alloc(), &Name::new(chars_of(rt, text)?)) {
        Ok(pattern) => Ok(pattern),
        Err(_) => bail!("the pattern is unreadable, or too large for memory"),
    }
}

fn program_of(rt: &HostRuntime, pattern: &Pattern) -> Result<Prog> {
    match compile(rt.alloc(), pattern) {
        Ok(prog) => Ok(prog),
        Err(_) => bail!("out of memory"),
    }
}

/// Prints start and end of the match in a line, or `none`, and how much of the budget was taken; `budget` where it
/// was used up and ended the search.
fn seek(rt: &HostRuntime, prog: &Prog, text: &str, budget: u64) -> Result<()> {
    let chars = chars_of(rt, text)?;
    if chars.len() >= TOO_LONG {
        bail!("a line of too many characters");
    }
    let line = Line::new(chars);
    let mut left = budget;
    let found = find(rt.alloc(), prog, &line, 0, true, true, &mut left);
    let cost = budget.saturating_sub(left);
    match found {
        Ok(Some(caps)) => match caps.as_slice().first() {
            Some(Some((start, end))) => println!(rt; "{start}..{end} {cost}")?,
            _ => println!(rt; "? {cost}")?,
        },
        Ok(None) => println!(rt; "none {cost}")?,
        Err(FindFault::Budget) => println!(rt; "budget")?,
        Err(FindFault::OutOfMemory) => bail!("out of memory"),
    }
    Ok(())
}

/// Searches each line.
pub(crate) fn search(rt: &HostRuntime) -> Result<()> {
    let lines = lines_of(rt)?;
    let [budget, pattern, texts @ ..] = lines.as_slice() else {
        bail!("no budget and no pattern");
    };
    let budget: u64 = budget.as_str().parse()?;
    let prog = program_of(rt, &pattern_of(rt, pattern.as_str())?)?;
    for text in texts {
        seek(rt, &prog, text.as_str(), budget)?;
    }
    Ok(())
}

/// Makes the program so many times, and prints the number of its instructions.
pub(crate) fn build(rt: &HostRuntime, times: u32) -> Result<()> {
    let lines = lines_of(rt)?;
    let [_, pattern, ..] = lines.as_slice() else {
        bail!("no budget and no pattern");
    };
    let pattern = pattern_of(rt, pattern.as_str())?;
    for _ in 1..times {
        program_of(rt, &pattern)?;
    }
    let count = instructions(&program_of(rt, &pattern)?);
    println!(rt; "{count} instructions")?;
    Ok(())
}
