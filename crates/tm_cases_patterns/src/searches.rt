//! What patterns match first.
ghost use Rattle.std.specs.Prelude.{◌<◌, ◌^◌, length};

use crate::patterns::read;
use crate::texts::{chars, unreadable};
use std::alloc::{AllocError, Global};
use tm_cases::{Case, CaseFault};
use tm_defs::texts::Line;
use tm_onig_class::patterns::Pattern;
use tm_onig_vm::fault::FindFault;
use tm_onig_vm::program::{compile, find};

/// The least length, in characters, of a line that is too long.
const TOO_LONG: usize = 0x8000_0000;

/// The groups, the whole match first.
fn groups(alloc: Global, caps: &[Option<(u32, u32)>]) -> Result<String, AllocError> {
    let mut text = String::new(alloc);
    for group in caps {
        if !text.is_empty() {
            text.push(' ')?;
        }
        match group {
            Some((start, end)) => {
                let word = format!(in alloc; "{start}..{end}")?;
                text.push_str(&word)?;
            }
            None => text.push('-')?,
        }
    }
    Ok(text)
}

/// The first match of a pattern in a line, from 0, under a budget.
fn first_match(
    alloc: Global,
    pattern: &Pattern,
    line: &Line,
    budget: u64,
) -> Result<String, CaseFault>
    requires { length line.now < 2 ^ 31 }
{
    let Ok(prog) = compile(alloc, pattern) else {
        return Err(CaseFault::OutOfMemory);
    };
    let mut left = budget;
    match find(alloc, &prog, line, 0, true, true, &mut left) {
        Ok(Some(caps)) => Ok(groups(alloc, caps.as_slice())?),
        Ok(None) => Ok(String::from_str(alloc, "none")?),
        Err(FindFault::Budget) => Ok(String::from_str(alloc, "budget")?),
        Err(FindFault::OutOfMemory) => Err(CaseFault::OutOfMemory),
    }
}

/// `search PATTERN, LINE, BUDGET`: the first match.
pub(crate) fn search(alloc: Global, case: &Case) -> Result<String, CaseFault> {
    let Some(pattern) = read(alloc, chars(alloc, case.text(0)?)?)? else {
        return unreadable(alloc);
    };
    let line = chars(alloc, case.text(1)?)?;
    if line.len() >= TOO_LONG {
        return Err(CaseFault::NoField);
    }
    first_match(alloc, &pattern, &Line::new(line), case.number(2)?)
}
