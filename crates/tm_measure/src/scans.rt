//! Scans of lines for several patterns at once, each search from the end of the match before on.
//!
//! Standard input has the number of patterns, the patterns, and then the lines.
ghost use Rattle.std.specs.Prelude.{◌<◌, ◌^◌, length, IfOk};
ghost use Rattle.tm_onig_scan.specs.Rows.{AreCandidates};
ghost use Rattle.tm_onig_scan.specs.Winner.{trees_of};

use crate::patterns::chars_of;
use crate::searches::{TOO_LONG, lines_of};
use anyhow::{Result, bail};
use tm_defs::caps::Caps;
use tm_defs::texts::Name;
use tm_onig_scan::Scanner;
use tm_onig_scan::asked::Asked;
use tm_onig_scan::candidates::Candidates;
use tm_onig_scan::memo::Memo;
use tm_onig_vm::fault::FindFault;
use tm_onig_vm::program::Room;
use tm_onig_vm::starts::Anchors;

/// The budget of a search.
const BUDGET: u64 = 1_000_000_000;

/// Where a search begins: `\A` may match at the beginning of the line, and `\G` anywhere.
fn anchors_at(from: u32) -> Anchors {
    Anchors {
        first: from as usize,
        allow_a: true,
        allow_g: true,
    }
}

/// Where the next search begins: at the match's end, or behind the character after an empty match.
fn behind(from: u32, caps: &Caps) -> u32 {
    match caps.as_slice().first() {
        Some(Some(span)) if span.1 > from => span.1,
        _ => from.saturating_add(1),
    }
}

/// Where the next search begins, behind what was found; none where nothing was.
fn next_start(from: u32, found: Result<Option<(u32, Caps)>, FindFault>) -> Result<Option<u32>> {
    match found {
        Ok(None) => Ok(None),
        Ok(Some(won)) => Ok(Some(behind(from, &won.1))),
        Err(_) => bail!("the budget is used up, or memory is"),
    }
}

/// How many matches a line has.
fn scan_line(
    rt: &HostRuntime,
    scanner: &Scanner,
    candidates: &Candidates,
    text: &[char],
    room: &mut Room,
) -> Result<u64>
    requires candidates { AreCandidates (trees_of scanner.now) candidates.now }
    requires small { length text.now < 2 ^ 31 }
{
    let mut from = 0;
    for count in 0..text.len() as u64 + 1 {
        let asked = Asked {
            text,
            anchors: anchors_at(from),
        };
        let mut budget = BUDGET;
        let found = scanner.first_among(rt.alloc(), candidates, None, asked, room, &mut budget);
        match next_start(from, found)? {
            Some(next) => from = next,
            None => return Ok(count),
        }
    }
    Ok(text.len() as u64)
}

/// The same by what is remembered of the line.
fn remember_line<'a>(
    rt: &HostRuntime,
    scanner: &'a Scanner,
    candidates: &'a Candidates,
    text: &'a [char],
    room: &mut Room,
) -> Result<u64>
    requires candidates { AreCandidates (trees_of scanner.now) candidates.now }
    requires small { length text.now < 2 ^ 31 }
{
    let mut memo = Memo::among(scanner, candidates, None, text);
    let mut from = 0;
    for count in 0..text.len() as u64 + 1 {
        let mut budget = BUDGET;
        let found = memo.first(rt.alloc(), anchors_at(from), room, &mut budget);
        match next_start(from, found)? {
            Some(next) => from = next,
            None => return Ok(count),
        }
    }
    Ok(text.len() as u64)
}

/// The characters of lines, each with its line break.
fn texts_of(rt: &HostRuntime, lines: &[String]) -> Result<Vec<Vec<char>>> {
    let mut texts = Vec::new(rt.alloc());
    for line in lines {
        let mut chars = chars_of(rt, line.as_str())?;
        chars.push('\n')?;
        texts.push(chars)?;
    }
    Ok(texts)
}

/// A scanner of the patterns of these texts.
fn scanner_of(rt: &HostRuntime, patterns: &[String]) -> Result<Scanner> {
    let mut scanner = Scanner::new(rt.alloc());
    for text in patterns {
        let name = Name::new(chars_of(rt, text.as_str())?);
        if scanner.push(rt.alloc(), Some(&name)).is_err() {
            bail!("out of memory");
        }
    }
    Ok(scanner)
}

/// The list of all patterns.
fn list_of(rt: &HostRuntime, scanner: &Scanner) -> Result<Candidates>
    ensures { IfOk result (λ made. AreCandidates (trees_of scanner.now) made) }
{
    let mut numbers = Vec::new(rt.alloc());
    for number in 0..scanner.len() {
        numbers.push(number)?;
    }
    match scanner.candidates(rt.alloc(), numbers) {
        Ok(made) => Ok(made),
        Err(_) => bail!("out of memory"),
    }
}

/// How many matches the lines have, all together.
fn count(
    rt: &HostRuntime,
    scanner: &Scanner,
    candidates: &Candidates,
    texts: &[Vec<char>],
    remembers: bool,
) -> Result<u64>
    requires candidates { AreCandidates (trees_of scanner.now) candidates.now }
{
    let mut room = Room::new(rt.alloc());
    let mut all: u64 = 0;
    for text in texts {
        let text = text.as_slice();
        if text.len() >= TOO_LONG {
            bail!("a line of too many characters");
        }
        let matches = if remembers {
            remember_line(rt, scanner, candidates, text, &mut room)?
        } else {
            scan_line(rt, scanner, candidates, text, &mut room)?
        };
        all = all.saturating_add(matches);
    }
    Ok(all)
}

/// Scans the lines so many times, and prints how many matches they have.
pub(crate) fn scan(rt: &HostRuntime, times: u32, remembers: bool) -> Result<()> {
    let lines = lines_of(rt)?;
    let [number, rest @ ..] = lines.as_slice() else {
        bail!("no number of patterns");
    };
    let number: usize = number.as_str().parse()?;
    if number > rest.len() {
        bail!("fewer patterns than the number says");
    }
    let (patterns, lines) = rest.split_at(number);
    let scanner = scanner_of(rt, patterns)?;
    let candidates = list_of(rt, &scanner)?;
    let texts = texts_of(rt, lines)?;
    for _ in 0..times {
        let all = count(rt, &scanner, &candidates, texts.as_slice(), remembers)?;
        println!(rt; "{all} matches")?;
    }
    Ok(())
}
