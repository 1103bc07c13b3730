//! Searches of several patterns at once.
ghost use Rattle.std.specs.Prelude.{◌≡◌, ◌<◌, ◌^◌, length, true, option_map, IfOk};
ghost use Rattle.tm_onig_scan.specs.Winner.{earliest_winner, trees_of};

use crate::lines::{groups, line, name, small};
use serde_json::Value;
use std::alloc::Global;
use tm_cases::{Case, CaseFault};
use tm_defs::caps::Caps;
use tm_defs::texts::Line;
use tm_onig_scan::Scanner;
use tm_onig_vm::fault::FindFault;

/// The values of a list.
pub fn list(case: &Case, place: usize) -> Result<&[Value], CaseFault> {
    match case.value(place)? {
        Value::Array(values) => Ok(values.as_slice()),
        _ => Err(CaseFault::NoField),
    }
}

/// The patterns of these texts.
pub fn scanner_of(alloc: Global, texts: &[Value]) -> Result<Scanner, CaseFault> {
    let mut scanner = Scanner::new(alloc);
    for text in texts {
        add(alloc, &mut scanner, text)?;
    }
    Ok(scanner)
}

/// The numbers of a list.
pub fn numbers_of(alloc: Global, list: &Value) -> Result<Vec<u32>, CaseFault> {
    let Value::Array(values) = list else {
        return Err(CaseFault::NoField);
    };
    let mut numbers = Vec::new(alloc);
    for number in values.as_slice() {
        numbers.push(small(number.as_u64().ok_or(CaseFault::NoField)?)?)?;
    }
    Ok(numbers)
}

/// Adds the pattern of a text; `null` is a place at which nothing matches.
fn add(alloc: Global, scanner: &mut Scanner, text: &Value) -> Result<(), CaseFault> {
    match text.as_str() {
        Some(text) => {
            let text = name(alloc, text)?;
            scanner
                .push(alloc, Some(&text))
                .or(Err(CaseFault::OutOfMemory))?;
        }
        None => scanner.push(alloc, None).or(Err(CaseFault::OutOfMemory))?,
    }
    Ok(())
}

/// The winner with its groups.
pub fn told(
    alloc: Global,
    given: Result<Option<(u32, Caps)>, FindFault>,
) -> Result<String, CaseFault> {
    match given {
        Ok(None) => Ok(format!(in alloc; "none")?),
        Ok(Some((number, caps))) => {
            let groups = groups(alloc, &caps)?;
            Ok(format!(in alloc; "{number}: {groups}")?)
        }
        Err(FindFault::Budget) => Ok(format!(in alloc; "over the budget")?),
        Err(FindFault::OutOfMemory) => Err(CaseFault::OutOfMemory),
    }
}

/// What is found first of the patterns of these numbers: made ready, and searched.
fn found_among(
    alloc: Global,
    scanner: &Scanner,
    numbers: Vec<u32>,
    line: &Line,
    from: u32,
    anchors: &str,
    mut budget: u64,
) -> Result<Option<(u32, Caps)>, FindFault>
    requires { length line.now < 2 ^ 31 }
{
    let candidates = scanner.candidates(alloc, numbers)?;
    let allow_a = anchors.contains('a');
    let allow_g = anchors.contains('g');
    scanner.next_among(
        alloc,
        &candidates,
        line,
        from,
        allow_a,
        allow_g,
        &mut budget,
    )
}

/// `scan PATTERNS, LINE, FROM, ANCHORS, BUDGET`: the winner and its groups, of all patterns and of the list of
/// all their numbers.
pub fn scan(alloc: Global, case: &Case) -> Result<String, CaseFault> {
    let scanner = scanner_of(alloc, list(case, 0)?)?;
    let text = line(alloc, case.text(1)?)?;
    let from = small(case.number(2)?)?;
    let anchors = case.text(3)?;
    let given = case.number(4)?;
    let mut budget = given;
    let allow_a = anchors.contains('a');
    let allow_g = anchors.contains('g');
    let found = scanner.next(alloc, &text, from, allow_a, allow_g, &mut budget);
    let all = told(alloc, found)?;
    let mut numbers = Vec::new(alloc);
    for number in 0..scanner.len() {
        numbers.push(number)?;
    }
    let found = found_among(alloc, &scanner, numbers, &text, from, anchors, given);
    let listed = told(alloc, found)?;
    if all.as_str() == listed.as_str() {
        Ok(all)
    } else {
        Ok(format!(in alloc; "{all}, and by number {listed}")?)
    }
}

/// `among PATTERNS, NUMBERS, LINE, FROM, BUDGET`: the place of the winner among the numbers, and its groups.
pub fn among(alloc: Global, case: &Case) -> Result<String, CaseFault> {
    let scanner = scanner_of(alloc, list(case, 0)?)?;
    let numbers = numbers_of(alloc, case.value(1)?)?;
    let text = line(alloc, case.text(2)?)?;
    let from = small(case.number(3)?)?;
    let budget = case.number(4)?;
    told(
        alloc,
        found_among(alloc, &scanner, numbers, &text, from, "ag", budget),
    )
}

/// `readable PATTERNS`: which of them are.
pub fn readable(alloc: Global, case: &Case) -> Result<String, CaseFault> {
    let scanner = scanner_of(alloc, list(case, 0)?)?;
    let mut text = String::new(alloc);
    for number in 0..scanner.len() {
        if !text.is_empty() {
            text.push(' ')?;
        }
        text.push_str(if scanner.readable(number) {
            "yes"
        } else {
            "no"
        })?;
    }
    Ok(text)
}

/// `grow TEXTS, LINE, BUDGET`: what is found with none of the texts, and after each, whether it is readable and
/// what is found.
pub fn grow(alloc: Global, case: &Case) -> Result<String, CaseFault> {
    let text = line(alloc, case.text(1)?)?;
    let budget = case.number(2)?;
    let mut scanner = Scanner::new(alloc);
    let mut left = budget;
    let found = scanner.next(alloc, &text, 0, true, true, &mut left);
    let mut answer = told(alloc, found)?;
    for added in list(case, 0)? {
        let number = scanner.len();
        add(alloc, &mut scanner, added)?;
        let readable = number < scanner.len() && scanner.readable(number);
        let mut left = budget;
        let found = scanner.next(alloc, &text, 0, true, true, &mut left);
        let told = told(alloc, found)?;
        let word = if readable { "yes" } else { "no" };
        answer.push_str(&format!(in alloc; "; {word} {told}")?)?;
    }
    Ok(answer)
}

/// The number of the pattern that is found earliest from the beginning of a line.
fn first_number(
    alloc: Global,
    scanner: &Scanner,
    line: &Line,
    budget: &mut u64,
) -> Result<Option<u32>, FindFault>
    requires { length line.now < 2 ^ 31 }
    ensures { IfOk result (λ number. number ≡ option_map (λ winner. winner.0) (earliest_winner line.now 0 true true (trees_of scanner.now))) }
{
    match scanner.next(alloc, line, 0, true, true, budget) {
        Ok(Some((number, _))) => Ok(Some(number)),
        Ok(None) => Ok(None),
        Err(fault) => Err(fault),
    }
}

/// `first PATTERNS, LINE, BUDGET`: the number of the pattern that is found earliest from the line's beginning.
pub fn first(alloc: Global, case: &Case) -> Result<String, CaseFault> {
    let scanner = scanner_of(alloc, list(case, 0)?)?;
    let text = line(alloc, case.text(1)?)?;
    let mut budget = case.number(2)?;
    match first_number(alloc, &scanner, &text, &mut budget) {
        Ok(None) => Ok(format!(in alloc; "none")?),
        Ok(Some(number)) => Ok(format!(in alloc; "{number}")?),
        Err(FindFault::Budget) => Ok(format!(in alloc; "over the budget")?),
        Err(FindFault::OutOfMemory) => Err(CaseFault::OutOfMemory),
    }
}
