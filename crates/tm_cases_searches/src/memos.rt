//! One list of patterns in one line, asked again and again.
use crate::lines::{line, small};
use crate::places::program_of;
use crate::scans::{list, numbers_of, scanner_of, told};
use serde_json::Value;
use std::alloc::Global;
use tm_cases::{Case, CaseFault};
use tm_onig_scan::asked::Instead;
use tm_onig_scan::memo::Memo;

/// What is found from a position, with anchors and a budget: `[FROM, ANCHORS, BUDGET]`.
fn ask(alloc: Global, memo: &mut Memo, asked: &Value) -> Result<String, CaseFault> {
    let Value::Array(fields) = asked else {
        return Err(CaseFault::NoField);
    };
    let [from, anchors, budget] = fields.as_slice() else {
        return Err(CaseFault::NoField);
    };
    let from = small(from.as_u64().ok_or(CaseFault::NoField)?)?;
    let anchors = anchors.as_str().ok_or(CaseFault::NoField)?;
    let mut budget = budget.as_u64().ok_or(CaseFault::NoField)?;
    let allow_a = anchors.contains('a');
    let allow_g = anchors.contains('g');
    told(alloc, memo.next(alloc, from, allow_a, allow_g, &mut budget))
}

/// The answers, one after another.
fn ask_all(alloc: Global, memo: &mut Memo, asks: &[Value]) -> Result<String, CaseFault> {
    let mut answers = String::new(alloc);
    for asked in asks {
        if !answers.is_empty() {
            answers.push_str("; ")?;
        }
        answers.push_str(&ask(alloc, memo, asked)?)?;
    }
    Ok(answers)
}

/// `memo PATTERNS, LINE, ASKS`: of all patterns.
pub fn memo(alloc: Global, case: &Case) -> Result<String, CaseFault> {
    let scanner = scanner_of(alloc, list(case, 0)?)?;
    let line = line(alloc, case.text(1)?)?;
    let mut memo = Memo::new(&scanner, &line);
    ask_all(alloc, &mut memo, list(case, 2)?)
}

/// `memo_among PATTERNS, NUMBERS, PLACE, TEXT, LINE, ASKS`: of a list, with the pattern of a text at one of its places, or
/// with none there for `null`.
pub fn memo_among(alloc: Global, case: &Case) -> Result<String, CaseFault> {
    let scanner = scanner_of(alloc, list(case, 0)?)?;
    let numbers = numbers_of(alloc, case.value(1)?)?;
    let program = program_of(alloc, case.value(3)?)?;
    let instead = Instead {
        place: small(case.number(2)?)?,
        program: program.as_ref(),
    };
    let line = line(alloc, case.text(4)?)?;
    let candidates = scanner
        .candidates(alloc, numbers)
        .or(Err(CaseFault::OutOfMemory))?;
    let mut memo = Memo::among(&scanner, &candidates, Some(instead), line.as_slice());
    ask_all(alloc, &mut memo, list(case, 5)?)
}
