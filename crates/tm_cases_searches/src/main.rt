//! Cases of searches: one pattern, several patterns at once, and texts that refer to what was captured.
//!
//! Standard input has a case a line, and standard output the answer in the same line; a fault of a case is its
//! answer.
#![tactic(auto)]

mod lines;
mod memos;
mod places;
mod scans;
mod searches;
mod templates;
mod trees;

use anyhow::Result;
use std::alloc::Global;
use std::io::{BufRead, BufReader};
use tm_cases::{Case, CaseFault, one_line};

/// The answer of a case of a template or an end.
fn answer_of_text(alloc: Global, case: &Case) -> Result<String, CaseFault> {
    match case.command() {
        "template" => templates::template(alloc, case),
        "fixed" => templates::fixed(alloc, case),
        "end" => templates::end(alloc, case),
        "refers" => templates::refers(alloc, case),
        _ => Err(CaseFault::NoCommand),
    }
}

/// The answer of a case.
fn answer_of(alloc: Global, case: &Case) -> Result<String, CaseFault> {
    match case.command() {
        "search" => searches::search(alloc, case),
        "instructions" => searches::instructions_of(alloc, case),
        "instructions_counted" => searches::instructions_counted(alloc, case),
        "scan" => scans::scan(alloc, case),
        "among" => scans::among(alloc, case),
        "readable" => scans::readable(alloc, case),
        "grow" => scans::grow(alloc, case),
        "first" => scans::first(alloc, case),
        "instead" => places::instead(alloc, case),
        "memo" => memos::memo(alloc, case),
        "memo_among" => memos::memo_among(alloc, case),
        _ => answer_of_text(alloc, case),
    }
}

/// The answer of a line; a line that is no case answers itself.
fn answer(alloc: Global, line: &str) -> Result<String, CaseFault> {
    match Case::read(alloc, line)? {
        Some(case) => one_line(alloc, answer_of(alloc, &case)?.as_str()),
        None => one_line(alloc, line),
    }
}

fn main(rt: HostRuntime) -> Result<()> {
    for line in BufReader::new(rt.alloc(), rt.reader())?.lines(rt.alloc()) {
        match answer(rt.alloc(), line?.as_str()) {
            Ok(text) => println!(rt; "{text}")?,
            Err(fault) => println!(rt; "fault: {fault}")?,
        }
    }
    Ok(())
}
