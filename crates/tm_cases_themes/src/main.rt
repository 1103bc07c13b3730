//! Cases of themes: selectors of scopes, the metadata word, and themes.
//!
//! Standard input has a case a line, and standard output the answer in the same line. A fault of a case is its
//! answer.
#![tactic(auto)]

mod callers;
mod selectors;
mod texts;
mod themes;
mod times;
mod words;

use anyhow::Result;
use std::alloc::Global;
use std::io::{BufRead, BufReader};
use tm_cases::{Case, CaseFault, one_line};

/// The answer of a case.
fn answer_of(alloc: Global, case: &Case) -> Result<String, CaseFault> {
    match case.command() {
        "selector" => selectors::priorities(alloc, case),
        "selector_repeated" => selectors::priorities_of_repeated(alloc, case),
        "first" => selectors::firsts(alloc, case),
        "plain" => themes::by_plain(alloc, case),
        "theme" => themes::by_theme(alloc, case),
        "theme_with" => themes::by_theme_with(alloc, case),
        "many" => themes::by_many(alloc, case),
        "refused" => themes::refused(alloc, case),
        "rules" => themes::counted(alloc, case),
        "below" => times::below(alloc, case),
        "meta_times" => times::meta_times(alloc, case),
        "known_times" => times::known_times(alloc, case),
        "pushed_times" => times::pushed_times(alloc, case),
        "pack" => words::packed(alloc, case),
        "unpack" => words::unpacked(alloc, case),
        _ => Err(CaseFault::NoCommand),
    }
}

/// The answer of a line; a line that is no case answers itself.
fn answer(alloc: Global, line: &str) -> Result<String, CaseFault> {
    match Case::read(alloc, line)? {
        Some(case) => one_line(alloc, answer_of(alloc, &case)?.as_str()),
        None => one_line(alloc, line),
    }
}

fn main(rt: HostRuntime) -> Result<()> {
    for line in BufReader::new(rt.alloc(), rt.reader())?.lines(rt.alloc()) {
        match answer(rt.alloc(), line?.as_str()) {
            Ok(text) => println!(rt; "{text}")?,
            Err(fault) => println!(rt; "fault: {fault}")?,
        }
    }
    Ok(())
}
