//! Cases of what stands between files and lines: grammar files as trees, the files of a run, rules by number,
//! and unreadable patterns.
//!
//! Standard input has a case a line, and standard output the answer in the same line. A fault of a case is its
//! answer.
#![tactic(auto)]

mod files;
mod forms;
mod lints;
mod printed;
mod rules;
mod scripts;
mod trees;

use anyhow::Result;
use std::alloc::Global;
use std::io::{BufRead, BufReader};
use tm_cases::{Case, CaseFault, one_line};

/// The answer of a case about one file.
fn answer_of_file(alloc: Global, case: &Case) -> Result<String, CaseFault> {
    match case.command() {
        "tree" => trees::answer(alloc, case.text(0)?.as_bytes()),
        "tree_of" => trees::answer(alloc, files::bytes(alloc, case)?.as_slice()),
        "tree_repeated" => trees::kind(alloc, files::nested(alloc, case)?.as_bytes()),
        "settings" => forms::settings(alloc, case.text(0)?.as_bytes()),
        "settings_of" => forms::settings(alloc, files::bytes(alloc, case)?.as_slice()),
        "settings_repeated" => forms::settings_count(
            alloc,
            files::repeated(alloc, case)?.as_bytes(),
        ),
        "grammar" => forms::grammar(alloc, case.text(0)?.as_bytes()),
        "grammar_of" => forms::grammar(alloc, files::bytes(alloc, case)?.as_slice()),
        "text_of" => forms::text(alloc, files::bytes(alloc, case)?.as_slice()),
        "text_repeated" => forms::text_length(alloc, files::repeated(alloc, case)?.as_bytes()),
        "script" => scripts::answer(alloc, case.text(0)?.as_bytes()),
        "script_of" => scripts::answer(alloc, files::bytes(alloc, case)?.as_slice()),
        "scan" => scripts::scan(alloc),
        _ => Err(CaseFault::NoCommand),
    }
}

/// The answer of a case.
fn answer_of(alloc: Global, case: &Case) -> Result<String, CaseFault> {
    match case.command() {
        "rules" => rules::answer(alloc, case.text(0)?),
        "root" => rules::root(alloc, case.text(0)?),
        "tries" => rules::tries_of(alloc, case.number(0)?, case.text(1)?),
        "rules_repeated" => rules::counts(alloc, files::repeated(alloc, case)?.as_str()),
        "rules_chained" => rules::counts(alloc, files::chained(alloc, case)?.as_str()),
        "lint" => lints::answer(alloc, case.text(0)?),
        _ => answer_of_file(alloc, case),
    }
}

/// The answer of a line; a line that is no case answers itself.
fn answer(alloc: Global, line: &str) -> Result<String, CaseFault> {
    match Case::read(alloc, line)? {
        Some(case) => one_line(alloc, answer_of(alloc, &case)?.as_str()),
        None => one_line(alloc, line),
    }
}

fn main(rt: HostRuntime) -> Result<()> {
    for line in BufReader::new(rt.alloc(), rt.reader())?.lines(rt.alloc()) {
        match answer(rt.alloc(), line?.as_str()) {
            Ok(text) => println!(rt; "{text}")?,
            Err(fault) => println!(rt; "fault: {fault}")?,
        }
    }
    Ok(())
}
