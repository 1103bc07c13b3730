//! Cases of patterns: sets of characters, escapes and classes, whole patterns, and what they match first.
//!
//! Standard input has a case a line, and standard output the answer in the same line. What is no pattern is
//! `unreadable`; a fault of a case is its answer.
#![tactic(auto)]

mod atoms;
mod patterns;
mod searches;
mod sets;
mod texts;
mod trees;

use anyhow::Result;
use std::alloc::Global;
use std::io::{BufRead, BufReader};
use tm_cases::{Case, CaseFault, one_line};

/// The answer of a case about sets.
fn answer_of_set(alloc: Global, case: &Case) -> Result<String, CaseFault> {
    match case.command() {
        "listed" => sets::listed(alloc, case),
        "named" => sets::named(alloc, case),
        "named_i" => sets::named_folded(alloc, case),
        "set" => sets::set(alloc, case),
        "word" => sets::words(alloc, case),
        "space" => sets::spaces(alloc, case),
        _ => Err(CaseFault::NoCommand),
    }
}

/// The answer of a case.
fn answer_of(alloc: Global, case: &Case) -> Result<String, CaseFault> {
    match case.command() {
        "atom" => atoms::atom(alloc, case, false),
        "atom_i" => atoms::atom(alloc, case, true),
        "class" => atoms::class_within(alloc, case),
        "class_repeated" => atoms::class_repeated(alloc, case),
        "pattern" => patterns::pattern(alloc, case),
        "pattern_repeated" => patterns::pattern_repeated(alloc, case),
        "search" => searches::search(alloc, case),
        _ => answer_of_set(alloc, case),
    }
}

/// The answer of a line; a line that is no case answers itself.
fn answer(alloc: Global, line: &str) -> Result<String, CaseFault> {
    match Case::read(alloc, line)? {
        Some(case) => one_line(alloc, answer_of(alloc, &case)?.as_str()),
        None => one_line(alloc, line),
    }
}

fn main(rt: HostRuntime) -> Result<()> {
    for line in BufReader::new(rt.alloc(), rt.reader())?.lines(rt.alloc()) {
        match answer(rt.alloc(), line?.as_str()) {
            Ok(text) => println!(rt; "{text}")?,
            Err(fault) => println!(rt; "fault: {fault}")?,
        }
    }
    Ok(())
}
