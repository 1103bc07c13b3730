//! Answers cases of lines, models, files in memory and whole runs: a case a line on the standard input, an answer
//! a line on the standard output.
#![tactic(auto)]

mod callers;
mod files;
mod lines;
mod models;
mod outside;
mod runs;
mod small;
mod values;

use std::alloc::Global;
use std::io;
use tm_cases::{Case, CaseFault, one_line};

/// The answer to a line; a line that is no case is its own.
fn answer(rt: HostRuntime, alloc: Global, line: &str) -> Result<String, CaseFault> {
    let Some(case) = Case::read(alloc, line)? else {
        return Ok(String::from_str(alloc, line)?);
    };
    let text = match case.command() {
        "run" => runs::run(alloc, &case)?,
        "each" => runs::each(alloc, &case)?,
        "tokens" => runs::tokens(alloc, &case)?,
        "line" => lines::line(alloc, &case)?,
        "runs" => lines::runs(alloc, &case)?,
        "type" => lines::type_of(alloc, &case)?,
        "model" => models::model(alloc, &case)?,
        "reads" => outside::reads(alloc, &case)?,
        "writes" => outside::writes(alloc, &case)?,
        "copy" => outside::copies(alloc, &case)?,
        "real" => outside::real(rt, alloc, &case)?,
        "streams" => outside::streams(rt, alloc)?,
        "fault" => outside::fault(alloc, &case)?,
        _ => return Err(CaseFault::NoCommand),
    };
    one_line(alloc, text.as_str())
}

fn main(rt: HostRuntime) -> io::Result<()> {
    let alloc = rt.alloc();
    for line in rt.lines(alloc) {
        let line = line?;
        match answer(rt, alloc, line.as_str()) {
            Ok(text) => println!(rt; "{text}")?,
            Err(fault) => println!(rt; "fault: {fault}")?,
        }
    }
    Ok(())
}
