//! A program to measure the layers below the lines by: `parse`, `search`, `build N`, `scan N`,
//! `remember N` and `rules`.
//!
//! Each command reads standard input whole; scripts of bench/ give it generated patterns, lines and grammars.
#![tactic(auto)]

mod grammars;
mod patterns;
mod scans;
mod searches;

use anyhow::{Result, bail};
use std::env;

/// How many times something is done: once, where no number is given.
fn times_of(word: Option<String>) -> Result<u32> {
    match word {
        Some(times) => Ok(times.as_str().parse()?),
        None => Ok(1),
    }
}

fn main(rt: HostRuntime) -> Result<()> {
    let mut words = env::args(&rt)?.skip(1);
    let Some(command) = words.next() else {
        bail!("usage: tm_measure parse, search, build N, scan N, remember N, rules");
    };
    match command.as_str() {
        "parse" => patterns::count(&rt),
        "search" => searches::search(&rt),
        "build" => { searches::build(&rt, times_of(words.next())?) }
        "scan" => scans::scan(&rt, times_of(words.next())?, false),
        "remember" => scans::scan(&rt, times_of(words.next())?, true),
        "rules" => grammars::count(&rt),
        _ => bail!("usage: tm_measure parse, search, build N, scan N, remember N, rules"),
    }
}
