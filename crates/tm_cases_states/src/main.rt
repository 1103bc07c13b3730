//! Answers cases of numbered texts, scope lists and states: a case a line on the standard input, an answer a line
//! on the standard output. Each case works on the tables that the cases before it left.
#![tactic(auto)]

mod copies;
mod scopes;
mod states;
mod values;

use std::alloc::Global;
use std::io;
use tm_cases::{Case, CaseFault, one_line};
use tm_scope::scopes::ScopeTable;
use tm_state::states::StateTable;

/// The tables that the cases work on.
#[derive(Drop)]
struct Tables {
    scopes: ScopeTable,
    states: StateTable,
}

/// The answer to a line; a line that is no case is its own.
fn answer(alloc: Global, tables: &mut Tables, line: &str) -> Result<String, CaseFault> {
    let Some(case) = Case::read(alloc, line)? else {
        return Ok(String::from_str(alloc, line)?);
    };
    let text = match case.command() {
        "scopes" => scopes::begin(alloc, &mut tables.scopes, &case)?,
        "text" => scopes::text(alloc, &mut tables.scopes, &case)?,
        "name" => scopes::name(alloc, &tables.scopes, &case)?,
        "push" => scopes::push(alloc, &mut tables.scopes, &case)?,
        "last" => scopes::last(alloc, &tables.scopes, &case)?,
        "path" => scopes::path(alloc, &mut tables.scopes, &case)?,
        "names" => scopes::names(alloc, &tables.scopes, &case)?,
        "counts" => scopes::counts(alloc, &tables.scopes)?,
        "states" => states::begin(alloc, &mut tables.states, &case)?,
        "put" => states::put(alloc, &mut tables.states, &case)?,
        "frames" => states::frames(alloc, &tables.states, &case)?,
        "same" => states::same(alloc, &tables.states, &case)?,
        "diff" => states::diff(alloc, &tables.states, &case)?,
        "apply" => states::apply(alloc, &mut tables.states, &case)?,
        "again" => states::again(alloc, &mut tables.states, &case)?,
        "top" => states::top(alloc, &tables.states, &case)?,
        "reintern" => states::reintern(alloc, &mut tables.states, &case)?,
        "fill" => states::fill(alloc, &mut tables.states, &case)?,
        "times" => states::times(alloc, &mut tables.states, &case)?,
        "sizes" => states::sizes(alloc, &tables.states)?,
        "number_of" => copies::listed(alloc, &mut tables.states, &case)?,
        "copied" => copies::copied(alloc, &case)?,
        _ => return Err(CaseFault::NoCommand),
    };
    one_line(alloc, text.as_str())
}

fn main(rt: HostRuntime) -> io::Result<()> {
    let alloc = rt.alloc();
    let Ok(scopes) = ScopeTable::new(alloc, 1) else {
        return Ok(());
    };
    let Ok(states) = StateTable::new(alloc, 1) else {
        return Ok(());
    };
    let mut tables = Tables { scopes, states };
    for line in rt.lines(alloc) {
        let line = line?;
        match answer(alloc, &mut tables, line.as_str()) {
            Ok(text) => println!(rt; "{text}")?,
            Err(fault) => println!(rt; "fault: {fault}")?,
        }
    }
    Ok(())
}
