//! Scripts: their steps, or why they are refused.
ghost use Rattle.std.specs.Prelude.{◌≡◌, IfOk, IfErr, Ok};
ghost use Rattle.tm_script.specs.Script.{script_in, IsRefusalOf};

use crate::values::{list, number};
use std::alloc::Global;
use tm_cases::{Case, CaseFault};
use tm_defs::changes::Change;
use tm_defs::events::Step;
use tm_script::script::{Script, ScriptFault};
use tm_script::steps::{ScriptStep, Scripted};

/// The bytes that a script may have.
const MOST_BYTES: usize = 1_073_741_824;

/// Reads a script of any length: one that is too long is want of memory.
fn read(alloc: Global, bytes: &[u8]) -> Result<Script, ScriptFault>
    ensures ok { IfOk result (λ script. script_in bytes.now ≡ Ok script) }
    ensures fault { IfErr result (IsRefusalOf (script_in bytes.now)) }
{
    if bytes.len() > MOST_BYTES {
        return Err(ScriptFault::OutOfMemory);
    }
    Script::from_slice(alloc, bytes)
}

fn fault_text(alloc: Global, fault: ScriptFault) -> Result<String, CaseFault> {
    match fault {
        ScriptFault::BadStep(line) => Ok(format!(in alloc; "BadStep {line}")?),
        ScriptFault::TooManySteps => Ok(String::from_str(alloc, "TooManySteps")?),
        ScriptFault::NotYet => Ok(String::from_str(alloc, "NotYet")?),
        ScriptFault::OutOfMemory => Err(CaseFault::OutOfMemory),
    }
}

fn edit_text(alloc: Global, change: &Change) -> Result<String, CaseFault> {
    let (a, b) = (change.from_line, change.from_col);
    let (c, d) = (change.to_line, change.to_col);
    let mut text = format!(in alloc; "edit {a} {b} {c} {d} ")?;
    text.push('|')?;
    for c in change.text.as_slice() {
        text.push(*c)?;
    }
    text.push('|')?;
    Ok(text)
}

fn core_text(alloc: Global, step: &Step) -> Result<String, CaseFault> {
    match step {
        Step::Edit(change) => edit_text(alloc, change),
        Step::Setting(number) => Ok(format!(in alloc; "setting {number}")?),
        Step::Force(line) => Ok(format!(in alloc; "force {line}")?),
        Step::Line => Ok(String::from_str(alloc, "line")?),
        Step::Settle => Ok(String::from_str(alloc, "settle")?),
        Step::Drain => Ok(String::from_str(alloc, "drain")?),
        Step::Work => Ok(String::from_str(alloc, "work")?),
        Step::Post => Ok(String::from_str(alloc, "post")?),
        Step::Accept => Ok(String::from_str(alloc, "accept")?),
    }
}

fn show_text(alloc: Global, range: &Option<(u32, u32)>) -> Result<String, CaseFault> {
    match range {
        Some((first, last)) => Ok(format!(in alloc; "show {first} {last}")?),
        None => Ok(String::from_str(alloc, "show")?),
    }
}

fn step_text(alloc: Global, scripted: &Scripted) -> Result<String, CaseFault> {
    let line = scripted.line;
    let step = match &scripted.step {
        ScriptStep::Core(step) => core_text(alloc, step)?,
        ScriptStep::Show(range) => show_text(alloc, range)?,
    };
    Ok(format!(in alloc; "{line} {step}")?)
}

/// Each step with its line.
fn steps_text(alloc: Global, script: &Script) -> Result<String, CaseFault> {
    let mut text = String::from_str(alloc, "steps")?;
    for scripted in script.steps() {
        text.push_str("; ")?;
        text.push_str(step_text(alloc, scripted)?.as_str())?;
    }
    Ok(text)
}

/// `script TEXT`: the steps of a script.
pub fn script(alloc: Global, case: &Case) -> Result<String, CaseFault> {
    match read(alloc, case.text(0)?.as_bytes()) {
        Ok(script) => steps_text(alloc, &script),
        Err(fault) => fault_text(alloc, fault),
    }
}

/// `script_bytes LIST`: the steps of a script of these bytes.
pub fn script_bytes(alloc: Global, case: &Case) -> Result<String, CaseFault> {
    let mut bytes = Vec::new(alloc);
    for item in list(case.value(0)?)? {
        bytes.push(u8::try_from(number(item)?).map_err(|_| CaseFault::NoField)?)?;
    }
    match read(alloc, bytes.as_slice()) {
        Ok(script) => steps_text(alloc, &script),
        Err(fault) => fault_text(alloc, fault),
    }
}

/// How many steps there are, and the line of the last one.
fn count_text(alloc: Global, script: &Script) -> Result<String, CaseFault> {
    let count = script.steps().len();
    match script.steps().last() {
        Some(scripted) => {
            let last = step_text(alloc, scripted)?;
            Ok(format!(in alloc; "{count} steps, the last {last}")?)
        }
        None => Ok(String::from_str(alloc, "no steps")?),
    }
}

/// `script_repeated FRONT, TEXT, COUNT, BACK`: how many steps a script has in which a text stands so many times.
pub fn script_repeated(alloc: Global, case: &Case) -> Result<String, CaseFault> {
    let mut bytes = Vec::new(alloc);
    bytes.extend_from_slice(case.text(0)?.as_bytes())?;
    for _ in 0..number(case.value(2)?)? {
        bytes.extend_from_slice(case.text(1)?.as_bytes())?;
    }
    bytes.extend_from_slice(case.text(3)?.as_bytes())?;
    match read(alloc, bytes.as_slice()) {
        Ok(script) => count_text(alloc, &script),
        Err(fault) => fault_text(alloc, fault),
    }
}
