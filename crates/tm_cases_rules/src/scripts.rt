//! Scripts as their steps, or why they are refused.
ghost use Rattle.std.specs.Prelude.{◌≡◌, IfOk, is_ok};

use crate::forms::refusal_text;
use crate::printed::push_name;
use std::alloc::{AllocError, Global};
use tm_cases::CaseFault;
use tm_defs::changes::Change;
use tm_defs::events::Step;
use tm_defs::memory::OutOfMemory;
use tm_forms::form::Form;
use tm_forms::script::{Script, ScriptStep, Scripted};

/// Whether the bytes of a file are of a form that is built.
fn is_of_form<X: Form + Drop>(alloc: Global, bytes: &[u8]) -> Result<bool, OutOfMemory>
    ensures { IfOk result (λ is. is ≡ is_ok (X.form bytes.now)) }
{
    match X::read(alloc, bytes) {
        Ok(found) => Ok(found.is_ok()),
        Err(fault) => Err(fault),
    }
}

fn push_edit(alloc: Global, text: &mut String, change: &Change) -> Result<(), AllocError> {
    let (a, b) = (change.from_line, change.from_col);
    let (c, d) = (change.to_line, change.to_col);
    text.push_str(format!(in alloc; " edit {a} {b} {c} {d} ")?.as_str())?;
    push_name(text, &change.text)
}

/// A step as the number of its line and what it does.
fn push_step(alloc: Global, text: &mut String, step: &Scripted) -> Result<(), AllocError> {
    let line = step.line;
    text.push_str(format!(in alloc; "{line}")?.as_str())?;
    match &step.step {
        ScriptStep::Core(Step::Edit(change)) => push_edit(alloc, text, change),
        ScriptStep::Core(Step::Line) => text.push_str(" line"),
        ScriptStep::Core(Step::Settle) => text.push_str(" settle"),
        ScriptStep::Core(_) => text.push_str(" other"),
        ScriptStep::SettleQuietly => text.push_str(" quietly"),
        ScriptStep::Show => text.push_str(" show"),
    }
}

/// The steps of a script.
fn steps_text(alloc: Global, script: &Script) -> Result<String, AllocError> {
    let mut text = String::from_str(alloc, "steps")?;
    let mut between = ": ";
    for step in script.as_slice() {
        text.push_str(between)?;
        push_step(alloc, &mut text, step)?;
        between = ", ";
    }
    Ok(text)
}

/// What is answered of a script.
pub(crate) fn answer(alloc: Global, bytes: &[u8]) -> Result<String, CaseFault> {
    if !is_of_form::<Script>(alloc, bytes).or(Err(CaseFault::OutOfMemory))? {
        return Ok(String::from_str(alloc, "NotYet")?);
    }
    match Script::read(alloc, bytes).or(Err(CaseFault::OutOfMemory))? {
        Ok(script) => Ok(steps_text(alloc, &script)?),
        Err(refusal) => Ok(refusal_text(alloc, &refusal)?),
    }
}

/// The steps of a scan.
pub(crate) fn scan(alloc: Global) -> Result<String, CaseFault> {
    let script = Script::scan(alloc).or(Err(CaseFault::OutOfMemory))?;
    Ok(steps_text(alloc, &script)?)
}
