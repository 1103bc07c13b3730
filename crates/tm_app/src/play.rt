//! Runs the steps of a script over a model, and writes what they print.
//!
//! The clauses speak of every machine of births that the model stands for: the machine takes the same
//! steps, and what it prints is what was written.
ghost use Rattle.std.specs.Prelude.{◌≡◌, ℕ, List, ◌≤◌, ◌++◌, ◌||◌, IfOk, IfErr, OnOk, IsTrue, Option};
ghost use Rattle.std.specs.List.{list_all};
ghost use Rattle.tm_app.specs.Printed.{shown, is_before, tells_of, work_text, blocked_text};
ghost use Rattle.tm_app.specs.inner.Stands.{StepDone, StepStopped, AllDone, AllStopped};
ghost use Rattle.tm_app.specs.Stops.{IsWriteStop};
ghost use Rattle.tm_forms.specs.Script.{is_built};
ghost use Rattle.tm_outside.specs.Causes.{Takes, TakesFront, Rose};

use crate::printed;
use std::alloc::Global;
use std::sync::ledger::Ledger;
use tm_defs::changes::{Change, ChangeFault};
use tm_defs::events::{Step, Turn};
use tm_defs::steps::Steps;
use tm_defs::tables::TableFault;
use tm_defs::tokenizer::LineTok;
use tm_forms::script::{ScriptStep, Scripted};
use tm_model::model::Model;
use tm_outside::sink;
use tm_outside::sink::{Sink, WriteFault};

/// Why the steps stopped.
#[derive(Clone, Copy, Debug, PartialEq, Eq)]
pub enum Fault {
    SinkFault,
    OutOfMemory,
    TableFull,
    /// The edit at this line of the script has a place that is not in the text.
    BadPlace(u32),
}

/// Writes one line.
pub fn write_line<S: Sink>(text: &str, out: &mut S) -> Result<(), Fault>
    ensures ok { OnOk result (Takes (S.taken out.old) (S.taken out.new) text.now) }
    ensures err { IfErr result (IsWriteStop (TakesFront (S.taken out.old) (S.taken out.new) text.now) (S.faults out.old) (S.faults out.new)) }
    ensures never_falls { S.faults out.old ≤ S.faults out.new }
{
    match sink::write_all(out, text.as_bytes()) {
        Ok(()) => Ok(()),
        Err(WriteFault::Failed) => Err(Fault::SinkFault),
        Err(WriteFault::OutOfMemory) => Err(Fault::OutOfMemory),
    }
}

/// Whether line i stands before the front, and so is accurate.
fn stands_before(front: Option<u32>, i: u32) -> bool
    ensures { result ≡ is_before front i }
{
    match front {
        Some(front) => i < front,
        None => true,
    }
}

/// Writes a line for each line of the text.
fn show<T: LineTok, S: Sink>(alloc: Global, model: &Model<'_, T>, out: &mut S) -> Result<(), Fault>
    ensures ok { OnOk result (Takes (S.taken out.old) (S.taken out.new) (shown model.now.entries)) }
    ensures err { IfErr result (IsWriteStop (TakesFront (S.taken out.old) (S.taken out.new) (shown model.now.entries)) (S.faults out.old) (S.faults out.new)) }
    ensures never_falls { S.faults out.old ≤ S.faults out.new }
{
    model.prove_sound();
    let front = model.front();
    for i in 0..model.len() {
        let accurate = stands_before(front, i);
        match printed::shown_line(alloc, accurate, i, &model.entry(i).tokens) {
            Ok(text) => match write_line(text.as_str(), out) {
                Ok(()) => {}
                Err(fault) => return Err(fault),
            },
            Err(_) => return Err(Fault::OutOfMemory),
        }
    }
    Ok(())
}

/// Tells of the line that ended a settle, if one did.
fn write_blocked<S: Sink>(alloc: Global, blocked: Option<u32>, out: &mut S) -> Result<(), Fault>
    ensures ok { OnOk result (Takes (S.taken out.old) (S.taken out.new) (blocked_text blocked)) }
    ensures err { IfErr result (IsWriteStop (TakesFront (S.taken out.old) (S.taken out.new) (blocked_text blocked)) (S.faults out.old) (S.faults out.new)) }
    ensures never_falls { S.faults out.old ≤ S.faults out.new }
{
    match blocked {
        None => Ok(()),
        Some(i) => match printed::bang_line(alloc, i) {
            Ok(text) => write_line(text.as_str(), out),
            Err(_) => Err(Fault::OutOfMemory),
        },
    }
}

/// Tells what a settle did: a line for the work, and one for the line that ended it, if one did.
fn write_forced<S: Sink>(
    alloc: Global,
    done: u32,
    blocked: Option<u32>,
    out: &mut S,
) -> Result<(), Fault>
    ensures ok { OnOk result (Takes (S.taken out.old) (S.taken out.new) (work_text done ++ blocked_text blocked)) }
    ensures err { IfErr result (IsWriteStop (TakesFront (S.taken out.old) (S.taken out.new) (work_text done ++ blocked_text blocked)) (S.faults out.old) (S.faults out.new)) }
    ensures never_falls { S.faults out.old ≤ S.faults out.new }
{
    match printed::work_line(alloc, done) {
        Ok(text) => match write_line(text.as_str(), out) {
            Ok(()) => write_blocked(alloc, blocked, out),
            Err(fault) => Err(fault),
        },
        Err(_) => Err(Fault::OutOfMemory),
    }
}

fn is_blocked(turn: Turn) -> bool
    ensures { result ≡ tells_of turn }
{
    match turn {
        Turn::Blocked(_) => true,
        _ => false,
    }
}

/// The step `line`. It answers whether it tells of a blocked line, as do all steps.
fn do_line<T: LineTok, S: Sink, L: Ledger>(
    alloc: Global,
    model: &mut Model<'_, T>,
    step: &Scripted,
    out: &mut S,
    steps: &mut Steps<L>,
) -> Result<bool, Fault>
    requires { step.now.step ≡ ScriptStep.Core Step.Line }
    ensures ok { IfOk result (StepDone T.plain T.tokenized T.plain_cost T.entries_made model.old step.now model.new (S.taken out.old) (S.taken out.new)) }
    ensures err { IfErr result (StepStopped T.plain T.tokenized T.plain_cost T.entries_made model.old step.now (S.taken out.old) (S.taken out.new) (S.faults out.old) (S.faults out.new)) }
    ensures never_falls { S.faults out.old ≤ S.faults out.new }
{
    model.prove_sound();
    match model.line(steps) {
        Ok(turn) => match printed::turn_line(alloc, turn) {
            Ok(text) => match write_line(text.as_str(), out) {
                Ok(()) => Ok(is_blocked(turn)),
                Err(fault) => Err(fault),
            },
            Err(_) => Err(Fault::OutOfMemory),
        },
        Err(TableFault::TableFull(_)) => {
            model.prove_sound();
            Err(Fault::TableFull)
        }
        Err(TableFault::OutOfMemory) => Err(Fault::OutOfMemory),
    }
}

/// The step `settle`.
fn do_settle<T: LineTok, S: Sink, L: Ledger>(
    alloc: Global,
    model: &mut Model<'_, T>,
    step: &Scripted,
    out: &mut S,
    steps: &mut Steps<L>,
) -> Result<bool, Fault>
    requires { step.now.step ≡ ScriptStep.Core Step.Settle }
    ensures ok { IfOk result (StepDone T.plain T.tokenized T.plain_cost T.entries_made model.old step.now model.new (S.taken out.old) (S.taken out.new)) }
    ensures err { IfErr result (StepStopped T.plain T.tokenized T.plain_cost T.entries_made model.old step.now (S.taken out.old) (S.taken out.new) (S.faults out.old) (S.faults out.new)) }
    ensures never_falls { S.faults out.old ≤ S.faults out.new }
{
    model.prove_sound();
    match model.settle(steps) {
        Ok(forced) => match write_forced(alloc, forced.done, forced.blocked, out) {
            Ok(()) => Ok(forced.blocked.is_some()),
            Err(fault) => Err(fault),
        },
        Err(TableFault::TableFull(_)) => {
            model.prove_sound();
            Err(Fault::TableFull)
        }
        Err(TableFault::OutOfMemory) => Err(Fault::OutOfMemory),
    }
}

/// The step with which a scan begins.
fn do_quiet_settle<T: LineTok, S: Sink, L: Ledger>(
    alloc: Global,
    model: &mut Model<'_, T>,
    step: &Scripted,
    out: &mut S,
    steps: &mut Steps<L>,
) -> Result<bool, Fault>
    requires { step.now.step ≡ ScriptStep.SettleQuietly }
    ensures ok { IfOk result (StepDone T.plain T.tokenized T.plain_cost T.entries_made model.old step.now model.new (S.taken out.old) (S.taken out.new)) }
    ensures err { IfErr result (StepStopped T.plain T.tokenized T.plain_cost T.entries_made model.old step.now (S.taken out.old) (S.taken out.new) (S.faults out.old) (S.faults out.new)) }
    ensures never_falls { S.faults out.old ≤ S.faults out.new }
{
    model.prove_sound();
    match model.settle(steps) {
        Ok(forced) => match write_blocked(alloc, forced.blocked, out) {
            Ok(()) => Ok(forced.blocked.is_some()),
            Err(fault) => Err(fault),
        },
        Err(TableFault::TableFull(_)) => {
            model.prove_sound();
            Err(Fault::TableFull)
        }
        Err(TableFault::OutOfMemory) => Err(Fault::OutOfMemory),
    }
}

/// The step `edit`. It prints nothing.
fn do_edit<T: LineTok>(
    model: &mut Model<'_, T>,
    step: &Scripted,
    change: &Change,
) -> Result<bool, Fault>
    requires { step.now.step ≡ ScriptStep.Core (Step.Edit change.now) }
    ensures ok { IfOk result (λ seen. (before : Option (List ℕ)) → StepDone T.plain T.tokenized T.plain_cost T.entries_made model.old step.now model.new before before seen) }
    ensures err { IfErr result (λ fault. (before : Option (List ℕ)) (faults : ℕ) → StepStopped T.plain T.tokenized T.plain_cost T.entries_made model.old step.now before before faults faults fault) }
{
    match model.change(change) {
        Ok(_) => Ok(false),
        Err(ChangeFault::BadPlace(_)) => Err(Fault::BadPlace(step.line)),
        Err(ChangeFault::TextFull(_)) => Err(Fault::OutOfMemory),
        Err(ChangeFault::VersionFull(_)) => Err(Fault::OutOfMemory),
        Err(ChangeFault::OutOfMemory) => Err(Fault::OutOfMemory),
    }
}

/// Does one step, and writes what it prints.
fn do_step<T: LineTok, S: Sink, L: Ledger>(
    alloc: Global,
    model: &mut Model<'_, T>,
    step: &Scripted,
    out: &mut S,
    steps: &mut Steps<L>,
) -> Result<bool, Fault>
    requires { IsTrue (is_built step.now) }
    ensures ok { IfOk result (StepDone T.plain T.tokenized T.plain_cost T.entries_made model.old step.now model.new (S.taken out.old) (S.taken out.new)) }
    ensures err { IfErr result (StepStopped T.plain T.tokenized T.plain_cost T.entries_made model.old step.now (S.taken out.old) (S.taken out.new) (S.faults out.old) (S.faults out.new)) }
    ensures never_falls { S.faults out.old ≤ S.faults out.new }
{
    match &step.step {
        ScriptStep::Core(Step::Edit(change)) => do_edit(model, step, change),
        ScriptStep::Core(Step::Line) => do_line(alloc, model, step, out, steps),
        ScriptStep::Core(Step::Settle) => do_settle(alloc, model, step, out, steps),
        ScriptStep::Core(_) => unreachable!(),
        ScriptStep::SettleQuietly => do_quiet_settle(alloc, model, step, out, steps),
        ScriptStep::Show => {
            model.prove_sound();
            match show(alloc, model, out) {
                Ok(()) => Ok(false),
                Err(fault) => Err(fault),
            }
        }
    }
}

fn either(a: bool, b: bool) -> bool
    ensures { result ≡ (a || b) }
{
    a || b
}

/// Does the steps in order, and answers whether what they print tells of a blocked line.
pub fn play<T: LineTok, S: Sink, L: Ledger>(
    alloc: Global,
    model: &mut Model<'_, T>,
    script: &[Scripted],
    out: &mut S,
    steps: &mut Steps<L>,
) -> Result<bool, Fault>
    requires { IsTrue (list_all is_built script.now) }
    ensures ok { IfOk result (AllDone T.plain T.tokenized T.plain_cost T.entries_made model.old script.now (S.taken out.old) (S.taken out.new)) }
    ensures err { IfErr result (AllStopped T.plain T.tokenized T.plain_cost T.entries_made model.old script.now (S.taken out.old) (S.taken out.new) (S.faults out.old) (S.faults out.new)) }
{
    let mut seen = false;
    for step in script {
        match do_step(alloc, model, step, out, steps) {
            Ok(told) => seen = either(seen, told),
            Err(fault) => return Err(fault),
        }
    }
    Ok(seen)
}
