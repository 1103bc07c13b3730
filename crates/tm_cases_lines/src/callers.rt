//! Callers of the promises, proved.
ghost use Rattle.std.specs.Prelude.{◌≡◌, ◌<◌, ◌-◌, ◌^◌, ⊤, [], length, map, string_bytes, IsTrue, IfOk, MatchOption};
ghost use Rattle.tm_app.specs.Complete.{IsGood};
ghost use Rattle.tm_app.specs.Outcome.{Outcome};
ghost use Rattle.tm_app.specs.inner.Setup.{Work};
ghost use Rattle.tm_cases_lines.specs.Unhindered.{IsFree, IsWhole};
ghost use Rattle.tm_line.specs.Tokenizing.{rules_tokenized};
ghost use Rattle.tm_machine.specs.Entries.{IsFromScratch};
ghost use Rattle.tm_model.specs.Held.{setting_now};
ghost use Rattle.tm_outside.specs.Causes.{Takes};

use std::alloc::Global;
use std::sync::ledger::Ledger;
use tm_app::outcome;
use tm_app::status::Status;
use tm_defs::frames::StateId;
use tm_defs::steps::Steps;
use tm_defs::tables::States;
use tm_defs::texts::Line;
use tm_defs::tokenizer::{LineFault, LineOut, LineTok};
use tm_line::tokenizer::Setting;
use tm_model::model::Model;
use tm_outside::files::Files;
use tm_outside::sink;
use tm_outside::sink::Sink;

/// Whether all steps of a command were done.
pub fn is_done<F: Files, S: Sink>(
    alloc: Global,
    words: &Vec<String>,
    files: &mut F,
    out: &mut S,
    err: &mut S,
) -> bool
    ensures { IsTrue result → Outcome (map string_bytes words.now.items) (F.bytes files.old) (F.failed files.old) (F.failed files.new) (S.taken out.old) (S.taken out.new) (S.faults out.old) (S.faults out.new) Status.Ok }
{
    match outcome::run(alloc, words, files, out, err) {
        Status::Ok => true,
        _ => false,
    }
}

/// Runs a command. Where its words are a command, all files are told and of their forms, no read and no write failed,
/// and nothing stands in the way of its work, all of the work is written, or memory was wanted.
pub fn ends<F: Files, S: Sink>(
    alloc: Global,
    words: &Vec<String>,
    files: &mut F,
    out: &mut S,
    err: &mut S,
) -> Status
    ensures { (work : Work) → IsGood (map string_bytes words.now.items) (F.bytes files.old) (F.failed files.old) (F.failed files.new) (S.faults out.old) (S.faults out.new) work → IsFree work → IsWhole work (S.taken out.old) (S.taken out.new) result }
{
    outcome::run(alloc, words, files, out, err)
}

/// Does the first line that is not good, and says whether line 0 is then what tokenizing the text from its first
/// line gives.
pub fn first_is_done<T: LineTok, L: Ledger>(model: &mut Model<T>, steps: &mut Steps<L>) -> bool
    ensures { IsTrue result → IsFromScratch (setting_now T.plain T.tokenized T.plain_cost T.entries_made model.new) model.new.lines model.new.entries 0 }
{
    match model.line(steps) {
        Ok(_turn) => model.len() > 0 && model.accurate(0),
        Err(_fault) => false,
    }
}

/// A line from the opening state.
pub fn tokenized<S: States, L: Ledger>(
    setting: &Setting,
    table: &mut S,
    line: &Line,
    budget: u64,
    steps: &mut Steps<L>,
) -> Result<LineOut, LineFault>
    requires { length line.now < 2 ^ 31 - 1 }
    ensures { IfOk result (λ out. out.tokens ≡ (rules_tokenized setting.now [] line.now).tokens) }
{
    table.prove_known();
    setting.line(table, StateId(0), line, budget, steps)
}

/// Copies a file to a sink.
pub fn copy<F: Files, S: Sink>(alloc: Global, files: &mut F, name: &str, sink: &mut S) -> bool
    ensures { IsTrue result → MatchOption (F.bytes files.old name.now) ⊤ (λ told.
        Takes (S.taken sink.old) (S.taken sink.new) told) }
{
    let mut bytes = Vec::new(alloc);
    match files.read(name, &mut bytes) {
        Ok(()) => match sink::write_all(sink, bytes.as_slice()) {
            Ok(()) => true,
            Err(_) => false,
        },
        Err(_) => false,
    }
}
