//! The script file: a step in each line, as a JSON object. It is split into lines first, so that a
//! step's line in the script is known to whoever refuses the step.
ghost use Rattle.std.specs.Prelude.{◌≡◌, map, IfOk, IsTrue, option_map, option_and_then};
ghost use Rattle.std.specs.List.{list_all};
ghost use Rattle.serde_json.specs.View.{view};
ghost use Rattle.tm_forms.specs.Edits.{change_of};
ghost use Rattle.tm_forms.specs.Script.{script_in, lines_in, steps_from, step_in, step_of, step_named, show_of, is_blank, is_built, scan_steps};

use crate::form::{Form, Refusal};
use crate::{edits, json, text, utf8};
use serde_json::Value;
use std::alloc::Global;
use std::marker::Model;
use tm_defs::events::Step;
use tm_defs::memory::OutOfMemory;

/// A step of a script: one of the service, of which `edit`, `line` and `settle` are built, or an order
/// to print.
#[derive(Drop)]
pub enum ScriptStep {
    /// `Step::Edit`, `Step::Line` or `Step::Settle`.
    Core(Step),
    /// `Step::Settle`, which tells only of a blocked line. No script file has it: a scan begins with it.
    SettleQuietly,
    /// All lines of the text are printed with their tokens.
    Show,
}

/// A step with its line in the script, from 0; lines without a step count.
#[derive(Drop)]
pub struct Scripted {
    pub line: u32,
    pub step: ScriptStep,
}

/// The steps of a script, in order, each of them one that is built.
#[derive(Drop)]
pub struct Script {
    steps: Vec<Scripted>,
}

impl Model for Script {
    ghost use Rattle.std.specs.Prelude.{List, IsTrue};
    ghost use Rattle.std.specs.List.{list_all};
    ghost use Rattle.tm_forms.specs.Script.{is_built};
    ghost use Rattle.tm_forms.specs.declared.script.Scripted.{Scripted};

    ghost Value = { List Scripted };

    ghost view = { λ a. a.steps.items };

    ghost invariant = { λ a. IsTrue (list_all is_built a.steps.items) };
}

impl Script {
    /// What a scan does: it settles quietly, and shows all lines.
    pub fn scan(alloc: Global) -> Result<Self, OutOfMemory>
        ensures { IfOk result (λ script. script ≡ scan_steps) }
    {
        let mut steps = Vec::new(alloc);
        steps.push(Scripted {
            line: 0,
            step: ScriptStep::SettleQuietly,
        })?;
        steps.push(Scripted {
            line: 1,
            step: ScriptStep::Show,
        })?;
        Ok(Script { steps })
    }

    /// The steps in the order of their lines.
    pub fn as_slice(&self) -> &[Scripted]
        ensures value { result.now ≡ self.now }
        ensures built { IsTrue (list_all is_built result.now) }
    {
        self.steps.as_slice()
    }
}

fn blank_byte(byte: u8) -> bool
    ensures { result ≡ is_blank byte }
{
    byte == b' ' || byte == b'\t' || byte == b'\r'
}

fn blank(line: &str) -> bool
    ensures { result ≡ list_all is_blank line.now }
{
    line.as_bytes().iter().all(|byte| blank_byte(*byte))
}

fn show_in(value: &Value) -> Option<ScriptStep>
    ensures { result ≡ show_of (view value.now) }
{
    if json::has(value, "from") || json::has(value, "to") {
        None
    } else {
        Some(ScriptStep::Show)
    }
}

fn edit_in(alloc: Global, value: &Value) -> Result<Option<ScriptStep>, OutOfMemory>
    ensures { IfOk result (λ step. step ≡ option_map (λ change. ScriptStep.Core (Step.Edit change)) (change_of (view value.now))) }
{
    match edits::change_in(alloc, value)? {
        Some(change) => Ok(Some(ScriptStep::Core(Step::Edit(change)))),
        None => Ok(None),
    }
}

fn named(alloc: Global, value: &Value, word: &str) -> Result<Option<ScriptStep>, OutOfMemory>
    ensures { IfOk result (λ step. step ≡ step_named (view value.now) word.now) }
{
    if word == "edit" {
        edit_in(alloc, value)
    } else if word == "line" {
        Ok(Some(ScriptStep::Core(Step::Line)))
    } else if word == "settle" {
        Ok(Some(ScriptStep::Core(Step::Settle)))
    } else if word == "show" {
        Ok(show_in(value))
    } else {
        Ok(None)
    }
}

fn step_from(alloc: Global, value: &Value) -> Result<Option<ScriptStep>, OutOfMemory>
    ensures { IfOk result (λ step. step ≡ step_of (view value.now)) }
{
    match value.get("step").and_then(Value::as_str) {
        Some(word) => named(alloc, value, word),
        None => Ok(None),
    }
}

/// The step of a line that is not blank.
fn step_of_line(alloc: Global, line: &str) -> Result<Option<ScriptStep>, OutOfMemory>
    ensures { IfOk result (λ step. step ≡ step_in line.now) }
{
    match json::parse(alloc, line)? {
        Some(value) => step_from(alloc, &value),
        None => Ok(None),
    }
}

/// The steps of the lines. A line's number that leaves a `u32` is want of memory.
fn steps_of(alloc: Global, lines: &[&str]) -> Result<Option<Vec<Scripted>>, OutOfMemory>
    ensures { IfOk result (λ steps. option_map (λ v. v.items) steps ≡ steps_from 0 (map (λ l. l.now) lines.now)) }
{
    let mut steps = Vec::new(alloc);
    let mut next = 0u32;
    for text in lines {
        let line = next;
        let Some(after) = line.checked_add(1) else {
            return Err(OutOfMemory);
        };
        next = after;
        if blank(text) {
            continue;
        }
        let Some(step) = step_of_line(alloc, text)? else {
            return Ok(None);
        };
        steps.push(Scripted { line, step })?;
    }
    Ok(Some(steps))
}

/// The parts of a text between its line feeds.
fn lines_of(alloc: Global, text: &str) -> Result<Vec<&str>, OutOfMemory>
    ensures { IfOk result (λ lines. map (λ l. l.now) lines.items ≡ lines_in text.now) }
{
    let lines = text.split('\n').collect(alloc)?;
    Ok(lines)
}

impl Form for Script {
    ghost use Rattle.std.specs.Prelude.{List, ok_or};
    ghost use Rattle.tm_forms.specs.declared.form.Refusal.TheVariants.{NotYet};
    ghost use Rattle.tm_forms.specs.declared.script.Scripted.{Scripted};

    ghost Plain = { List Scripted };

    ghost plain = { λ script. script };

    ghost form = { λ bytes. ok_or (script_in bytes) NotYet };

    fn read(alloc: Global, bytes: &[u8]) -> Result<Result<Self, Refusal>, OutOfMemory> {
        if !text::short(bytes.len()) {
            return Ok(Err(Refusal::NotYet));
        }
        let Some(text) = utf8::text_of(utf8::skip_mark(bytes)) else {
            return Ok(Err(Refusal::NotYet));
        };
        let lines = lines_of(alloc, text)?;
        match steps_of(alloc, lines.as_slice())? {
            Some(steps) => Ok(Ok(Script { steps })),
            None => Ok(Err(Refusal::NotYet)),
        }
    }
}
