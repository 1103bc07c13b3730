//! The step that a line says.
ghost use Rattle.std.specs.List.{list_all};
ghost use Rattle.std.specs.Prelude.{◌≡◌, ◌<◌, ℕ, option_map, option_and_then, IfOk, IfSome};
ghost use Rattle.serde_json.specs.Read.{read};
ghost use Rattle.tm_script.specs.Steps.{place_at, change_at, change_of, range_of, word_alone, step_named, step_of, step_in, is_blank, is_blank_line, said_in};

use crate::steps::ScriptStep;
use crate::tree::{Tree, is_plain};
use crate::values::{name_in, number_among, number_in, parsed, text_in, word_in};
use json::{Reader, Scratch};
use std::alloc::Global;
use tm_defs::changes::Change;
use tm_defs::events::Step;
use tm_defs::memory::OutOfMemory;

/// What a line of a script says.
#[derive(Drop)]
pub enum Said {
    /// The line is blank.
    Nothing,
    Step(ScriptStep),
    /// The line is neither blank nor a step.
    Wrong,
}

/// The line and column at a place of a list and the next one.
fn place<T: Tree>(value: &T, at: usize) -> Option<(u32, u32)>
    requires { at < 8 }
    ensures { result ≡ place_at at (T.says value.now) }
{
    number_among(value, at).zip(number_among(value, at + 1))
}

/// The change of an edit, by its places.
fn change_between<T: Tree>(
    alloc: Global,
    value: &T,
    places: &T,
) -> Result<Option<Change>, OutOfMemory>
    ensures { IfOk result (λ change. change ≡ change_at (T.says value.now) (T.says places.now)) }
{
    if places.count() != 4 {
        return Ok(None);
    }
    let Some((from_line, from_col)) = place(places, 0) else {
        return Ok(None);
    };
    let Some((to_line, to_col)) = place(places, 2) else {
        return Ok(None);
    };
    let Some(text) = name_in(alloc, value, "text")? else {
        return Ok(None);
    };
    Ok(Some(Change {
        from_line,
        from_col,
        to_line,
        to_col,
        text,
    }))
}

fn edit<T: Tree>(alloc: Global, value: &T) -> Result<Option<ScriptStep>, OutOfMemory>
    ensures { IfOk result (λ step. step ≡ option_map (λ change. ScriptStep.Core (Step.Edit change)) (change_of (T.says value.now))) }
{
    let Some(places) = value.member("at") else {
        return Ok(None);
    };
    match change_between(alloc, value, places)? {
        Some(change) => Ok(Some(ScriptStep::Core(Step::Edit(change)))),
        None => Ok(None),
    }
}

/// The lines that are shown.
fn range<T: Tree>(value: &T) -> Option<Option<(u32, u32)>>
    ensures { result ≡ range_of (T.says value.now) }
{
    match (value.member("from"), value.member("to")) {
        (None, None) => Some(None),
        (Some(from), Some(to)) => from.number().zip(to.number()).map(Some),
        _ => None,
    }
}

/// The step of a word that needs no other key.
fn alone(word: &str) -> Option<ScriptStep>
    ensures { result ≡ word_alone word.now }
{
    let step = match word {
        "line" => Step::Line,
        "settle" => Step::Settle,
        "drain" => Step::Drain,
        "work" => Step::Work,
        "post" => Step::Post,
        "accept" => Step::Accept,
        _ => return None,
    };
    Some(ScriptStep::Core(step))
}

fn named<T: Tree>(alloc: Global, value: &T, word: &str) -> Result<Option<ScriptStep>, OutOfMemory>
    ensures { IfOk result (λ step. step ≡ step_named (T.says value.now) word.now) }
{
    if word == "edit" {
        edit(alloc, value)
    } else if word == "setting" {
        Ok(number_in(value, "number").map(|number| ScriptStep::Core(Step::Setting(number))))
    } else if word == "force" {
        Ok(number_in(value, "line").map(|line| ScriptStep::Core(Step::Force(line))))
    } else if word == "show" {
        Ok(range(value).map(ScriptStep::Show))
    } else {
        Ok(alone(word))
    }
}

fn step<T: Tree>(alloc: Global, value: &T) -> Result<Option<ScriptStep>, OutOfMemory>
    ensures { IfOk result (λ step. step ≡ step_of (T.says value.now)) }
{
    match word_in(value, "step") {
        Some(word) => named(alloc, value, word),
        None => Ok(None),
    }
}

/// How deep arrays and objects may nest in a line.
const MAX_DEPTH: usize = 127;

/// The step of a text that is an object of plain values; it is not told of other texts.
fn step_of_plain(
    alloc: Global,
    text: &str,
    scratch: &mut Scratch,
) -> Result<Option<Option<ScriptStep>>, OutOfMemory>
    ensures { IfOk result (λ found. IfSome found (λ step. step ≡ option_and_then step_of (read text.now))) }
{
    let Ok(mut reader) = Reader::new(text, scratch) else {
        return Err(OutOfMemory);
    };
    let Ok(value) = json::Value::read(alloc, &mut reader, MAX_DEPTH) else {
        return Ok(None);
    };
    if reader.next().is_some() {
        return Ok(None);
    }
    if !is_plain(&value) {
        return Ok(None);
    }
    Ok(Some(step(alloc, &value)?))
}

/// The step of a text.
fn step_of_text(
    alloc: Global,
    text: &str,
    scratch: &mut Scratch,
) -> Result<Option<ScriptStep>, OutOfMemory>
    ensures { IfOk result (λ step. step ≡ option_and_then step_of (read text.now)) }
{
    if let Some(found) = step_of_plain(alloc, text, scratch)? {
        return Ok(found);
    }
    match parsed(alloc, text)? {
        Some(value) => step(alloc, &value),
        None => Ok(None),
    }
}

fn step_of_line(
    alloc: Global,
    line: &[u8],
    scratch: &mut Scratch,
) -> Result<Option<ScriptStep>, OutOfMemory>
    ensures { IfOk result (λ step. step ≡ step_in line.now) }
{
    match text_in(line) {
        Some(text) => step_of_text(alloc, text, scratch),
        None => Ok(None),
    }
}

fn blank_byte(byte: u8) -> bool
    ensures { result ≡ is_blank byte }
{
    byte == b' ' || byte == b'\t' || byte == b'\r'
}

fn blank(line: &[u8]) -> bool
    ensures { result ≡ is_blank_line line.now }
{
    line.iter().all(|byte| blank_byte(*byte))
}

/// What a line says.
pub fn read_line(alloc: Global, line: &[u8], scratch: &mut Scratch) -> Result<Said, OutOfMemory>
    ensures { IfOk result (λ said. said ≡ said_in line.now) }
{
    if blank(line) {
        return Ok(Said::Nothing);
    }
    match step_of_line(alloc, line, scratch)? {
        Some(step) => Ok(Said::Step(step)),
        None => Ok(Said::Wrong),
    }
}
