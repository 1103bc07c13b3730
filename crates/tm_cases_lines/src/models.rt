//! Models of small texts by the small tokenizer.
ghost use Rattle.std.specs.Prelude.{◌≡◌, ◌<◌, length};

use crate::callers::first_is_done;
use crate::small::Small;
use crate::values::{characters, joined, list, name, small, small_at, text};
use serde_json::Value;
use std::alloc::Global;
use std::marker::Brand;
use std::sync::ledger::{Blank, Ledger};
use tm_cases::{Case, CaseFault};
use tm_defs::changes::{Change, ChangeFault, Place};
use tm_defs::events::Turn;
use tm_defs::frames::StateId;
use tm_defs::steps::Steps;
use tm_defs::tables::TableFault;
use tm_defs::tokenizer::LineTok;
use tm_model::model::{Forced, Model};
use tm_text::text::from_characters;

/// A model of a small text.
fn small_model<'a>(
    alloc: Global,
    settings: &'a [Small],
    text: &[char],
    budget: u64,
    limit: u32,
) -> Result<Model<'a, Small>, CaseFault>
    requires settings { 0 < length settings.now }
    requires limit { 0 < limit }
{
    let Ok(text) = from_characters(alloc, text) else {
        return Err(CaseFault::OutOfMemory);
    };
    match Model::new(alloc, settings, budget, limit, text) {
        Ok(model) => Ok(model),
        Err(_) => Err(CaseFault::OutOfMemory),
    }
}

fn full_text(alloc: Global, fault: TableFault) -> Result<String, CaseFault> {
    match fault {
        TableFault::TableFull(count) => Ok(format!(in alloc; "full at {count}")?),
        TableFault::OutOfMemory => Err(CaseFault::OutOfMemory),
    }
}

fn turn_text(alloc: Global, answer: Result<Turn, TableFault>) -> Result<String, CaseFault> {
    match answer {
        Ok(Turn::Done(i)) => Ok(format!(in alloc; "done {i}")?),
        Ok(Turn::Blocked(i)) => Ok(format!(in alloc; "blocked {i}")?),
        Ok(Turn::Idle) => Ok(String::from_str(alloc, "idle")?),
        Err(fault) => full_text(alloc, fault),
    }
}

fn forced_text(alloc: Global, answer: Result<Forced, TableFault>) -> Result<String, CaseFault> {
    match answer {
        Ok(
            Forced {
                done,
                blocked: None,
            },
        ) => Ok(format!(in alloc; "work {done}")?),
        Ok(
            Forced {
                done,
                blocked: Some(line),
            },
        ) => Ok(format!(in alloc; "work {done} blocked {line}")?),
        Err(fault) => full_text(alloc, fault),
    }
}

fn place_text(alloc: Global, place: Place) -> Result<String, CaseFault> {
    match place {
        Place::NoLine { line, lines } => Ok(format!(in alloc; "no line {line} of {lines}")?),
        Place::NoCol { line, col, len } => {
            Ok(format!(in alloc; "no column {col} of {len} in line {line}")?)
        }
        Place::Reversed => Ok(String::from_str(alloc, "reversed")?),
    }
}

fn change_text(alloc: Global, answer: Result<u32, ChangeFault>) -> Result<String, CaseFault> {
    match answer {
        Ok(version) => Ok(format!(in alloc; "version {version}")?),
        Err(ChangeFault::BadPlace(place)) => place_text(alloc, place),
        Err(ChangeFault::TextFull(count)) => Ok(format!(in alloc; "text full at {count}")?),
        Err(ChangeFault::VersionFull(version)) => {
            Ok(format!(in alloc; "version full at {version}")?)
        }
        Err(ChangeFault::OutOfMemory) => Err(CaseFault::OutOfMemory),
    }
}

/// `[LINE, COLUMN, LINE, COLUMN, TEXT]`.
fn change_of(alloc: Global, edit: &[Value]) -> Result<Change, CaseFault> {
    let new = text(edit.get(4).ok_or(CaseFault::NoField)?)?;
    Ok(Change {
        from_line: small_at(edit, 0)?,
        from_col: small_at(edit, 1)?,
        to_line: small_at(edit, 2)?,
        to_col: small_at(edit, 3)?,
        text: name(alloc, new)?,
    })
}

/// What is kept of a line: the metadata of its first token and the number of its end, and `-` for none.
fn entry_text<T: LineTok>(alloc: Global, model: &Model<T>, i: u32) -> Result<String, CaseFault> {
    if i >= model.len() {
        return Err(CaseFault::NoField);
    }
    let entry = model.entry(i);
    let meta = match &entry.tokens {
        Some(tokens) => match tokens.as_slice().first() {
            Some(token) => token.meta.to_string(alloc)?,
            None => String::from_str(alloc, "-")?,
        },
        None => String::from_str(alloc, "-")?,
    };
    match entry.end {
        Some(StateId(end)) => Ok(format!(in alloc; "{meta}:{end}")?),
        None => Ok(format!(in alloc; "{meta}:-")?),
    }
}

fn accurate_text<T: LineTok>(model: &Model<T>, i: u32) -> Result<&'static str, CaseFault> {
    if i >= model.len() {
        return Err(CaseFault::NoField);
    }
    Ok(if model.accurate(i) {
        "accurate"
    } else {
        "not accurate"
    })
}

fn line_text<T: LineTok>(alloc: Global, model: &Model<T>, i: u32) -> Result<String, CaseFault> {
    model.prove_sound();
    if i >= model.len() {
        return Err(CaseFault::NoField);
    }
    let line = joined(alloc, model.line_text(i).as_slice())?;
    Ok(format!(in alloc; "[{line}]")?)
}

/// What is asked of a line: `{"entry": LINE}`, `{"text": LINE}` or `{"accurate": LINE}`.
fn look<T: LineTok>(alloc: Global, model: &Model<T>, act: &Value) -> Result<String, CaseFault> {
    if let Some(line) = act.get("entry") {
        return entry_text(alloc, model, small(line)?);
    }
    if let Some(line) = act.get("text") {
        return line_text(alloc, model, small(line)?);
    }
    let line = act.get("accurate").ok_or(CaseFault::NoField)?;
    Ok(String::from_str(alloc, accurate_text(model, small(line)?)?)?)
}

/// An answer with the front behind it.
fn with_front<T: LineTok>(
    alloc: Global,
    model: &Model<T>,
    answer: &str,
) -> Result<String, CaseFault> {
    match model.front() {
        Some(front) => Ok(format!(in alloc; "{answer}, front {front}")?),
        None => Ok(format!(in alloc; "{answer}, no front")?),
    }
}

/// A step named by a word.
fn word_act<T: LineTok, L: Ledger>(
    alloc: Global,
    model: &mut Model<T>,
    word: &str,
    steps: &mut Steps<L>,
) -> Result<String, CaseFault> {
    match word {
        "line" => {
            let answer = turn_text(alloc, model.line(steps))?;
            with_front(alloc, model, answer.as_str())
        }
        "settle" => {
            let answer = forced_text(alloc, model.settle(steps))?;
            with_front(alloc, model, answer.as_str())
        }
        "setting" => {
            model.prove_sound();
            model.setting(model.epoch());
            with_front(alloc, model, "set")
        }
        "first" => {
            let done = first_is_done(model, steps);
            Ok(String::from_str(alloc, if done { "line 0 is from scratch" } else { "-" })?)
        }
        "version" => {
            let (version, epoch) = (model.version(), model.epoch());
            Ok(format!(in alloc; "version {version} by setting {epoch}")?)
        }
        _ => Err(CaseFault::NoField),
    }
}

fn act<T: LineTok, L: Ledger>(
    alloc: Global,
    model: &mut Model<T>,
    act: &Value,
    steps: &mut Steps<L>,
) -> Result<String, CaseFault> {
    if let Some(word) = act.as_str() {
        return word_act(alloc, model, word, steps);
    }
    if let Some(line) = act.get("force") {
        let line = small(line)?;
        if line >= model.len() {
            return Err(CaseFault::NoField);
        }
        let answer = forced_text(alloc, model.force(line, steps))?;
        return with_front(alloc, model, answer.as_str());
    }
    let Some(edit) = act.as_array() else {
        return look(alloc, model, act);
    };
    let change = change_of(alloc, edit.as_slice())?;
    let answer = change_text(alloc, model.change(&change))?;
    with_front(alloc, model, answer.as_str())
}

/// Does the acts in order.
fn acts<L: Ledger>(
    alloc: Global,
    blank: Blank,
    text: &[char],
    budget: u64,
    limit: u32,
    all: &[Value],
) -> Result<String, CaseFault>
    requires name { blank.name ≡ L.name }
    requires parts { blank.parts ≡ L.parts }
    requires some { 0 < blank.parts }
    requires limit { 0 < limit }
{
    let settings = [Small { alloc }];
    let mut steps = Steps::<L>::new(blank);
    let mut model = small_model(alloc, &settings, text, budget, limit)?;
    let mut told = String::new(alloc);
    for (i, one) in all.iter().enumerate() {
        if i != 0 {
            told.push_str("; ")?;
        }
        told.push_str(act(alloc, &mut model, one, &mut steps)?.as_str())?;
    }
    Ok(told)
}

/// `model TEXT, BUDGET, LIMIT, ACTS`: the answer of each act on a model of the text by the small tokenizer, whose
/// budget is in steps a line and whose tables hold up to the limit. The acts are `"line"`, `"settle"`,
/// `{"force": LINE}`, `"setting"` (its own once more), `"version"`, edits as `[LINE, COLUMN, LINE, COLUMN, TEXT]`, and
/// looks at a line as `{"entry": LINE}`.
pub fn model(alloc: Global, case: &Case) -> Result<String, CaseFault> {
    let text = characters(alloc, case.text(0)?)?;
    let limit = small(case.value(2)?)?;
    if limit == 0 {
        return Err(CaseFault::NoField);
    }
    let all = list(case.value(3)?)?;
    acts::<Brand>(
        alloc,
        Blank::new(1),
        text.as_slice(),
        case.number(1)?,
        limit,
        all,
    )
}
