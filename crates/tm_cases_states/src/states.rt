//! Cases of states by number. A state is written as its frames, the outermost first, with ` / ` between them;
//! a frame as `RULE NAMES CONTENTS`, then `=END` where it has an end and `$` where its begin reached the
//! line's end. Names have commas between them, and `-` is the empty list.

use crate::values::{name_of, number, numbered, path_of, refused, unknown, write_name, write_path};
use std::alloc::Global;
use tm_cases::{Case, CaseFault};
use tm_defs::frames::{Delta, FrameData, ScopeList, StateData, StateId, TextId};
use tm_defs::tables::{States, TableFault};
use tm_defs::texts::ScopePath;
use tm_state::deltas::DeltaFault;
use tm_state::laws::applied_difference;
use tm_state::states::StateTable;

fn list_of(alloc: Global, word: &str) -> Result<ScopePath, CaseFault> {
    path_of(alloc, if word == "-" { "" } else { word }, ',')
}

fn frame_of(alloc: Global, text: &str) -> Result<FrameData, CaseFault> {
    let mut words = text.split(' ');
    let rule = words.next().ok_or(CaseFault::NoField)?;
    let rule = rule.parse::<u32>().map_err(|_| CaseFault::NoField)?;
    let names = list_of(alloc, words.next().ok_or(CaseFault::NoField)?)?;
    let contents = list_of(alloc, words.next().ok_or(CaseFault::NoField)?)?;
    let mut end = None;
    let mut at_eol = false;
    for word in words {
        match word.strip_prefix('=') {
            Some(text) => end = Some(name_of(alloc, text)?),
            None => at_eol = true,
        }
    }
    Ok(FrameData {
        rule,
        end,
        names,
        contents,
        at_eol,
    })
}

pub(crate) fn state_of(alloc: Global, text: &str) -> Result<StateData, CaseFault> {
    let mut frames = Vec::new(alloc);
    if !text.is_empty() {
        for frame in text.split(" / ") {
            frames.push(frame_of(alloc, frame)?)?;
        }
    }
    Ok(StateData::new(frames))
}

fn write_list(into: &mut String, path: &ScopePath) -> Result<(), CaseFault> {
    if path.as_slice().len() == 0 {
        into.push('-')?;
    }
    write_path(into, path, ',')
}

fn write_frame(alloc: Global, into: &mut String, frame: &FrameData) -> Result<(), CaseFault> {
    let rule = format!(in alloc; "{} ", frame.rule)?;
    into.push_str(rule.as_str())?;
    write_list(into, &frame.names)?;
    into.push(' ')?;
    write_list(into, &frame.contents)?;
    if let Some(end) = &frame.end {
        into.push_str(" =")?;
        write_name(into, end)?;
    }
    if frame.at_eol {
        into.push_str(" $")?;
    }
    Ok(())
}

pub(crate) fn write_state(
    alloc: Global,
    into: &mut String,
    state: &StateData,
) -> Result<(), CaseFault> {
    let mut first = true;
    for frame in state.as_slice() {
        if !first {
            into.push_str(" / ")?;
        }
        first = false;
        write_frame(alloc, into, frame)?;
    }
    Ok(())
}

/// `states LIMIT`: a new table.
pub fn begin(alloc: Global, table: &mut StateTable, case: &Case) -> Result<String, CaseFault> {
    let limit = number(case, 0)?;
    if limit == 0 {
        return Err(CaseFault::NoField);
    }
    *table = StateTable::new(alloc, limit).map_err(refused)?;
    Ok(format!(in alloc; "limit {}", table.limit())?)
}

/// `put STATE, LIMIT`.
pub fn put(alloc: Global, table: &mut StateTable, case: &Case) -> Result<String, CaseFault> {
    let state = state_of(alloc, case.text(0)?)?;
    let limit = number(case, 1)?;
    numbered(alloc, table.put(&state, limit).map(|id| id.0))
}

/// `frames STATE`: the plain state of a number.
pub fn frames(alloc: Global, table: &StateTable, case: &Case) -> Result<String, CaseFault> {
    let state = number(case, 0)?;
    if state >= table.state_count() {
        return unknown(alloc);
    }
    let plain = table.frames(StateId(state)).map_err(refused)?;
    let mut text = String::new(alloc);
    write_state(alloc, &mut text, &plain)?;
    Ok(text)
}

/// `same STATE, STATE`.
pub fn same(alloc: Global, table: &StateTable, case: &Case) -> Result<String, CaseFault> {
    let a = number(case, 0)?;
    let b = number(case, 1)?;
    let count = table.state_count();
    if a >= count || b >= count {
        return unknown(alloc);
    }
    let answer = if table.same(StateId(a), StateId(b)) {
        "yes"
    } else {
        "no"
    };
    Ok(String::from_str(alloc, answer)?)
}

/// `diff STATE, STATE`: how many frames to take away, and those to add.
pub fn diff(alloc: Global, table: &StateTable, case: &Case) -> Result<String, CaseFault> {
    let a = number(case, 0)?;
    let b = number(case, 1)?;
    let count = table.state_count();
    if a >= count || b >= count {
        return unknown(alloc);
    }
    let delta = table.diff(StateId(a), StateId(b)).map_err(refused)?;
    let mut text = format!(in alloc; "{}:", delta.pops)?;
    if delta.pushed.as_slice().len() > 0 {
        text.push(' ')?;
    }
    write_state(alloc, &mut text, &delta.pushed)?;
    Ok(text)
}

/// `apply STATE, POPS, PUSHED, LIMIT`.
pub fn apply(alloc: Global, table: &mut StateTable, case: &Case) -> Result<String, CaseFault> {
    let state = number(case, 0)?;
    let pops = number(case, 1)?;
    let pushed = state_of(alloc, case.text(2)?)?;
    let limit = number(case, 3)?;
    if state >= table.state_count() {
        return unknown(alloc);
    }
    let delta = Delta { pops, pushed };
    match table.apply(StateId(state), &delta, limit) {
        Ok(id) => Ok(format!(in alloc; "{}", id.0)?),
        Err(DeltaFault::BadDelta { pops, depth }) => Ok(format!(in alloc; "{pops} of {depth}")?),
        Err(DeltaFault::TableFull(limit)) => numbered(alloc, Err(TableFault::TableFull(limit))),
        Err(DeltaFault::OutOfMemory) => Err(CaseFault::OutOfMemory),
    }
}

/// `again STATE, STATE, LIMIT`: the difference of two states, applied to the first.
pub fn again(alloc: Global, table: &mut StateTable, case: &Case) -> Result<String, CaseFault> {
    let a = number(case, 0)?;
    let b = number(case, 1)?;
    let limit = number(case, 2)?;
    let count = table.state_count();
    if a >= count || b >= count {
        return unknown(alloc);
    }
    let id = applied_difference(table, StateId(a), StateId(b), limit).map_err(refused)?;
    Ok(format!(in alloc; "{}", id.0)?)
}

/// `top STATE`: its innermost frame by numbers, and the state without it.
pub fn top(alloc: Global, table: &StateTable, case: &Case) -> Result<String, CaseFault> {
    let state = number(case, 0)?;
    if state >= table.state_count() {
        return unknown(alloc);
    }
    let Some((frame, rest)) = table.top(StateId(state)) else {
        return Ok(String::from_str(alloc, "none")?);
    };
    let names = frame.names.0;
    let contents = frame.contents.0;
    let eol = frame.at_eol;
    let line = match frame.end {
        Some(end) => format!(in alloc;
            "{} ={} {names} {contents} {eol} on {}",
            frame.rule, end.0, rest.0
        )?,
        None => format!(in alloc; "{} {names} {contents} {eol} on {}", frame.rule, rest.0)?,
    };
    Ok(line)
}

/// `reintern STATE, PARENT`: the innermost frame of a state, added to another.
pub fn reintern(alloc: Global, table: &mut StateTable, case: &Case) -> Result<String, CaseFault> {
    let state = number(case, 0)?;
    let parent = number(case, 1)?;
    let count = table.state_count();
    if state == 0 || state >= count || parent >= count {
        return unknown(alloc);
    }
    let (frame, _rest) = table.innermost(StateId(state));
    numbered(alloc, table.intern(frame, StateId(parent)).map(|id| id.0))
}

/// `sizes`: how many texts, lists and states there are.
pub fn sizes(alloc: Global, table: &StateTable) -> Result<String, CaseFault> {
    let texts = table.text_count();
    let lists = table.list_count();
    Ok(format!(in alloc;
        "{texts} texts, {lists} lists, {} states",
        table.state_count()
    )?)
}

/// The state that `fill` adds as number `i`: a frame of rule `i`, whose end and names are the digits of `i`.
fn counted(alloc: Global, i: u32) -> Result<Delta, CaseFault> {
    let digits = format!(in alloc; "{i}")?;
    let frame = FrameData {
        rule: i,
        end: Some(name_of(alloc, digits.as_str())?),
        names: path_of(alloc, digits.as_str(), ' ')?,
        contents: path_of(alloc, digits.as_str(), ' ')?,
        at_eol: false,
    };
    let mut frames = Vec::new(alloc);
    frames.push(frame)?;
    Ok(Delta {
        pops: 0,
        pushed: StateData::new(frames),
    })
}

/// `fill COUNT`: states by number until there are so many, in stacks of depth 20 whose least stands on the
/// opening state.
pub fn fill(alloc: Global, table: &mut StateTable, case: &Case) -> Result<String, CaseFault> {
    for i in table.state_count()..number(case, 0)? {
        let parent = if i % 20 == 1 { 0 } else { i.saturating_sub(1) };
        if parent >= table.state_count() {
            return unknown(alloc);
        }
        let limit = table.limit();
        if let Err(DeltaFault::TableFull(limit)) = table.apply(
            StateId(parent),
            &counted(alloc, i)?,
            limit,
        ) {
            return numbered(alloc, Err(TableFault::TableFull(limit)));
        }
    }
    sizes(alloc, table)
}

/// `times "text", COUNT, TEXT`, `times "push", COUNT, LIST, TEXT`, `times "intern", COUNT, STATE` or
/// `times "diff", COUNT, STATE, STATE`: a call so many times, of what is known; the answer of the last.
pub fn times(alloc: Global, table: &mut StateTable, case: &Case) -> Result<String, CaseFault> {
    let call = case.text(0)?;
    let count = number(case, 1)?;
    let a = number(case, 2)?;
    match call {
        "text" => texts(alloc, table, count, a),
        "push" => pushes(alloc, table, count, a, number(case, 3)?),
        "intern" => interns(alloc, table, count, a),
        "diff" => diffs(alloc, table, count, a, number(case, 3)?),
        _ => Err(CaseFault::NoField),
    }
}

fn texts(
    alloc: Global,
    table: &mut StateTable,
    count: u32,
    text: u32,
) -> Result<String, CaseFault> {
    if text >= table.text_count() {
        return unknown(alloc);
    }
    let name = table.text_of(TextId(text)).copy().map_err(refused)?;
    let mut last = 0;
    for _call in 0..count {
        match table.text(&name) {
            Ok(id) => last = id.0,
            Err(fault) => return numbered(alloc, Err(fault)),
        }
    }
    numbered(alloc, Ok(last))
}

fn pushes(
    alloc: Global,
    table: &mut StateTable,
    count: u32,
    list: u32,
    text: u32,
) -> Result<String, CaseFault> {
    let mut last = 0;
    for _call in 0..count {
        if list >= table.list_count() || text >= table.text_count() {
            return unknown(alloc);
        }
        match table.push(ScopeList(list), TextId(text)) {
            Ok(id) => last = id.0,
            Err(fault) => return numbered(alloc, Err(fault)),
        }
    }
    numbered(alloc, Ok(last))
}

fn interns(
    alloc: Global,
    table: &mut StateTable,
    count: u32,
    state: u32,
) -> Result<String, CaseFault> {
    let mut last = 0;
    for _call in 0..count {
        if state == 0 || state >= table.state_count() {
            return unknown(alloc);
        }
        let (frame, rest) = table.innermost(StateId(state));
        match table.intern(frame, rest) {
            Ok(id) => last = id.0,
            Err(fault) => return numbered(alloc, Err(fault)),
        }
    }
    numbered(alloc, Ok(last))
}

fn diffs(
    alloc: Global,
    table: &StateTable,
    count: u32,
    a: u32,
    b: u32,
) -> Result<String, CaseFault> {
    let states = table.state_count();
    if a >= states || b >= states {
        return unknown(alloc);
    }
    let mut pops = 0;
    let mut pushed = 0;
    for _call in 0..count {
        let delta = table.diff(StateId(a), StateId(b)).map_err(refused)?;
        pops = delta.pops;
        pushed = delta.pushed.as_slice().len();
    }
    Ok(format!(in alloc; "{pops} away, {pushed} more")?)
}
