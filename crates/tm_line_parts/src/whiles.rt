//! The rules of earlier lines that a line holds up.
//!
//! A rule with a `while` stays open only as long as each line matches it. Before the turns of a line those rules
//! are asked, from the outermost inward: the first that is not held up is closed, and all in it with it. A state has its
//! innermost frame at hand, so where some open rule has a `while` its frames are unrolled into a vector first
//! (`unrolled`), and go back on the stack one by one (`while_pass`). Where none has, nothing is unrolled.
ghost use Rattle.std.specs.Prelude.{◌≡◌, ◌<◌, ◌≤◌, ◌^◌, ◌∷◌, ◌++◌, [], ℕ, false, List, length, map, IfOk, OnOk, IsTrue, Some};
ghost use Rattle.tm_defs.specs.Tables.{Tables, IsFrameOf, frame_at, state_at};
ghost use Rattle.tm_defs.specs.declared.frames.FrameData.{FrameData};
ghost use Rattle.tm_line_turns.specs.Language.{grammar_at};
ghost use Rattle.tm_line_turns.specs.Laws.{IsMatchWithin};
ghost use Rattle.tm_line_turns.specs.Line.{lowest, others, some_while, start_anchor, start_made, start_place, start_state};
ghost use Rattle.tm_line_turns.specs.LineRun.{earlier, joined, makes};
ghost use Rattle.tm_line_turns.specs.WhilePass.{found_while, opened_on, tested, while_pass as while_pass_of};
ghost use Rattle.tm_line_parts.specs.Holds.{Passes, Starts, Tests};
ghost use Rattle.tm_line_parts.specs.Stacks.{AreNumbers, IsStack, Stands, frames_at, place_at};

use crate::groups::Cover;
use crate::rules::{Level, LineRules, Out, WhileQuestion};
use crate::run::covers;
use crate::stack::{OpenFrame, Stack, Way, advance, is_anchored, open};
use crate::start::start_way;
use std::alloc::Global;
use tm_defs::frames::{Frame, StateId};
use tm_defs::memory::OutOfMemory;
use tm_defs::tables::States;
use tm_defs::texts::ScopePath;
use tm_defs::tokenizer::LineFault;
use tm_line_turns::found::{Match, Whose};

/// Whether a rule of a state has a `while`.
fn has_whiles<S: States, R: LineRules>(rules: &R, table: &S, state: StateId) -> bool
    requires { state.0 < length (S.tables table.now).states }
    ensures { result ≡ some_while (R.language rules.now).has_while (state_at (S.tables table.now) state) }
{
    let mut outer = state;
    while let Some((frame, below)) = table.top(outer) {
        if rules.has_while(frame.rule) {
            return true;
        }
        outer = below;
    }
    false
}

/// The frames of a state with this one on it: the outermost, and the others, the innermost first.
fn unrolled<S: States>(
    alloc: Global,
    table: &S,
    frame: Frame,
    base: StateId,
) -> Result<(Frame, Vec<Frame>), OutOfMemory>
    requires frame { IsFrameOf (S.tables table.now) frame }
    requires base { base.0 < length (S.tables table.now).states }
    ensures outermost { IfOk result (λ p. IsFrameOf (S.tables table.now) p.0) }
    ensures others { IfOk result (λ p. AreNumbers (S.tables table.now) p.1.items) }
    ensures all { let t = S.tables table.now in
        IfOk result (λ p. frame_at t p.0 ∷ frames_at t p.1.items ≡ state_at t base ++ frame_at t frame ∷ []) }
{
    let mut frames = Vec::new(alloc);
    let mut outermost = frame;
    let mut outer = base;
    while let Some((next, below)) = table.top(outer) {
        frames.push(outermost)?;
        outermost = next;
        outer = below;
    }
    Ok((outermost, frames))
}

/// The start of a line in its outermost rule alone.
fn lowest_way<S: States>(alloc: Global, table: &S, frame: Frame, at_eol: bool) -> Way
    requires { IsFrameOf (S.tables table.now) frame }
    ensures stack { IsStack (S.tables table.now) result.stack }
    ensures at { result.at ≡ 0 }
    ensures place { let t = S.tables table.now in
        (top : FrameData) → top.at_eol ≡ at_eol → place_at t result ≡ lowest (frame_at t frame ∷ []) (start_anchor (top ∷ [])) false }
{
    table.prove_known();
    Way {
        stack: Stack {
            top: OpenFrame { frame, entry: None },
            below: Vec::new(alloc),
            base: StateId(0),
            deep: 0,
        },
        at: 0,
        anchor: if at_eol { Some(0) } else { None },
        first: false,
    }
}

/// A rule of an earlier line is open on those that are held up.
fn keep(way: &mut Way, frame: Frame) -> Result<(), OutOfMemory>
    ensures { (t : Tables) → IsStack t way.old.stack → IsFrameOf t frame →
        OnOk result (Stands t (opened_on (place_at t way.old) (earlier (frame_at t frame))) way.new) }
{
    open(&mut way.stack, OpenFrame { frame, entry: None })
}

/// A rule is held up by what its `while` found.
fn holds_up<S: States, R: LineRules>(
    level: &Level<R>,
    table: &mut S,
    out: &mut Out,
    way: &mut Way,
    frame: Frame,
    m: &Match,
) -> Result<bool, LineFault>
    requires stack { IsStack (S.tables table.old) way.old.stack }
    requires frame { IsFrameOf (S.tables table.old) frame }
    requires at { way.old.at ≤ length level.now.text.now }
    requires within { IsMatchWithin (length level.now.text.now) m.now }
    requires small { length level.now.text.now < 2 ^ 31 }
    ensures { let l = R.language level.now.rules.now in
        let t = S.tables table.old in
        let p = place_at t way.old in
        let g = grammar_at l level.now.depth level.now.text.now in
        Tests l.meta (length level.now.text.now) (found_while g p (earlier (frame_at t frame)) (Some m.now)) p
        t (S.tables table.new) out.old out.new way.new result }
{
    let first = way.first;
    let Ok(()) = keep(way, frame) else {
        return Err(LineFault::OutOfMemory);
    };
    let cover = Cover {
        whose: Whose::AtWhile,
        rule: frame.rule,
        outer: frame.contents,
        inner: frame.contents,
        first,
    };
    if let Err(fault) = covers(level, table, out, &way.stack, m, cover) {
        return Err(fault);
    }
    way.anchor = Some(m.end);
    advance(way, m.end);
    Ok(true)
}

/// A rule of an earlier line is tested: the answer is whether the line holds it up.
fn holds<S: States, R: LineRules>(
    level: &Level<R>,
    room: &mut R::Room,
    table: &mut S,
    out: &mut Out,
    way: &mut Way,
    frame: Frame,
) -> Result<bool, LineFault>
    requires stack { IsStack (S.tables table.old) way.old.stack }
    requires frame { IsFrameOf (S.tables table.old) frame }
    requires at { way.old.at ≤ length level.now.text.now }
    requires small { length level.now.text.now < 2 ^ 31 }
    requires room { R.Fits level.now.rules.now (S.tables table.old) level.now.text.now room.old }
    ensures tests { let l = R.language level.now.rules.now in
        let t = S.tables table.old in
        let p = place_at t way.old in
        let g = grammar_at l level.now.depth level.now.text.now in
        Tests l.meta (length level.now.text.now) (tested g p (earlier (frame_at t frame))) p
        t (S.tables table.new) out.old out.new way.new result }
    ensures room { R.Fits level.now.rules.now (S.tables table.new) level.now.text.now room.new }
{
    if !level.rules.has_while(frame.rule) {
        let Ok(()) = keep(way, frame) else {
            return Err(LineFault::OutOfMemory);
        };
        return Ok(true);
    }
    let anchored = is_anchored(way);
    let asked = WhileQuestion {
        frame,
        at: way.at,
        first: way.first,
        anchored,
    };
    match level
        .rules
        .while_match(room, table, level.text, asked, &mut out.budget)
    {
        Ok(Some(m)) => holds_up(level, table, out, way, frame, &m),
        Ok(None) => Ok(false),
        Err(fault) => Err(fault),
    }
}

/// The pass over the rules that are left, of which the outermost is the last.
fn while_pass<S: States, R: LineRules>(
    level: &Level<R>,
    room: &mut R::Room,
    table: &mut S,
    out: &mut Out,
    way: &mut Way,
    frames: &mut Vec<Frame>,
) -> Result<(), LineFault>
    requires stack { IsStack (S.tables table.old) way.old.stack }
    requires frames { AreNumbers (S.tables table.old) frames.old.items }
    requires at { way.old.at ≤ length level.now.text.now }
    requires small { length level.now.text.now < 2 ^ 31 }
    requires room { R.Fits level.now.rules.now (S.tables table.old) level.now.text.now room.old }
    ensures passes { let l = R.language level.now.rules.now in
        let t = S.tables table.old in
        let g = grammar_at l level.now.depth level.now.text.now in
        Passes l.meta (length level.now.text.now) (while_pass_of g (place_at t way.old) (map earlier (frames_at t frames.old.items)))
        t (S.tables table.new) out.old out.new way.new result }
    ensures room { R.Fits level.now.rules.now (S.tables table.new) level.now.text.now room.new }
{
    while let Some(frame) = frames.pop() {
        match holds(level, room, table, out, way, frame) {
            Ok(true) => {}
            Ok(false) => return Ok(()),
            Err(fault) => return Err(fault),
        }
    }
    Ok(())
}

/// The start of a line in the rules of this state that it holds up.
fn held<S: States, R: LineRules>(
    level: &Level<R>,
    room: &mut R::Room,
    table: &mut S,
    out: &mut Out,
    state: StateId,
) -> Result<Way, LineFault>
    requires state { state.0 < length (S.tables table.old).states }
    requires some { IsTrue (some_while (R.language level.now.rules.now).has_while (state_at (S.tables table.old) state)) }
    requires small { length level.now.text.now < 2 ^ 31 }
    requires room { R.Fits level.now.rules.now (S.tables table.old) level.now.text.now room.old }
    ensures starts { let l = R.language level.now.rules.now in
        let t = S.tables table.old in
        let g = grammar_at l level.now.depth level.now.text.now in
        (scopes : List (List ℕ)) →
        let pass = while_pass_of g (start_place scopes (state_at t state)) (others (start_state scopes (state_at t state))) in
        Starts l.meta (length level.now.text.now) (joined (makes (start_made scopes (state_at t state))) pass.part) pass.place
        t (S.tables table.new) out.old out.new result }
    ensures room { R.Fits level.now.rules.now (S.tables table.new) level.now.text.now room.new }
{
    let Some((frame, base)) = table.top(state) else {
        unreachable!();
    };
    let Ok((outermost, mut frames)) = unrolled(level.alloc, table, frame, base) else {
        return Err(LineFault::OutOfMemory);
    };
    let mut way = lowest_way(level.alloc, table, outermost, frame.at_eol);
    match while_pass(level, room, table, out, &mut way, &mut frames) {
        Ok(()) => Ok(way),
        Err(fault) => Err(fault),
    }
}

/// The start of a line that begins in a state: behind the rules that it holds up.
pub fn started<S: States, R: LineRules>(
    level: &Level<R>,
    room: &mut R::Room,
    table: &mut S,
    out: &mut Out,
    scopes: &ScopePath,
    start: StateId,
) -> Result<Way, LineFault>
    requires start { start.0 < length (S.tables table.old).states }
    requires small { length level.now.text.now < 2 ^ 31 }
    requires room { R.Fits level.now.rules.now (S.tables table.old) level.now.text.now room.old }
    ensures starts { let l = R.language level.now.rules.now in
        let t = S.tables table.old in
        let g = grammar_at l level.now.depth level.now.text.now in
        let state = state_at t start in
        let pass = while_pass_of g (start_place scopes.now state) (others (start_state scopes.now state)) in
        Starts l.meta (length level.now.text.now) (joined (makes (start_made scopes.now state)) pass.part) pass.place
        t (S.tables table.new) out.old out.new result }
    ensures room { R.Fits level.now.rules.now (S.tables table.new) level.now.text.now room.new }
{
    if !has_whiles(level.rules, table, start) {
        return start_way(level.alloc, table, scopes, start);
    }
    held(level, room, table, out, start)
}
