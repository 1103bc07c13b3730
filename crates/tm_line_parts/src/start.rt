//! Where a line starts.
ghost use Rattle.std.specs.Prelude.{◌≡◌, ◌<◌, ℕ, List, [], length, IfOk};
ghost use Rattle.tm_defs.specs.Tables.{IsFrameOf, frame_at, state_at};
ghost use Rattle.tm_line_turns.specs.Line.{resumed_place, start_made};
ghost use Rattle.tm_line_turns.specs.LineRun.{makes};
ghost use Rattle.tm_line_parts.specs.declared.rules.Out.{Out};
ghost use Rattle.tm_line_parts.specs.Adds.{Adds};
ghost use Rattle.tm_line_parts.specs.Stacks.{IsStack, place_at, resumed_over};

use crate::parts::push_all;
use crate::stack::{OpenFrame, Stack, Way};
use std::alloc::Global;
use tm_defs::frames::{Frame, ScopeList, StateId};
use tm_defs::memory::OutOfMemory;
use tm_defs::tables::States;
use tm_defs::texts::ScopePath;
use tm_defs::tokenizer::LineFault;

/// How many frames a state has.
fn depth_of<S: States>(table: &S, state: StateId) -> Result<usize, OutOfMemory>
    requires { state.0 < length (S.tables table.now).states }
    ensures { IfOk result (λ deep. deep ≡ length (state_at (S.tables table.now) state)) }
{
    let mut outer = state;
    let mut deep = 0;
    while let Some((_, below)) = table.top(outer) {
        if deep == usize::MAX {
            return Err(OutOfMemory);
        }
        deep += 1;
        outer = below;
    }
    Ok(deep)
}

/// The start of a line in this frame of an earlier line, over the state below.
fn resumed<S: States>(
    alloc: Global,
    table: &S,
    frame: Frame,
    base: StateId,
) -> Result<Way, OutOfMemory>
    requires frame { IsFrameOf (S.tables table.now) frame }
    requires base { base.0 < length (S.tables table.now).states }
    ensures stack { IfOk result (λ way. IsStack (S.tables table.now) way.stack) }
    ensures at { IfOk result (λ way. way.at ≡ 0) }
    ensures place { let t = S.tables table.now in
        IfOk result (λ way. place_at t way ≡ resumed_over (frame_at t frame) (state_at t base)) }
{
    let deep = depth_of(table, base)?;
    Ok(Way {
        stack: Stack {
            top: OpenFrame { frame, entry: None },
            below: Vec::new(alloc),
            base,
            deep,
        },
        at: 0,
        anchor: if frame.at_eol { Some(0) } else { None },
        first: false,
    })
}

/// The start of a text's first line: the root is open, with the scopes of every token.
fn opening<S: States>(alloc: Global, table: &mut S, scopes: &ScopePath) -> Result<Way, LineFault>
    ensures stack { IfOk result (λ way. IsStack (S.tables table.new) way.stack) }
    ensures at { IfOk result (λ way. way.at ≡ 0) }
    ensures place { IfOk result (λ way. place_at (S.tables table.new) way ≡ resumed_place scopes.now []) }
    ensures adds { (meta : List (List ℕ) → ℕ) (o : Out) →
        Adds meta (makes (start_made scopes.now [])) (S.tables table.old) (S.tables table.new) o o result }
{
    table.prove_known();
    let list = match push_all(table, ScopeList(0), scopes) {
        Ok(list) => list,
        Err(fault) => return Err(fault),
    };
    let frame = Frame {
        rule: 0,
        end: None,
        names: list,
        contents: list,
        at_eol: false,
    };
    table.prove_known();
    Ok(Way {
        stack: Stack {
            top: OpenFrame { frame, entry: None },
            below: Vec::new(alloc),
            base: StateId(0),
            deep: 0,
        },
        at: 0,
        anchor: None,
        first: true,
    })
}

/// The start of a line that begins in a state, and holds up all of its rules.
pub fn start_way<S: States>(
    alloc: Global,
    table: &mut S,
    scopes: &ScopePath,
    start: StateId,
) -> Result<Way, LineFault>
    requires { start.0 < length (S.tables table.old).states }
    ensures stack { IfOk result (λ way. IsStack (S.tables table.new) way.stack) }
    ensures at { IfOk result (λ way. way.at ≡ 0) }
    ensures place { IfOk result (λ way. place_at (S.tables table.new) way ≡ resumed_place scopes.now (state_at (S.tables table.old) start)) }
    ensures adds { let state = state_at (S.tables table.old) start in
        (meta : List (List ℕ) → ℕ) (o : Out) →
        Adds meta (makes (start_made scopes.now state)) (S.tables table.old) (S.tables table.new) o o result }
{
    match table.top(start) {
        Some((frame, base)) => match resumed(alloc, table, frame, base) {
            Ok(way) => Ok(way),
            Err(_) => Err(LineFault::OutOfMemory),
        },
        None => opening(alloc, table, scopes),
    }
}
