//! The state behind a line: its open rules, made once.
ghost use Rattle.std.specs.Prelude.{◌≡◌, ◌<◌, ◌++◌, ◌∷◌, [], length, map, reverse, slice_get, Some, IfOk, IfErr};
ghost use Rattle.std.specs.Option.{MatchOption};
ghost use Rattle.tm_defs.specs.Tables.{GrowsWithin, IsFullForSome, state_at};
ghost use Rattle.tm_line_turns.specs.LineRun.{earlier, frames_of, states_made};
ghost use Rattle.tm_line_parts.specs.Stacks.{AreFrames, IsStack, opens, stack_at};

use crate::stack::{OpenFrame, Stack};
use tm_defs::frames::StateId;
use tm_defs::tables::{States, TableFault};

/// The innermost frame, and the others.
fn last_of(frames: &[OpenFrame]) -> Option<(&OpenFrame, &[OpenFrame])>
    ensures { MatchOption result (frames.now ≡ []) (λ p. frames.now ≡ p.1.now ++ p.0.now ∷ []) }
{
    match frames {
        [rest @ .., last] => Some((last, rest)),
        [] => None,
    }
}

/// The state with these frames on it.
fn interned_on<S: States>(
    table: &mut S,
    frames: &[OpenFrame],
    base: StateId,
) -> Result<StateId, TableFault>
    requires frames { AreFrames (S.tables table.old) frames.now }
    requires base { base.0 < length (S.tables table.old).states }
    ensures ok { let t = S.tables table.old in
        let all = opens t frames.now ++ map earlier (reverse (state_at t base)) in
        IfOk result (λ id. slice_get (S.tables table.new).states id.0 ≡ Some (reverse (frames_of all))) }
    ensures grows { let t = S.tables table.old in
        let all = opens t frames.now ++ map earlier (reverse (state_at t base)) in
        GrowsWithin (states_made all) t (S.tables table.new) }
    ensures full { let t = S.tables table.old in
        let all = opens t frames.now ++ map earlier (reverse (state_at t base)) in
        IfErr result (IsFullForSome (states_made all) (S.tables table.new)) }
{
    let Some((last, rest)) = last_of(frames) else {
        return Ok(base);
    };
    match interned_on(table, rest, base) {
        Ok(below) => table.intern(last.frame, below),
        Err(fault) => Err(fault),
    }
}

/// The state of a stack.
pub fn interned<S: States>(table: &mut S, stack: &Stack) -> Result<StateId, TableFault>
    requires { IsStack (S.tables table.old) stack.now }
    ensures ok { IfOk result (λ id. slice_get (S.tables table.new).states id.0 ≡ Some (reverse (frames_of (stack_at (S.tables table.old) stack.now)))) }
    ensures grows { GrowsWithin (states_made (stack_at (S.tables table.old) stack.now)) (S.tables table.old) (S.tables table.new) }
    ensures full { IfErr result (IsFullForSome (states_made (stack_at (S.tables table.old) stack.now)) (S.tables table.new)) }
{
    match interned_on(table, stack.below.as_slice(), stack.base) {
        Ok(below) => table.intern(stack.top.frame, below),
        Err(fault) => Err(fault),
    }
}
