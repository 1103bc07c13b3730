//! A difference leads from the one state to the other.
ghost use Rattle.std.specs.Prelude.{◌≡◌, ◌<◌, List, length, IfOk};
ghost use Rattle.tm_defs.specs.declared.frames.FrameData.{FrameData};
ghost use Rattle.tm_defs.specs.declared.frames.Delta.{Delta};
ghost use Rattle.tm_state.specs.Deltas.{IsDifference, applied};

use crate::states::StateTable;
use tm_defs::frames::StateId;
use tm_defs::memory::OutOfMemory;
use tm_defs::tables::States;

/// The difference of two states, applied to the one, is the other.
pub fn difference_leads_there()
    ensures { (a b : List FrameData) (delta : Delta) → IsDifference a b delta → applied a delta ≡ b }
{}

/// A difference that is applied in its own table gives the very number, whatever the limit: no entry is
/// new, so nothing is full and only the difference itself takes memory.
pub fn applied_difference(
    table: &mut StateTable,
    a: StateId,
    b: StateId,
    limit: u32,
) -> Result<StateId, OutOfMemory>
    requires a { a.0 < length table.old.states }
    requires b { b.0 < length table.old.states }
    ensures { IfOk result (λ id. id ≡ b) }
{
    let delta = table.diff(a, b)?;
    let Ok(id) = table.apply(a, &delta, limit) else {
        unreachable!();
    };
    table.prove_known();
    Ok(id)
}
