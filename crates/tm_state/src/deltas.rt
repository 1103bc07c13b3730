//! Differences of states, which lead from a state of one table to a state that another table may hold.
//!
//! Of two states that differ, the one with the higher number is no front of the other, so the longest
//! common front is found by leaving the innermost frame of the state with the higher number until both
//! are one.
ghost use Rattle.std.specs.Prelude.{◌≡◌, ◌<◌, ◌≤◌, ◌-◌, length, min, take, Some, Err, slice_get, IfOk, OnErr, IfErr, Contains};
ghost use Rattle.tm_defs.specs.Tables.{GrowsWithin, state_at};
ghost use Rattle.tm_scope.specs.Entries.{KeepsLimits};
ghost use Rattle.tm_state.specs.Entries.{state_entries};
ghost use Rattle.tm_state.specs.Deltas.{IsDifference, applied, IsDeltaFault, IsBadDelta};

use crate::states::StateTable;
use tm_defs::frames::{Delta, StateData, StateId};
use tm_defs::memory::OutOfMemory;
use tm_defs::tables::{States, TableFault};

/// Why a delta was not applied.
#[derive(Clone, Copy, Debug, PartialEq, Eq)]
pub enum DeltaFault {
    /// The delta takes away more frames than the state has.
    BadDelta { pops: u32, depth: u32 },
    /// The table concerned holds this many entries or more, and a new one is needed.
    TableFull(u32),
    OutOfMemory,
}

impl StateTable {
    /// The state without its innermost frames, as many as `pops`; the depth of the state where it has not
    /// so many.
    fn without(&self, state: StateId, pops: u32) -> Result<StateId, u32>
        requires { state.0 < length self.now.states }
        ensures low { IfOk result (λ rest. rest.0 < length self.now.states) }
        ensures ok { IfOk result (λ rest. state_at self.now rest ≡ take (length (state_at self.now state) - pops) (state_at self.now state)) }
        ensures enough { IfOk result (λ _. pops ≤ length (state_at self.now state)) }
        ensures depth { IfErr result (λ depth. (depth ≡ length (state_at self.now state)) × (depth < pops)) }
    {
        self.prove_known();
        let mut rest = state;
        for count in 0..pops {
            if rest.0 == 0 {
                return Err(count);
            }
            let (_frame, before) = self.innermost(rest);
            rest = before;
        }
        Ok(rest)
    }

    /// How one state differs from another: what to take away behind the longest common front, and what to
    /// add.
    pub fn diff(&self, a: StateId, b: StateId) -> Result<Delta, OutOfMemory>
        requires a { a.0 < length self.now.states }
        requires b { b.0 < length self.now.states }
        ensures { IfOk result (IsDifference (state_at self.now a) (state_at self.now b)) }
    {
        self.prove_closed();
        let mut from = a;
        let mut to = b;
        let mut pops = 0;
        let mut pushed = Vec::new(self.allocator());
        while from.0 != to.0 {
            if to.0 < from.0 {
                let (_frame, rest) = self.innermost(from);
                from = rest;
                pops += 1;
            } else {
                let (frame, rest) = self.innermost(to);
                pushed.push(self.frame_data(frame)?)?;
                to = rest;
            }
        }
        pushed.reverse();
        Ok(Delta {
            pops,
            pushed: StateData::new(pushed),
        })
    }

    /// The number of the state to which a delta leads, as `put` gives it. `BadDelta` comes exactly where the
    /// delta takes away more frames than the state has, and then nothing has changed. A state that has a
    /// number is never refused. After another refusal the table may have grown.
    pub fn apply(&mut self, a: StateId, delta: &Delta, limit: u32) -> Result<StateId, DeltaFault>
        requires { a.0 < length self.old.states }
        ensures ok { IfOk result (λ id. slice_get self.new.states id.0 ≡ Some (applied (state_at self.old a) delta.now)) }
        ensures grows { GrowsWithin (state_entries (applied (state_at self.old a) delta.now)) self.old self.new }
        ensures limit { KeepsLimits (min limit self.old.limit) self.old self.new }
        ensures bad { length (state_at self.old a) < delta.now.pops → IsBadDelta (state_at self.old a) delta.now result × (self.new ≡ self.old) }
        ensures absent { delta.now.pops ≤ length (state_at self.old a) → OnErr result (¬ Contains self.old.states (applied (state_at self.old a) delta.now)) }
        ensures fault { IfErr result (IsDeltaFault (min limit self.old.limit) (state_at self.old a) delta.now self.new) }
    {
        let base = match self.without(a, delta.pops) {
            Ok(base) => base,
            Err(depth) => {
                return Err(DeltaFault::BadDelta {
                    pops: delta.pops,
                    depth,
                });
            }
        };
        let limit = limit.min(self.limit());
        let id = match self.with_frames(base, delta.pushed.as_slice(), limit) {
            Ok(id) => id,
            Err(TableFault::TableFull(count)) => return Err(DeltaFault::TableFull(count)),
            Err(TableFault::OutOfMemory) => return Err(DeltaFault::OutOfMemory),
        };
        Ok(id)
    }
}
