//! A run of the machine: one turn for each instruction, paid for from a budget.
ghost use Rattle.std.specs.Prelude.{◌≡◌, ℕ, ◌+◌, ◌^◌, ◌<◌, ◌≤◌, List, length, option_map, OnOk, IfOk, IsErrOf};
ghost use Rattle.tm_onig_search.specs.Outcomes.{Outcome};
ghost use Rattle.tm_onig_vm.specs.inner.Anchors.{subject_of};
ghost use Rattle.tm_onig_vm.specs.inner.Machine.{AllMean};
ghost use Rattle.tm_onig_vm.specs.inner.Threads.{now_threads, groups_under, hit_at};

use crate::code::Instr;
use crate::fault::FindFault;
use crate::machine::{Acted, Waiting, act};
use crate::starts::Anchors;
use crate::trail::{Trail, Way, next_way, resume};
use std::alloc::Global;

/// What a run only reads.
#[derive(Drop)]
pub(crate) struct Reads<'a> {
    pub alloc: Global,
    pub line: &'a [char],
    pub anchors: Anchors,
    pub code: &'a [Instr],
}

/// Where the first success of the ways ends, and its groups are set then: of the first way, and of those on the
/// trail. Each case that is entered takes one from the budget, which an early end may leave as it was.
pub(crate) fn run(
    reads: &Reads,
    first: Option<Way>,
    trail: &mut Trail,
    caps: &mut [Option<(u32, u32)>],
    budget: &mut u64,
) -> Result<Option<usize>, FindFault>
    requires stands { (o : Outcome) × AllMean (subject_of reads.now.line.now reads.now.anchors) reads.now.code.now (now_threads first trail.old caps.old) o }
    requires small { length reads.now.line.now < 2 ^ 31 }
    ensures hit { (o : Outcome) → AllMean (subject_of reads.now.line.now reads.now.anchors) reads.now.code.now (now_threads first trail.old caps.old) o → IfOk result (λ found. option_map (hit_at caps.new) found ≡ o.hit) }
    ensures cost { (o : Outcome) → AllMean (subject_of reads.now.line.now reads.now.anchors) reads.now.code.now (now_threads first trail.old caps.old) o → OnOk result (budget.new + o.cost ≡ budget.old) }
    ensures over { (o : Outcome) → AllMean (subject_of reads.now.line.now reads.now.anchors) reads.now.code.now (now_threads first trail.old caps.old) o → IsErrOf result FindFault.Budget → budget.old < o.cost }
    ensures falls { (o : Outcome) → AllMean (subject_of reads.now.line.now reads.now.anchors) reads.now.code.now (now_threads first trail.old caps.old) o → (budget.new ≤ budget.old) × (budget.old ≤ budget.new + o.cost) }
    ensures kept { OnOk result (groups_under trail.new caps.new ≡ groups_under trail.old caps.old) }
{
    let mut now = first;
    let mut left = *budget;
    'steps: while let Some(way) = now {
        let Some(instr) = reads.code.get(way.pc as usize) else {
            return Ok(None);
        };
        match act(
            reads.alloc,
            reads.line,
            reads.anchors,
            instr,
            way.pos,
            trail,
            caps,
        )? {
            Acted::Succeeds(end) => {
                if left == 0 {
                    return Err(FindFault::Budget);
                }
                *budget = left - 1;
                return Ok(Some(end));
            }
            Acted::Costs(cost) => {
                if left < cost {
                    return Err(FindFault::Budget);
                }
                left -= cost;
                now = next_way(trail, caps)?;
            }
            Acted::Goes(cost, next) => {
                if left < cost {
                    return Err(FindFault::Budget);
                }
                left -= cost;
                now = Some(next);
            }
            Acted::Waits(waiting) => {
                if left == 0 {
                    return Err(FindFault::Budget);
                }
                left -= 1;
                let Waiting {
                    mut inner,
                    negative,
                    stays,
                    rest,
                } = waiting;
                let begin = next_way(&mut inner, caps)?;
                match run(reads, begin, &mut inner, caps, &mut left) {
                    Ok(found) => {
                        resume(trail, caps, inner, negative, stays, rest, found)?;
                        now = next_way(trail, caps)?;
                    }
                    Err(fault) => return Err(fault),
                }
            }
        }
    }
    *budget = left;
    Ok(None)
}
