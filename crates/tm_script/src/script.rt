//! A script as its steps.
ghost use Rattle.std.specs.Prelude.{◌≡◌, ◌≤◌, ◌<◌, ◌^◌, ◌==◌, map, length, IfOk, IfErr, Ok};
ghost use Rattle.std.specs.List.{list_any, slice_split};
ghost use Rattle.tm_script.specs.Script.{script_in, steps_of, lines_in, is_workers, is_to_come, IsScript, IsRefusalOf};
ghost use Rattle.tm_script.specs.Steps.{said_in};

use crate::steps::{ScriptStep, Scripted};
use crate::words::{Said, read_line};
use json::Scratch;
use std::alloc::{AllocError, AllocFailed, Global};
use std::marker::Model;
use tm_defs::events::Step;
use tm_defs::memory::OutOfMemory;

/// A script has at most this many steps, so that the version of a text, which each edit raises by one, stays far
/// below 2^31.
pub const STEP_LIMIT: usize = 1_000_000;

/// Why bytes are no script.
#[derive(Clone, Copy, Debug, PartialEq, Eq)]
pub enum ScriptFault {
    /// The line of this number, from 0, is the first that is neither blank nor a step.
    BadStep(u32),
    /// There is one step more than there may be, and no bad line before it.
    TooManySteps,
    /// Each line may stand, but one of the steps is the worker's, and no worker is built yet.
    NotYet,
    OutOfMemory,
}

impl From<OutOfMemory> for ScriptFault {
    ghost use Rattle.std.specs.Prelude.{◌≡◌};
    ghost use Rattle.tm_script.specs.declared.script.ScriptFault.TheVariants.{OutOfMemory};

    ghost from_gives = { λ _ fault. fault ≡ OutOfMemory };

    fn from(_refused: OutOfMemory) -> ScriptFault {
        ScriptFault::OutOfMemory
    }
}

impl From<AllocError> for ScriptFault {
    ghost use Rattle.std.specs.Prelude.{◌≡◌};
    ghost use Rattle.tm_script.specs.declared.script.ScriptFault.TheVariants.{OutOfMemory};

    ghost from_gives = { λ _ fault. fault ≡ OutOfMemory };

    fn from(_refused: AllocError) -> ScriptFault {
        ScriptFault::OutOfMemory
    }
}

impl<T: Drop> From<AllocFailed<T>> for ScriptFault {
    ghost use Rattle.std.specs.Prelude.{◌≡◌};
    ghost use Rattle.tm_script.specs.declared.script.ScriptFault.TheVariants.{OutOfMemory};

    ghost from_gives = { λ _ fault. fault ≡ OutOfMemory };

    fn from(_refused: AllocFailed<T>) -> ScriptFault {
        ScriptFault::OutOfMemory
    }
}

/// The steps of a script, in the order of their lines.
#[derive(Drop)]
pub struct Script {
    steps: Vec<Scripted>,
}

impl Model for Script {
    ghost use Rattle.std.specs.Prelude.{List};
    ghost use Rattle.tm_script.specs.Script.{IsScript};
    ghost use Rattle.tm_script.specs.declared.steps.Scripted.{Scripted};

    ghost Value = { List Scripted };

    ghost view = { λ a. a.steps.items };

    ghost invariant = { λ a. IsScript a.steps.items };
}

/// The parts between line feeds.
fn lines_of(alloc: Global, bytes: &[u8]) -> Result<Vec<&[u8]>, AllocError>
    ensures { IfOk result (λ lines. map (λ line. line.now) lines.items ≡ lines_in bytes.now) }
{
    bytes.split(|byte| *byte == b'\n').collect(alloc)
}

/// The steps of lines.
fn read_lines(alloc: Global, lines: &[&[u8]]) -> Result<Vec<Scripted>, ScriptFault>
    requires { length lines.now < 2 ^ 32 }
    ensures ok { IfOk result (λ steps. steps_of (map (λ line. said_in line.now) lines.now) ≡ Ok steps.items) }
    ensures fault { IfErr result (IsRefusalOf (steps_of (map (λ line. said_in line.now) lines.now))) }
{
    let mut steps = Vec::new(alloc);
    let mut scratch = Scratch::new(alloc);
    let mut next = 0u32;
    for bytes in lines {
        let line = next;
        next += 1;
        match read_line(alloc, bytes, &mut scratch)? {
            Said::Nothing => {}
            Said::Step(step) => {
                if steps.len() == STEP_LIMIT {
                    return Err(ScriptFault::TooManySteps);
                }
                steps.push(Scripted { line, step })?;
            }
            Said::Wrong => return Err(ScriptFault::BadStep(line)),
        }
    }
    Ok(steps)
}

/// Whether the step is the worker's, or accepts what it posted.
fn workers(step: &ScriptStep) -> bool
    ensures { result ≡ is_workers step.now }
{
    matches!(
        step,
        ScriptStep::Core(Step::Drain | Step::Work | Step::Post | Step::Accept)
    )
}

fn has_workers(steps: &[Scripted]) -> bool
    ensures { result ≡ list_any is_to_come steps.now }
{
    steps.iter().any(|scripted| workers(&scripted.step))
}

impl Script {
    /// Reads the bytes of a script, without a byte order mark: one JSON object in each line that is not blank. Its key
    /// `step` has one of ten words, and further keys are as the word wants them.
    ///
    /// Time grows with the bytes, and memory with the steps and lines.
    pub fn from_slice(alloc: Global, bytes: &[u8]) -> Result<Self, ScriptFault>
        requires { length bytes.now ≤ 2 ^ 30 }
        ensures ok { IfOk result (λ script. script_in bytes.now ≡ Ok script) }
        ensures fault { IfErr result (IsRefusalOf (script_in bytes.now)) }
    {
        let lines = lines_of(alloc, bytes)?;
        let steps = read_lines(alloc, lines.as_slice())?;
        if has_workers(steps.as_slice()) {
            return Err(ScriptFault::NotYet);
        }
        Ok(Script { steps })
    }

    /// The steps in the order of their lines.
    pub fn steps(&self) -> &[Scripted]
        ensures value { result.now ≡ self.now }
        ensures script { IsScript result.now }
    {
        self.steps.as_slice()
    }
}
