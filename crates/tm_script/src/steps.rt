//! The steps of scripts.

use tm_defs::events::Step;

/// A step of a script: one of the service, or an order to print.
#[derive(Drop)]
pub enum ScriptStep {
    Core(Step),
    /// The lines from the first to the second one are printed with their tokens, both included; or all lines.
    Show(Option<(u32, u32)>),
}

/// A step with its line in the script, from 0. Blank lines count.
#[derive(Drop)]
pub struct Scripted {
    pub line: u32,
    pub step: ScriptStep,
}
