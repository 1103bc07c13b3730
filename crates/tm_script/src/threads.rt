//! A script may be read on one thread and played on another.

use crate::script::{Script, ScriptFault};
use crate::steps::{ScriptStep, Scripted};

fn crosses<T: Send + Sync>() {}

/// Scripts, and why they are refused, may cross and be shared between threads.
pub fn scripts_cross() {
    crosses::<ScriptStep>();
    crosses::<Scripted>();
    crosses::<Script>();
    crosses::<ScriptFault>();
}
