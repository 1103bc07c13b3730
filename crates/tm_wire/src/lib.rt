//! The two queues between the foreground and the worker: orders go one way, batches the other.
//!
//! Each queue is under one rule: what was pushed is what was popped and then what the queue holds, in order, and each value
//! is fit for what both ends know. Of a queue one end pushes and the other pops, so each end knows the list of what it
//! moved, and who has both ends again knows how the two lists stand to one another.
#![tactic(auto)]

pub mod ends;
pub mod halves;
pub mod log;
pub mod making;
pub mod rules;
mod threads;
