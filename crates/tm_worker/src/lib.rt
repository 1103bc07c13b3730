//! The worker in the background: a copy of the text that follows the foreground by its orders, line after line
//! tokenized, and batches of what that gave.
//!
//! It knows nothing of the foreground but its orders, and does not wait for any: while orders are under way it works on
//! the text that it has, and what it posts says by its version which text that was.
#![tactic(auto)]

pub mod fresh;
pub mod laws;
mod runs;
mod threads;
pub mod worker;
