//! States by number, beside the numbered texts and scope lists that their frames need.
#![tactic(auto)]

pub mod deltas;
mod frames;
pub mod laws;
pub mod states;
pub mod threads;
