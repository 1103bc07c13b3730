//! The model of a text: its lines, what is kept of each, and the numbering of their states.
#![tactic(auto)]

pub mod model;
mod threads;
