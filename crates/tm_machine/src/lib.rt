//! Definitions: texts whose lines have births, what is kept of lines, tokenizing from the first
//! line, accuracy, and the machine of births. It has no code but the type of an entry; its functions
//! are laws of the definitions.
#![tactic(auto)]

pub mod entries;
pub mod laws;
mod threads;
