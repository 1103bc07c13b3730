//! A text as shared lines, read from bytes and changed line by line.
#![tactic(auto)]

pub mod faults;
pub mod places;
pub mod split;
pub mod text;
pub mod threads;
