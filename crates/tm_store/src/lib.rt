//! What is kept of the lines of a text, with the ranges of entries that are not good.
//!
//! A line that is tokenized makes its entry good; an edit makes the entries behind it doubtful. Which lines are still to be
//! done is kept as ranges, so the front is found by one look, however long the text is, and lines between two edits
//! that stay good are never looked at.
#![tactic(auto)]

pub mod spans;
pub mod store;
pub mod threads;
