//! Scripts: the steps of a run, one in each line of a file, as JSON objects.
//!
//! A script is split into lines first, so that the line of a step is known to whoever refuses it. The text `{"step":
//! "line"}`, a line feed and `{"step": "force", "line": 7}` has two steps, at lines 0 and 1. Were the first line
//! `{"step": "lines"}`, the script would be refused as `BadStep(0)`.
#![tactic(auto)]

pub mod script;
pub mod steps;
mod threads;
pub mod tree;
mod values;
mod words;
