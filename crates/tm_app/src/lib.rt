//! The top call: it reads the files of a command, runs the steps of a script over a model, and
//! writes what they print. Files and sinks are whatever the caller hands in.
#![tactic(auto)]

mod command;
mod hex;
mod lint;
pub mod outcome;
mod play;
mod printed;
mod reading;
pub mod report;
mod setup;
pub mod status;
mod threads;
