//! The outside of the service: files that are read whole, and sinks that bytes are written to.
//!
//! Every layer above reads and writes through the two traits, so that its contracts can say which
//! bytes were read and written, and that a failure was really one. The types in memory tell their
//! bytes and fail at chosen calls; the real ones tell none.
#![tactic(auto)]

pub mod files;
pub mod honest;
pub mod memory;
pub mod real;
pub mod sink;
mod threads;
