//! Grammar files as raw trees.
#![tactic(auto)]

pub mod fault;
pub mod grammar;
pub mod laws;
mod numbers;
pub mod paths;
pub mod raw;
mod shapes;
mod tree;
mod values;
mod wrong;
