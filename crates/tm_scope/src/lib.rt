//! Texts and scope lists by number, over one numbered set.
#![tactic(auto)]

pub mod numbered;
pub mod scopes;
pub mod threads;
