//! Files of themes, as the rules that they write.
#![tactic(auto)]

pub mod fault;
pub mod read;
mod threads;
mod written;
pub mod wrong;
