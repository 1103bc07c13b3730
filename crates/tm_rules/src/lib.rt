//! The rules of grammars by number, what their includes name, and their candidates.
#![tactic(auto)]

pub mod candidate;
mod flow;
pub mod grammars;
mod includes;
pub mod laws;
mod lists;
mod load;
mod loaded;
mod made;
mod only_lists;
mod parts;
pub mod rules;
mod sizes;
mod walk;
