//! Sets of characters and the trees of patterns.
//!
//! What the reader of patterns makes and the search walks over: `sets::Set`, which contracts see as
//! its ranges, and `patterns::Pattern`, which they see as a plain tree.
#![tactic(auto)]

mod ascii;
mod folding;
pub mod listed;
pub mod names;
pub mod patterns;
mod ranks;
pub mod sets;
