//! What the files of a run say: settings, a grammar, a text and a script, in the form that is built, or
//! why they are refused.
//!
//! Each kind of file has a definition of its form in `specs/`, from bytes to a value or a refusal, and a
//! reader that answers exactly this.
#![tactic(auto)]

mod checks;
mod edits;
pub mod form;
pub mod grammar;
mod json;
mod kinds;
pub mod script;
pub mod settings;
pub mod text;
mod threads;
mod utf8;
