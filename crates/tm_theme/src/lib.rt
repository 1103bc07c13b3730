//! Themes, and the metadata word of a path of scopes by them, after vscode-textmate.
//!
//! ```text
//! the rules of a theme            on the path source.t, comment.line.t
//! comment          colour 3       the look of the comment: colour 3
//! source comment   italic         and italic, since both rules match and set different things
//! ```
#![tactic(auto)]

mod buckets;
pub mod fault;
mod file;
pub mod laws;
mod palette;
pub mod rules;
mod strength;
pub mod style;
pub mod theme;
mod threads;
