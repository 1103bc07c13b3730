//! Scope selectors, after the TextMate 1.x manual and vscode-textmate.
//!
//! ```text
//! comment                 a scope that is `comment` or begins with `comment.`
//! source comment          such a scope below one of `source`
//! source - comment        a path with `source` and without `comment`
//! source - (comment | string), L:text
//!                         alternatives; `L:` and `R:` say where a rule stands among others
//! ```
//!
//! Every text is a selector: it is read as far as it can be the beginning of one.
#![tactic(auto)]

pub mod laws;
pub mod names;
pub mod selector;
mod syntax;
mod threads;
pub mod tokens;
mod walk;
