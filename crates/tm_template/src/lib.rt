//! Texts that refer to what a match captured: templates of names, and the texts of ends.
//!
//! The name of a rule may refer to groups of its match: where `$1` stands, the names that it pushes
//! have the text of group 1. The text of an end may refer to groups of the begin: where `\1` stands,
//! the end matches what group 1 captured, character by character. Both are read as pieces, each a
//! character or a reference, and each piece gives its part of the result.
//!
//! The template `k.$1 m` over the line `x.yz`, where group 1 is from 1 to 3:
//!
//! ```text
//! pieces   k   .   $1   _   m
//! gives    k   .   y    _   m      group 1 is `.y`, and its dot does not count
//! names    k.y and m
//! ```
//!
//! The same group in the end `^\1$` gives `^\.y$`: a dot would match any character, so it gets a
//! backslash.
#![tactic(auto)]

mod captures;
pub mod ends;
pub mod laws;
pub mod names;
pub mod references;
