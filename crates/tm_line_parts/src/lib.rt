//! The turns of a line, whatever its rules are.
//!
//! A line is tokenized turn by turn, as `tm_line_turns` defines it. What its rules find and push is asked of a
//! `LineRules` (`rules`); this crate does what the relation says of it: it asks the rules that earlier lines opened
//! whether the line holds them up (`whiles`), and opens, ends and covers (`run`) on a stack of frames (`stack`), adds pieces and scope lists (`parts`), and makes the state of the open rules once, at the
//! line's end (`ends`). Each function says what it adds by one clause, `Adds`, of a part of the line.
#![tactic(auto)]

mod ends;
mod groups;
mod layers;
pub mod line;
mod parts;
pub mod rules;
mod run;
mod stack;
mod start;
mod stops;
mod tables;
mod whiles;
