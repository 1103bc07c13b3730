//! A cache of the programs of patterns, by their texts.
//!
//! The text of an end may hold what its begin captured, so it is known only in a line, and comes again in the lines that
//! follow: a here-document of a thousand lines asks for the same end a thousand times. Here a program is kept with the text
//! that it is of, and the two threads of a session share it. A line never waits: where the other thread has the lock, the
//! program is made anew.
#![tactic(auto)]

pub mod cache;
mod programs;
mod threads;
