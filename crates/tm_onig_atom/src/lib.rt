//! What matches by itself in a pattern: escapes, sets by name, and classes.
//!
//! The grammar is a definition apart (`specs/Escapes.antt`, `specs/Classes.antt`), and so is the reading
//! that the code follows (`specs/inner/Reading.antt`, `specs/inner/ClassReading.antt`). A call is nested for each
//! class within a class, and for nothing else.
#![tactic(auto)]

pub mod atoms;
mod class_sets;
mod classes;
mod escapes;
mod fault;
mod fronts;
pub mod meanings;
mod numbers;
pub mod options;
mod parts;
mod posix;
pub mod slices;
pub mod store;

pub use fault::AtomFault;
