//! The parts of classes.

use crate::meanings::Named;
use tm_onig_class::sets::Set;

/// Characters that an item adds.
#[derive(Clone, Copy, Debug, PartialEq, Eq)]
pub(crate) enum Member {
    /// From the first to the second.
    Range(char, char),
    Set(Named),
}

/// What stands at the front of a class's text.
#[derive(Clone, Copy, Debug, PartialEq, Eq)]
pub(crate) enum Front {
    Adds(Member),
    /// `&&`.
    Meets,
    /// A nested class, of which the `[` is read.
    Opens,
}

/// What was read of a class.
#[derive(Drop)]
pub(crate) enum Part {
    Adds(Member),
    /// `&&`.
    Meets,
    /// A nested class, with how many are open at once in it.
    Inner { set: Set, height: u32 },
}
