//! Why nothing was read.

/// Why nothing was read.
#[derive(Clone, Copy, Debug, PartialEq, Eq)]
pub enum AtomFault {
    /// The text is not in the grammar. Only then.
    Unreadable,
    OutOfMemory,
}
