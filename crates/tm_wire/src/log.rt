//! What one end of a queue knows.

use std::collections::LinkedList;

/// Whether a pass of a queue may push and may pop, what both ends know, what it has pushed and what it has popped. No value
/// of it is made: it exists in proofs alone.
pub struct Log<X, S> {
    pub pushes: bool,
    pub pops: bool,
    pub known: S,
    pub pushed: LinkedList<X>,
    pub popped: LinkedList<X>,
}
