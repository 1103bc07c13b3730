//! What is painted may cross threads.

use crate::painter::Painted;

fn crosses<T: Send + Sync>() {}

/// Painted pieces may cross and be shared between threads.
pub fn pieces_cross() {
    crosses::<Painted>();
}
