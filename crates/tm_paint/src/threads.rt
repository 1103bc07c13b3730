//! Painters and what is painted may cross threads.

use crate::painter::{Painted, Painter};

fn crosses<T: Send + Sync>() {}

/// Painters and pieces may cross and be shared between threads.
pub fn painters_cross() {
    crosses::<Painter>();
    crosses::<Painted>();
}
