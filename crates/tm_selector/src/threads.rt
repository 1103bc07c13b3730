//! The types that threads share or hand to one another.

use crate::selector::Selector;
use crate::tokens::Token;

fn crosses<T: Send + Sync>() {}

/// Selectors and their tokens may cross and be shared between threads.
pub fn selectors_cross() {
    crosses::<Token>();
    crosses::<Selector>();
}
