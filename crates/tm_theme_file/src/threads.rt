//! The types that threads share or hand to one another.

use crate::fault::Wrong;
use crate::read::{Alternatives, WrittenRule};

fn crosses<T: Send + Sync>() {}

/// Written rules, and what is wrong in a file, may cross and be shared between threads.
pub fn rules_cross() {
    crosses::<Alternatives>();
    crosses::<WrittenRule>();
    crosses::<Wrong>();
}
