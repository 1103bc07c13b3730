//! What is kept of a line may cross threads.

use crate::entries::Entry;
use tm_defs::frames::{StateData, StateId};

fn crosses<T: Send + Sync>() {}

/// Entries may cross and be shared between threads, with states and with their numbers.
pub fn entries_cross() {
    crosses::<Entry<StateId>>();
    crosses::<Entry<StateData>>();
}
