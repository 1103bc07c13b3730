//! The types that a foreground and a background worker hand to one another or share.

use crate::deltas::DeltaFault;
use crate::states::{FrameLink, StateTable};

fn crosses<T: Send + Sync>() {}

/// Tables of states, and the faults of deltas, may cross and be shared between threads.
pub fn tables_cross() {
    crosses::<StateTable>();
    crosses::<FrameLink>();
    crosses::<DeltaFault>();
}
