//! What a run answers may cross threads.

use crate::status::{Status, What};

fn crosses<T: Send + Sync>() {}

/// Statuses may cross and be shared between threads.
pub fn statuses_cross() {
    crosses::<Status>();
    crosses::<What>();
}
