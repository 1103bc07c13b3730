//! Orders go from the foreground to the worker, and batches come back.

use crate::batches::{Batch, Item, Items, Run};
use crate::orders::Order;

fn crosses<T: Send + Sync>() {}

/// Orders and batches may cross and be shared between threads.
pub fn messages_cross() {
    crosses::<Order>();
    crosses::<Item>();
    crosses::<Items>();
    crosses::<Run>();
    crosses::<Batch>();
}
