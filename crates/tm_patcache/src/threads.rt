//! A cache of programs may cross threads and be shared.

use crate::cache::PatCache;

fn crosses<T: Send + Sync>() {}

/// A cache may cross and be shared between threads.
pub fn caches_cross() {
    crosses::<PatCache>();
}
