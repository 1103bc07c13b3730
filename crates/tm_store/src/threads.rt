//! A worker's store crosses to its thread.

use crate::store::Store;
use tm_defs::frames::StateId;
use tm_machine::entries::Entry;

fn crosses<T: Send + Sync>() {}

/// What is kept of lines may cross and be shared between threads.
pub fn stores_cross() {
    crosses::<Entry<StateId>>();
    crosses::<Store<StateId>>();
}
