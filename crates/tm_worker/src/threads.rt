//! A worker goes to its thread.

use crate::fresh::FreshLines;
use crate::worker::{OrderFault, Worker};
use tm_defs::tokenizer::LineTok;

fn crosses<T: Send + Sync>() {}

/// A worker may cross and be shared between threads where its settings may.
pub fn worker_crosses<'a, T: LineTok + Send + Sync + 'a>() {
    crosses::<FreshLines>();
    crosses::<Worker<'a, T>>();
    crosses::<OrderFault>();
}
