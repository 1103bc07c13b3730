//! Models may cross threads.

use crate::model::{Forced, Model};
use tm_defs::tokenizer::LineTok;

fn crosses<T: Send + Sync>() {}

/// A model may cross and be shared between threads where its settings may.
pub fn model_crosses<'a, T: LineTok + Send + Sync + 'a>() {
    crosses::<Model<'a, T>>();
    crosses::<Forced>();
}
