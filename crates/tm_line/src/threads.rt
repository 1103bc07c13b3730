//! Settings may be shared between threads.

use crate::tokenizer::Setting;

fn crosses<T: Send + Sync>() {}

/// Two threads may tokenize with one setting.
pub fn settings_cross() {
    crosses::<Setting>();
}
