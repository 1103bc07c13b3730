//! Token types may cross threads.

use crate::metadata::TokenType;

fn crosses<T: Send + Sync>() {}

/// Token types may cross and be shared between threads.
pub fn types_cross() {
    crosses::<TokenType>();
}
