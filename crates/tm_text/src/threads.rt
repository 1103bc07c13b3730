//! A text and its lines cross between the foreground and the worker.

use crate::faults::TextFault;
use crate::text::{Plan, Text};
use std::sync::Arc;
use tm_defs::texts::Line;

fn crosses<T: Send + Sync>() {}

/// Texts may cross and be shared between threads.
pub fn texts_cross() {
    crosses::<Arc<Line>>();
    crosses::<Text>();
    crosses::<Plan>();
    crosses::<TextFault>();
}
