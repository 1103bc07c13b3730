//! Files and sinks may cross threads.

use crate::files::ReadFault;
use crate::honest::HonestSink;
use crate::memory::{MemFiles, MemSink};
use crate::real::{RealFiles, StdSink};
use crate::sink::WriteFault;

fn crosses<T: Send + Sync>() {}

/// Files, and why a read failed, may cross and be shared between threads.
pub fn files_cross() {
    crosses::<MemFiles>();
    crosses::<RealFiles>();
    crosses::<ReadFault>();
}

/// Sinks, and why a write failed, may cross and be shared between threads.
pub fn sinks_cross() {
    crosses::<HonestSink>();
    crosses::<MemSink>();
    crosses::<StdSink>();
    crosses::<WriteFault>();
}
