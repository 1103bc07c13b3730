//! What the foreground tells the worker.

use tm_defs::changes::Change;

/// An order to the worker.
#[derive(Drop)]
pub enum Order {
    /// The text was changed, which made this version.
    Change { version: u32, change: Change },
    /// The setting of this number took over.
    Setting { number: u32 },
}
