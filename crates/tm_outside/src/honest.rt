//! A sink in memory that never fails: the plain meaning of a sink, and what a document is printed to.
ghost use Rattle.std.specs.Prelude.{◌≡◌, ◌≤◌, Some, IfErr, IfOk, length};
ghost use Rattle.tm_outside.specs.Causes.{TakesPiece, IsWriteCause};

use crate::sink::{Sink, WriteFault};
use std::marker::Model;

/// Takes whole pieces, and never answers `Failed`. Contracts see the bytes taken.
#[derive(Drop)]
pub struct HonestSink {
    taken: Vec<u8>,
}

impl Model for HonestSink {
    ghost use Rattle.std.specs.Prelude.{List, ℕ};

    ghost Value = { List ℕ };

    ghost view = { λ a. a.taken.items };
}

impl HonestSink {
    /// A sink that has taken these bytes. It takes no memory, and grows by the list's allocator.
    pub fn new(taken: Vec<u8>) -> Self
        ensures { result ≡ taken.items }
    {
        HonestSink { taken }
    }

    /// The bytes taken.
    pub fn bytes(&self) -> &[u8]
        ensures { result.now ≡ self.now }
    {
        self.taken.as_slice()
    }
}

impl Sink for HonestSink {
    ghost taken = { λ s. Some s };

    ghost faults = { λ _. 0 };

    fn write(&mut self, piece: &[u8]) -> Result<usize, WriteFault>
        ensures takes { TakesPiece (Some self.old) (Some self.new) piece.now result }
        ensures never_falls { 0 ≤ 0 }
        ensures cause { IfErr result (IsWriteCause 0 0) }
        ensures whole { IfOk result (λ count. count ≡ length piece.now) }
        ensures honest { IfErr result (λ fault. fault ≡ WriteFault.OutOfMemory) }
    {
        match self.taken.extend_from_slice(piece) {
            Ok(()) => Ok(piece.len()),
            Err(_) => Err(WriteFault::OutOfMemory),
        }
    }
}
