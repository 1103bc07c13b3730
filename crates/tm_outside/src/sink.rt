//! A sink of bytes that counts its faults.
ghost use Rattle.std.specs.Prelude.{◌≡◌, ◌≤◌, ℕ, List, Option, IfErr};
ghost use Rattle.tm_outside.specs.Causes.{TakesPiece, TakesAll, IsWriteCause};

use thiserror::Error;

/// Why a piece was not taken.
#[derive(Clone, Copy, Debug, PartialEq, Eq, Error)]
pub enum WriteFault {
    /// The write failed, or took nothing of a piece that is not empty.
    #[error("the write failed")]
    Failed,
    #[error("out of memory")]
    OutOfMemory,
}

/// What bytes are written to.
pub trait Sink {
    /// The bytes taken, where they are told.
    ghost taken: { Self → Option (List ℕ) };

    /// How many writes failed, at most 2^64 - 1.
    ghost faults: { Self → ℕ };

    /// Takes a front of the piece and answers its length in bytes, at least 1 where the piece is not
    /// empty. `Failed` comes only where the count of faults rose; a count that stands at its greatest
    /// value counts as risen. A refusal takes nothing.
    fn write(&mut self, piece: &[u8]) -> Result<usize, WriteFault>
        ensures takes { TakesPiece (taken self.old) (taken self.new) piece.now result }
        ensures never_falls { faults self.old ≤ faults self.new }
        ensures cause { IfErr result (IsWriteCause (faults self.old) (faults self.new)) };
}

/// Writes all bytes, or a front of them before a fault.
pub fn write_all<S: Sink>(sink: &mut S, bytes: &[u8]) -> Result<(), WriteFault>
    ensures takes { TakesAll (S.taken sink.old) (S.taken sink.new) bytes.now result }
    ensures never_falls { S.faults sink.old ≤ S.faults sink.new }
    ensures cause { IfErr result (IsWriteCause (S.faults sink.old) (S.faults sink.new)) }
{
    let mut at = 0;
    while at < bytes.len() {
        match sink.write(&bytes[at..]) {
            Ok(count) => at += count,
            Err(fault) => return Err(fault),
        }
    }
    Ok(())
}
