//! Files by name.
ghost use Rattle.std.specs.Prelude.{◌≡◌, ℕ, List, Option};
ghost use Rattle.tm_outside.specs.Files.{MayFail, Reads};

use thiserror::Error;

/// Why a file was not read.
#[derive(Clone, Copy, Debug, PartialEq, Eq, Error)]
pub enum ReadFault {
    /// The file is not there, cannot be read, or has more than 1,073,741,824 bytes.
    #[error("the file cannot be read")]
    Failed,
    #[error("out of memory")]
    OutOfMemory,
}

/// Files that are read whole.
pub trait Files {
    /// The bytes of each name, where they are told. No call changes them.
    ghost bytes: { Self → List ℕ → Option (List ℕ) };

    /// The names whose reads failed, in the order of the reads.
    ghost failed: { Self → List (List ℕ) };

    /// Appends the bytes of a file. `Failed` comes only where this read added its name to those that
    /// failed. After a refusal `into` is as it was.
    fn read(&mut self, name: &str, into: &mut Vec<u8>) -> Result<(), ReadFault>
        ensures read { Reads (bytes self.old name.now) (failed self.old) (failed self.new) name.now into.old.items into.new.items result }
        ensures failed { MayFail (failed self.old) (failed self.new) name.now }
        ensures bytes { (name : List ℕ) → bytes self.new name ≡ bytes self.old name };
}
