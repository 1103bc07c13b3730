//! Files and sinks in memory, of which chosen calls fail: with them a test makes any fault of the
//! outside happen where it wants.
ghost use Rattle.std.specs.Prelude.{◌≡◌, ◌≤◌, ℕ, List, Some, option_map, option_and_then, string_bytes, map, [], IfErr};
ghost use Rattle.tm_outside.specs.Memory.{held_in, fails, named_bytes, within_greatest, given_by, ReadsByNumber, after_read, WritesByNumber, after_write};
ghost use Rattle.tm_outside.specs.Causes.{TakesPiece, IsWriteCause};
ghost use Rattle.tm_outside.specs.Files.{MayFail, Reads};

use crate::files::{Files, ReadFault};
use crate::sink::{Sink, WriteFault};
use std::alloc::Global;
use std::marker::Model;

/// Named files, and the numbers of the reads that fail, the first read being 0. Of several files with
/// one name the first counts.
#[derive(Drop)]
pub struct MemFiles {
    files: Vec<(String, Vec<u8>)>,
    failing: Vec<u32>,
    made: u64,
    failed: Vec<String>,
    alloc: Global,
}

impl Model for MemFiles {
    ghost use Rattle.std.specs.Prelude.{map, string_bytes};
    ghost use Rattle.tm_outside.specs.Memory.{MemFilesData, named_bytes};

    ghost Value = { MemFilesData };

    ghost view = { λ a. record { files = map named_bytes a.files.items; failing = a.failing.items; made = a.made; failed = map string_bytes a.failed.items } };
}

/// Whether the call of this number is one of those that fail.
fn fails_at(failing: &[u32], call: u64) -> bool
    ensures { result ≡ fails failing.now call }
{
    failing.iter().any(|number| u64::from(*number) == call)
}

/// The bytes of the first file of this name.
fn bytes_in<'f>(files: &'f [(String, Vec<u8>)], name: &str) -> Option<&'f [u8]>
    ensures { option_map (λ b. b.now) result ≡ held_in name.now (map named_bytes files.now) }
{
    for (other, bytes) in files {
        if other.as_str() == name {
            return Some(bytes.as_slice());
        }
    }
    None
}

/// A file that is not too long.
fn within(bytes: &[u8]) -> Option<&[u8]>
    ensures { option_map (λ b. b.now) result ≡ within_greatest bytes.now }
{
    if bytes.len() <= 1_073_741_824 {
        Some(bytes)
    } else {
        None
    }
}

/// What the read of this number gives.
fn given<'f>(
    failing: &[u32],
    call: u64,
    files: &'f [(String, Vec<u8>)],
    name: &str,
) -> Option<&'f [u8]>
    ensures { option_map (λ b. b.now) result ≡ given_by failing.now call (map named_bytes files.now) name.now }
{
    if fails_at(failing, call) {
        None
    } else {
        bytes_in(files, name).and_then(within)
    }
}

impl MemFiles {
    /// Files of which no read was made. It takes no memory, and grows by the allocator of `files`.
    pub fn new(files: Vec<(String, Vec<u8>)>, failing: Vec<u32>) -> Self
        ensures { result ≡ record { files = map named_bytes files.items; failing = failing.items; made = 0; failed = [] } }
    {
        let alloc = *files.allocator();
        MemFiles {
            files,
            failing,
            made: 0,
            failed: Vec::new(alloc),
            alloc,
        }
    }
}

impl Files for MemFiles {
    ghost bytes = { λ s name. held_in name s.files };

    ghost failed = { λ s. s.failed };

    fn read(&mut self, name: &str, into: &mut Vec<u8>) -> Result<(), ReadFault>
        ensures read { Reads (held_in name.now self.old.files) self.old.failed self.new.failed name.now into.old.items into.new.items result }
        ensures failed { MayFail self.old.failed self.new.failed name.now }
        ensures bytes { (name : List ℕ) → held_in name self.new.files ≡ held_in name self.old.files }
        ensures by_number { ReadsByNumber (given_by self.old.failing self.old.made self.old.files name.now) result }
        ensures counts { self.new ≡ after_read self.old name.now result }
    {
        let call = self.made;
        self.made = call.saturating_add(1);
        let copy = match String::from_str(self.alloc, name) {
            Ok(copy) => copy,
            Err(_) => return Err(ReadFault::OutOfMemory),
        };
        match given(self.failing.as_slice(), call, self.files.as_slice(), name) {
            Some(bytes) => match into.extend_from_slice(bytes) {
                Ok(()) => Ok(()),
                Err(_) => Err(ReadFault::OutOfMemory),
            },
            None => match self.failed.push(copy) {
                Ok(()) => Err(ReadFault::Failed),
                Err(_) => Err(ReadFault::OutOfMemory),
            },
        }
    }
}

/// Bytes, and the numbers of the writes that fail, the first write being 0.
#[derive(Drop)]
pub struct MemSink {
    taken: Vec<u8>,
    failing: Vec<u32>,
    made: u64,
    faults: u64,
}

impl Model for MemSink {
    ghost use Rattle.tm_outside.specs.Memory.{MemSinkData};

    ghost Value = { MemSinkData };

    ghost view = { λ a. record { taken = a.taken.items; failing = a.failing.items; made = a.made; faults = a.faults } };
}

impl MemSink {
    /// A sink that has taken these bytes, in no write. It takes no memory, and grows by the allocator
    /// of `taken`.
    pub fn new(taken: Vec<u8>, failing: Vec<u32>) -> Self
        ensures { result ≡ record { taken = taken.items; failing = failing.items; made = 0; faults = 0 } }
    {
        MemSink {
            taken,
            failing,
            made: 0,
            faults: 0,
        }
    }

    /// The bytes taken.
    pub fn bytes(&self) -> &[u8]
        ensures { result.now ≡ self.now.taken }
    {
        self.taken.as_slice()
    }
}

impl Sink for MemSink {
    ghost taken = { λ s. Some s.taken };

    ghost faults = { λ s. s.faults };

    fn write(&mut self, piece: &[u8]) -> Result<usize, WriteFault>
        ensures takes { TakesPiece (Some self.old.taken) (Some self.new.taken) piece.now result }
        ensures never_falls { self.old.faults ≤ self.new.faults }
        ensures cause { IfErr result (IsWriteCause self.old.faults self.new.faults) }
        ensures by_number { WritesByNumber (fails self.old.failing self.old.made) piece.now result }
        ensures counts { self.new ≡ after_write self.old piece.now result }
    {
        let call = self.made;
        self.made = call.saturating_add(1);
        if fails_at(self.failing.as_slice(), call) {
            self.faults = self.faults.saturating_add(1);
            return Err(WriteFault::Failed);
        }
        match self.taken.extend_from_slice(piece) {
            Ok(()) => Ok(piece.len()),
            Err(_) => Err(WriteFault::OutOfMemory),
        }
    }
}
