//! The real outside: the files of the system, and the two streams of the process.
//!
//! No contract can say what a file holds or a stream shows, so these tell no bytes. They loop over
//! std's calls, go on after an interrupted one, and count every failure.
ghost use Rattle.std.specs.Prelude.{◌≡◌, ◌≤◌, ◌<◌, ◌+◌, [], ◌++◌, ℕ, List, None, length, OnOk, IfSome};
ghost use Rattle.tm_outside.specs.Files.{Appends, greatest_file};

use crate::files::{Files, ReadFault};
use crate::sink::{Sink, WriteFault};
use std::alloc::{AllocError, Global};
use std::fs;
use std::fs::File;
use std::io::{ErrorKind, Read, Stderr, Stdout, Write};
use std::marker::Model;

/// The files of the system. Contracts see the names whose reads failed.
#[derive(Drop)]
pub struct RealFiles {
    rt: HostRuntime,
    alloc: Global,
    failed: Vec<String>,
}

impl Model for RealFiles {
    ghost use Rattle.std.specs.Prelude.{List, ℕ, map, string_bytes};

    ghost Value = { List (List ℕ) };

    ghost view = { λ a. map string_bytes a.failed.items };
}

impl RealFiles {
    /// Files of which no read failed. It takes no memory; `alloc` is for the names that fail later.
    pub fn new(rt: HostRuntime, alloc: Global) -> Self
        ensures { result ≡ [] }
    {
        RealFiles {
            rt,
            alloc,
            failed: Vec::new(alloc),
        }
    }
}

/// How many bytes of the file came into `room`, none of them at its end; nothing where it failed.
fn read_piece(file: &mut File, room: &mut [u8]) -> Option<usize> {
    for _ in 0..u64::MAX {
        match file.read(room) {
            Ok(count) => return Some(count),
            Err(error) => {
                if error.kind() != ErrorKind::Interrupted {
                    return None;
                }
            }
        }
    }
    None
}

/// The sum, where a file may have so many bytes.
fn within(count: usize, size: usize) -> Option<usize>
    ensures { IfSome result (λ after. (after ≡ count + size) × (after ≤ greatest_file)) }
{
    match count.checked_add(size) {
        Some(after) => {
            if after <= 1_073_741_824 {
                Some(after)
            } else {
                None
            }
        }
        None => None,
    }
}

/// Room for one piece. It has no clause, so that no proof counts its bytes.
fn make_room(alloc: Global) -> Result<Vec<u8>, AllocError> {
    vec![in alloc; 0u8; 65536]
}

/// Reads a file to its end, behind what is there. After a fault a part of it may stand there.
fn read_whole(alloc: Global, file: &mut File, into: &mut Vec<u8>) -> Result<(), ReadFault>
    ensures whole { OnOk result ((bytes : List ℕ) × Appends bytes into.old.items into.new.items) }
    ensures behind { (bytes : List ℕ) × (into.new.items ≡ into.old.items ++ bytes) }
{
    let Ok(mut room) = make_room(alloc) else {
        return Err(ReadFault::OutOfMemory);
    };
    let mut count = 0usize;
    for _ in 0..u64::MAX {
        let Some(size) = read_piece(file, room.as_mut_slice()) else {
            return Err(ReadFault::Failed);
        };
        if size == 0 {
            return Ok(());
        }
        let Some(after) = within(count, size) else {
            return Err(ReadFault::Failed);
        };
        if size > room.len() {
            return Err(ReadFault::Failed);
        }
        let Ok(()) = into.extend_from_slice(&room[..size]) else {
            return Err(ReadFault::OutOfMemory);
        };
        count = after;
    }
    Err(ReadFault::Failed)
}

impl Files for RealFiles {
    ghost bytes = { λ _ _. None };

    ghost failed = { λ s. s };

    fn read(&mut self, name: &str, into: &mut Vec<u8>) -> Result<(), ReadFault> {
        let start = into.len();
        let copy = match String::from_str(self.alloc, name) {
            Ok(copy) => copy,
            Err(_) => return Err(ReadFault::OutOfMemory),
        };
        // the room for the name is taken before the read, so that a failure finds it
        if self.failed.try_reserve(1).is_err() {
            return Err(ReadFault::OutOfMemory);
        }
        let read = match fs::open(&self.rt, name) {
            Ok(mut file) => read_whole(self.alloc, &mut file, into),
            Err(_) => Err(ReadFault::Failed),
        };
        match read {
            Ok(()) => Ok(()),
            Err(ReadFault::OutOfMemory) => {
                into.truncate(start);
                Err(ReadFault::OutOfMemory)
            }
            Err(ReadFault::Failed) => {
                into.truncate(start);
                match self.failed.push(copy) {
                    Ok(()) => Err(ReadFault::Failed),
                    Err(_) => Err(ReadFault::OutOfMemory),
                }
            }
        }
    }
}

#[derive(Drop)]
enum Stream {
    Out(Stdout),
    Err(Stderr),
}

/// Standard output or standard error. Contracts see the count of faults, which stays at 2^64 - 1
/// once it stands there.
#[derive(Drop)]
pub struct StdSink {
    stream: Stream,
    faults: u64,
}

impl Model for StdSink {
    ghost use Rattle.std.specs.Prelude.{ℕ};

    ghost Value = { ℕ };

    ghost view = { λ a. a.faults };
}

impl StdSink {
    /// Standard output. It takes no memory.
    pub fn out(rt: HostRuntime) -> Self
        ensures { result ≡ 0 }
    {
        StdSink {
            stream: Stream::Out(rt.stdout()),
            faults: 0,
        }
    }

    /// Standard error. It takes no memory.
    pub fn err(rt: HostRuntime) -> Self
        ensures { result ≡ 0 }
    {
        StdSink {
            stream: Stream::Err(rt.stderr()),
            faults: 0,
        }
    }
}

/// Writes a piece, or a front of it. Nothing is written where it fails; a stream that takes nothing
/// of a piece that is not empty fails.
fn write_some(stream: &mut Stream, piece: &[u8]) -> Option<usize>
    ensures { IfSome result (λ n. (n ≤ length piece.now) × (0 < length piece.now → 0 < n)) }
{
    for _ in 0..u64::MAX {
        let written = match stream {
            Stream::Out(out) => out.write(piece),
            Stream::Err(err) => err.write(piece),
        };
        match written {
            Ok(count) => {
                if count == 0 && piece.len() > 0 {
                    return None;
                }
                return Some(count);
            }
            Err(error) => {
                if error.kind() != ErrorKind::Interrupted {
                    return None;
                }
            }
        }
    }
    None
}

impl Sink for StdSink {
    ghost taken = { λ _. None };

    ghost faults = { λ s. s };

    fn write(&mut self, piece: &[u8]) -> Result<usize, WriteFault> {
        match write_some(&mut self.stream, piece) {
            Some(count) => Ok(count),
            None => {
                self.faults = self.faults.saturating_add(1);
                Err(WriteFault::Failed)
            }
        }
    }
}
