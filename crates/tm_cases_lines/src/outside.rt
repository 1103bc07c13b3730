//! Files and sinks, in memory and over the system.

use crate::callers::copy;
use crate::files::{add, reader};
use crate::values::{bytes, list, numbers, shown, text};
use serde_json::Value;
use std::alloc::Global;
use std::fs;
use tm_cases::{Case, CaseFault};
use tm_outside::files::{Files, ReadFault};
use tm_outside::honest::HonestSink;
use tm_outside::memory::{MemFiles, MemSink};
use tm_outside::real::{RealFiles, StdSink};
use tm_outside::sink;
use tm_outside::sink::{Sink, WriteFault};

/// The files of a list of `[NAME, TEXT]`.
fn files_in(alloc: Global, value: &Value, failing: Vec<u32>) -> Result<MemFiles, CaseFault> {
    let mut files = Vec::new(alloc);
    for file in list(value)? {
        let file = list(file)?;
        let name = text(file.get(0).ok_or(CaseFault::NoField)?)?;
        let content = text(file.get(1).ok_or(CaseFault::NoField)?)?;
        add(alloc, &mut files, name, content)?;
    }
    Ok(reader(files, failing))
}

/// The answer of a read, and what it was appended to.
fn read_text<F: Files>(
    alloc: Global,
    files: &mut F,
    name: &str,
    front: &str,
) -> Result<String, CaseFault> {
    let mut into = bytes(alloc, front)?;
    let answer = files.read(name, &mut into);
    let kept = shown(into.as_slice());
    match answer {
        Ok(()) => Ok(format!(in alloc; "ok {kept}")?),
        Err(ReadFault::Failed) => Ok(format!(in alloc; "failed {kept}")?),
        Err(ReadFault::OutOfMemory) => Err(CaseFault::OutOfMemory),
    }
}

/// `reads FILES, FAILING, NAMES`: what each read answers, with the bytes behind a `-` that stood there before. The
/// files are a list of `[NAME, TEXT]`; the reads of the numbers `FAILING` fail, the first being 0.
pub fn reads(alloc: Global, case: &Case) -> Result<String, CaseFault> {
    let mut files = files_in(alloc, case.value(0)?, numbers(alloc, case.value(1)?)?)?;
    let mut told = String::new(alloc);
    for (i, name) in list(case.value(2)?)?.iter().enumerate() {
        if i != 0 {
            told.push_str("; ")?;
        }
        let answer = read_text(alloc, &mut files, text(name)?, "-")?;
        told.push_str(answer.as_str())?;
    }
    Ok(told)
}

/// `writes FRONT, FAILING, PIECES`: what each write answers, with all bytes taken; the sink has taken `FRONT` before.
pub fn writes(alloc: Global, case: &Case) -> Result<String, CaseFault> {
    let mut sink = MemSink::new(
        bytes(alloc, case.text(0)?)?,
        numbers(alloc, case.value(1)?)?,
    );
    let mut told = String::new(alloc);
    for (i, piece) in list(case.value(2)?)?.iter().enumerate() {
        if i != 0 {
            told.push_str("; ")?;
        }
        let answer = match sink.write(text(piece)?.as_bytes()) {
            Ok(count) => count.to_string(alloc)?,
            Err(WriteFault::Failed) => String::from_str(alloc, "failed")?,
            Err(WriteFault::OutOfMemory) => return Err(CaseFault::OutOfMemory),
        };
        let taken = shown(sink.bytes());
        told.push_str(format!(in alloc; "{answer} {taken}")?.as_str())?;
    }
    Ok(told)
}

/// `copy FILES, NAME, FRONT`: the bytes of a sink that had taken `FRONT`, behind a copy of a file to it.
pub fn copies(alloc: Global, case: &Case) -> Result<String, CaseFault> {
    let mut files = files_in(alloc, case.value(0)?, Vec::new(alloc))?;
    let mut sink = HonestSink::new(bytes(alloc, case.text(2)?)?);
    if copy(alloc, &mut files, case.text(1)?, &mut sink) {
        Ok(String::from_str(alloc, shown(sink.bytes()))?)
    } else {
        Ok(String::from_str(alloc, "not copied")?)
    }
}

/// `real COUNT`: how many bytes of a real file of so many are read, all of them right; then what a read of the
/// removed file and one of a folder answer.
pub fn real(rt: HostRuntime, alloc: Global, case: &Case) -> Result<String, CaseFault> {
    let mut long = Vec::new(alloc);
    for _ in 0..case.number(0)? {
        long.push(7u8)?;
    }
    let name = "tm_cases_lines_file";
    fs::write(&rt, name, long.as_slice()).map_err(|_| CaseFault::NoField)?;
    let mut files = RealFiles::new(rt, alloc);
    let mut into = Vec::new(alloc);
    let read = files.read(name, &mut into).is_ok() && into.as_slice() == long.as_slice();
    fs::remove_file(&rt, name).map_err(|_| CaseFault::NoField)?;
    let first = if read { "all" } else { "not all" };
    let removed = read_text(alloc, &mut files, name, "-")?;
    let folder = read_text(alloc, &mut files, ".", "-")?;
    let count = into.len();
    Ok(format!(in alloc; "{first} of {count}; {removed}; {folder}")?)
}

/// `streams`: writes to each stream, and a write of nothing. What is written to the first stream stands before the
/// answer in its line.
pub fn streams(rt: HostRuntime, alloc: Global) -> Result<String, CaseFault> {
    let mut out = StdSink::out(rt);
    let mut err = StdSink::err(rt);
    let first = sink::write_all(&mut out, b"out: ").is_ok();
    let second = sink::write_all(&mut err, b"err\n").is_ok();
    let nothing = out.write(b"");
    Ok(String::from_str(
        alloc,
        if first && second && nothing == Ok(0) {
            "written"
        } else {
            "not written"
        },
    )?)
}

/// `fault WORD`: the text of a fault.
pub fn fault(alloc: Global, case: &Case) -> Result<String, CaseFault> {
    match case.text(0)? {
        "read" => Ok(format!(in alloc; "{}", ReadFault::Failed)?),
        "write" => Ok(format!(in alloc; "{}", WriteFault::Failed)?),
        "memory" => Ok(format!(in alloc; "{}", WriteFault::OutOfMemory)?),
        _ => Err(CaseFault::NoField),
    }
}
