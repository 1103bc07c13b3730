//! The program: real files and streams around the top call. It chooses the call and ends with its
//! status.
#![tactic(auto)]

use std::env;
use std::io::ErrorKind;
use std::process::ExitCode;
use tm_app::status::Status;
use tm_app::{outcome, report};
use tm_defs::memory::OutOfMemory;
use tm_outside::real::{RealFiles, StdSink};

/// The words behind the program's own name. Where one of them is not UTF-8 there are none, which is no
/// command.
fn words_of(rt: HostRuntime) -> Result<Vec<String>, OutOfMemory> {
    let mut words = Vec::new(rt.alloc());
    match env::args(&rt) {
        Ok(args) => {
            for word in args.skip(1) {
                words.push(word)?;
            }
            Ok(words)
        }
        Err(fault) => match fault.kind() {
            ErrorKind::InvalidData => Ok(words),
            _ => Err(OutOfMemory),
        },
    }
}

fn main(rt: HostRuntime) -> ExitCode {
    let alloc = rt.alloc();
    let mut files = RealFiles::new(rt, alloc);
    let mut out = StdSink::out(rt);
    let mut err = StdSink::err(rt);
    let status = match words_of(rt) {
        Ok(words) => outcome::run(alloc, &words, &mut files, &mut out, &mut err),
        Err(OutOfMemory) => report::report(alloc, Status::OutOfMemory, &mut err),
    };
    ExitCode::from(status.code())
}
