//! Tells how a run ended.
ghost use Rattle.std.specs.Prelude.{◌≡◌, ◌≢◌, ◌≤◌, ◌⊎◌};
ghost use Rattle.tm_app.specs.Report.{Keeps};
ghost use Rattle.tm_app.specs.Status.{status_text};
ghost use Rattle.tm_outside.specs.Causes.{Takes, Rose};

use crate::status;
use crate::status::Status;
use std::alloc::Global;
use tm_outside::sink;
use tm_outside::sink::{Sink, WriteFault};

/// Writes the text of a status. A failed write changes nothing; want of memory is the status then.
pub fn report<S: Sink>(alloc: Global, status: Status, err: &mut S) -> Status
    ensures kept { Keeps status result }
    ensures err { result ≢ Status.OutOfMemory → ¬ (Rose (S.faults err.old) (S.faults err.new)) → Takes (S.taken err.old) (S.taken err.new) (status_text result) }
{
    match status::status_line(alloc, &status) {
        Ok(text) => match sink::write_all(err, text.as_bytes()) {
            Ok(()) => status,
            Err(WriteFault::Failed) => status,
            Err(WriteFault::OutOfMemory) => Status::OutOfMemory,
        },
        Err(_) => Status::OutOfMemory,
    }
}
