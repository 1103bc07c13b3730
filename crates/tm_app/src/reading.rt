//! Reads one file of a run.
ghost use Rattle.std.specs.Prelude.{◌≡◌, ℕ, List, Option, IfOk, IfErr, Ok, Err};
ghost use Rattle.tm_app.specs.Told.{Told, HasGrown, IsFileStop, what_of};

use crate::status;
use crate::status::{Status, What};
use std::alloc::Global;
use tm_forms::form::{Form, Refusal};
use tm_outside::files::{Files, ReadFault};

/// What is told of a refusal.
fn what_of(refusal: Refusal) -> What
    ensures { result ≡ what_of refusal }
{
    match refusal {
        Refusal::NotJson => What::NotJson,
        Refusal::BadShape(path) => What::BadShape(path),
        Refusal::NotYet => What::NotYet,
    }
}

/// Reads a file whole, and parses it. A fault of reading comes only where this call added the file's
/// name to those that failed, and a refusal exactly where its bytes are refused, with its cause. Of a file
/// that tells no bytes, some bytes have the form or are refused so.
pub fn load<F: Files, X: Form + Drop>(alloc: Global, files: &mut F, name: &str) -> Result<X, Status>
    ensures ok { IfOk result (λ found. Told (F.bytes files.old name.now) (λ told. X.form told ≡ Ok (X.plain found))) }
    ensures err { IfErr result (IsFileStop (λ cause. Told (F.bytes files.old name.now) (λ told. X.form told ≡ Err cause)) (F.failed files.old) (F.failed files.new) name.now) }
    ensures grows { HasGrown (F.failed files.old) (F.failed files.new) }
    ensures kept { (other : List ℕ) → F.bytes files.new other ≡ F.bytes files.old other }
{
    let mut bytes = Vec::new(alloc);
    match files.read(name, &mut bytes) {
        Ok(()) => match X::read(alloc, bytes.as_slice()) {
            Ok(Ok(found)) => Ok(found),
            Ok(Err(refusal)) => match status::name_of(alloc, name) {
                Ok(name) => Err(Status::Refused(name, what_of(refusal))),
                Err(_) => Err(Status::OutOfMemory),
            },
            Err(_) => Err(Status::OutOfMemory),
        },
        Err(ReadFault::Failed) => match status::name_of(alloc, name) {
            Ok(name) => Err(Status::FileFault(name)),
            Err(_) => Err(Status::OutOfMemory),
        },
        Err(ReadFault::OutOfMemory) => Err(Status::OutOfMemory),
    }
}
