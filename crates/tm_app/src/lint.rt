//! Writes the unreadable patterns of settings, one in a line.
ghost use Rattle.std.specs.Prelude.{◌≡◌, ◌≤◌, ◌++◌, IfOk, IfErr, OnOk, string_bytes, codes, decimal, encode_utf8_all};
ghost use Rattle.tm_app.specs.Lint.{unread_text, unread_texts, lint_text};
ghost use Rattle.tm_app.specs.Stops.{IsWriteStop};
ghost use Rattle.tm_outside.specs.Causes.{Takes, TakesFront};

use crate::play::{Fault, write_line};
use crate::status;
use std::alloc::Global;
use tm_defs::memory::OutOfMemory;
use tm_line::tokenizer::Setting;
use tm_line_lint::Unread;
use tm_outside::sink::Sink;

/// The line of a pattern in the setting of this number, counted from 0.
fn unread_line(alloc: Global, number: usize, unread: &Unread) -> Result<String, OutOfMemory>
    ensures { IfOk result (λ text. string_bytes text ≡ unread_text number unread.now) }
{
    let mut text = format!(in alloc; "{number} ")?;
    let scope = status::text_of(alloc, &unread.grammar)?;
    text.push_str(scope.as_str())?;
    text.push_str(" ")?;
    let path = status::text_of(alloc, &unread.path)?;
    text.push_str(path.as_str())?;
    text.push_str("\n")?;
    Ok(text)
}

/// Writes the lines of the setting of this number, counted from 0, each in one piece.
fn write_unread<S: Sink>(
    alloc: Global,
    number: usize,
    all: &[Unread],
    out: &mut S,
) -> Result<(), Fault>
    ensures ok { OnOk result (Takes (S.taken out.old) (S.taken out.new) (unread_texts number all.now)) }
    ensures err { IfErr result (IsWriteStop (TakesFront (S.taken out.old) (S.taken out.new) (unread_texts number all.now)) (S.faults out.old) (S.faults out.new)) }
    ensures never_falls { S.faults out.old ≤ S.faults out.new }
{
    for unread in all {
        match unread_line(alloc, number, unread) {
            Ok(text) => match write_line(text.as_str(), out) {
                Ok(()) => continue,
                Err(fault) => return Err(fault),
            },
            Err(_) => return Err(Fault::OutOfMemory),
        }
    }
    Ok(())
}

/// Writes a line for each unreadable pattern of each setting, in order: the number of the setting from 0, the
/// scope of the pattern's grammar and the path of its key in the file, in UTF-8.
pub fn lint<S: Sink>(alloc: Global, settings: &[Setting], out: &mut S) -> Result<(), Fault>
    ensures ok { OnOk result (Takes (S.taken out.old) (S.taken out.new) (lint_text settings.now)) }
    ensures err { IfErr result (IsWriteStop (TakesFront (S.taken out.old) (S.taken out.new) (lint_text settings.now)) (S.faults out.old) (S.faults out.new)) }
    ensures never_falls { S.faults out.old ≤ S.faults out.new }
{
    for number in 0..settings.len() {
        match write_unread(alloc, number, settings[number].unreadable(), out) {
            Ok(()) => {}
            Err(fault) => return Err(fault),
        }
    }
    Ok(())
}
