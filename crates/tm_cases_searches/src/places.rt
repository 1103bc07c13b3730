//! Searches with another pattern in place of one of a list, in a room that is lent.
ghost use Rattle.std.specs.Prelude.{◌<◌, ◌^◌, length};

use crate::lines::{line, name, small};
use crate::scans::{list, numbers_of, scanner_of, told};
use serde_json::Value;
use std::alloc::Global;
use tm_cases::{Case, CaseFault};
use tm_onig_parse::parse;
use tm_onig_scan::asked::{Asked, Instead};
use tm_onig_vm::program::{Prog, Room, compile};
use tm_onig_vm::starts::Anchors;

/// The program of a text, or none where it is unreadable; none for `null`.
pub fn program_of(alloc: Global, text: &Value) -> Result<Option<Prog>, CaseFault> {
    let Some(text) = text.as_str() else {
        return Ok(None);
    };
    let text = name(alloc, text)?;
    match parse(alloc, &text) {
        Ok(pattern) => {
            let program = compile(alloc, &pattern).or(Err(CaseFault::OutOfMemory))?;
            Ok(Some(program))
        }
        Err(_) => Ok(None),
    }
}

/// `instead PATTERNS, NUMBERS, PLACE, TEXT, LINE, FROM, BUDGET`: what is found of a list, with the pattern of a text at one
/// of its places, or with none there for `null`.
pub fn instead(alloc: Global, case: &Case) -> Result<String, CaseFault> {
    let scanner = scanner_of(alloc, list(case, 0)?)?;
    let numbers = numbers_of(alloc, case.value(1)?)?;
    let program = program_of(alloc, case.value(3)?)?;
    let instead = Instead {
        place: small(case.number(2)?)?,
        program: program.as_ref(),
    };
    let line = line(alloc, case.text(4)?)?;
    let asked = Asked {
        text: line.as_slice(),
        anchors: Anchors {
            first: small(case.number(5)?)? as usize,
            allow_a: true,
            allow_g: true,
        },
    };
    let mut budget = case.number(6)?;
    let candidates = scanner
        .candidates(alloc, numbers)
        .or(Err(CaseFault::OutOfMemory))?;
    let mut room = Room::new(alloc);
    let found = scanner.first_among(
        alloc,
        &candidates,
        Some(instead),
        asked,
        &mut room,
        &mut budget,
    );
    told(alloc, found)
}
