//! Whole patterns.
ghost use Rattle.std.specs.Prelude.{IfOk, IsTrue, ◌↔◌};
ghost use Rattle.tm_onig_parse.specs.Grammar.{Body};
ghost use Rattle.tm_onig_parse.specs.Meaning.{Spells};

use crate::texts::{chars, made, repeated, unreadable};
use crate::trees::{PROBES, shown};
use std::alloc::Global;
use tm_cases::{Case, CaseFault};
use tm_defs::memory::OutOfMemory;
use tm_defs::texts::Name;
use tm_onig_class::patterns::Pattern;
use tm_onig_parse::{ParseFault, parse};

/// The pattern of a text, or none where it is unreadable.
pub(crate) fn read(alloc: Global, text: Vec<char>) -> Result<Option<Pattern>, CaseFault> {
    match parse(alloc, &Name::new(text)) {
        Ok(pattern) => Ok(Some(pattern)),
        Err(ParseFault::Unreadable) => Ok(None),
        Err(ParseFault::OutOfMemory) => Err(CaseFault::OutOfMemory),
    }
}

/// `pattern TEXT`: its tree.
pub(crate) fn pattern(alloc: Global, case: &Case) -> Result<String, CaseFault> {
    match read(alloc, chars(alloc, case.text(0)?)?)? {
        Some(pattern) => Ok(shown(alloc, &pattern, PROBES)?),
        None => unreadable(alloc),
    }
}

/// Whether the text is a pattern.
fn is_pattern(alloc: Global, text: &Name) -> Result<bool, OutOfMemory>
    ensures { IfOk result (λ is. IsTrue is ↔ ((body : Body) × Spells text.now body)) }
{
    match parse(alloc, text) {
        Ok(_) => Ok(true),
        Err(ParseFault::Unreadable) => Ok(false),
        Err(ParseFault::OutOfMemory) => Err(OutOfMemory),
    }
}

/// `pattern_repeated TIMES, OPEN, INNER, CLOSE`: whether a long text is a pattern.
pub(crate) fn pattern_repeated(alloc: Global, case: &Case) -> Result<String, CaseFault> {
    if made(is_pattern(alloc, &Name::new(repeated(alloc, case)?)))? {
        return Ok(String::from_str(alloc, "readable")?);
    }
    unreadable(alloc)
}
