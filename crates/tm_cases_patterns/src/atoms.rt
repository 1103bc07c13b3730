//! Escapes and classes by themselves.
ghost use Rattle.std.specs.Prelude.{ℕ, ◌≤◌, List, IfOk, IsTrue, ◌↔◌};
ghost use Rattle.tm_onig_atom.specs.Classes.{Class, BeginsClass, class_height};

use crate::texts::{chars, repeated, unreadable};
use crate::trees::{PROBES, shown};
use std::alloc::Global;
use tm_cases::{Case, CaseFault};
use tm_onig_atom::AtomFault;
use tm_onig_atom::atoms::{class, escape};
use tm_onig_atom::options::{Options, none};
use tm_onig_atom::store::Sets;
use tm_onig_class::patterns::Pattern;

/// How deep classes may be nested in a pattern.
const DEEPEST: u32 = 200;

/// What stands at the front, an escape or a class, and how many characters follow it.
fn read(
    alloc: Global,
    sets: &mut Sets,
    options: Options,
    text: &[char],
) -> Result<(Pattern, usize), AtomFault> {
    match text {
        ['[', inside @ ..] => match class(alloc, sets, options, DEEPEST, inside) {
            Ok(((pattern, _), rest)) => Ok((pattern, rest.len())),
            Err(fault) => Err(fault),
        },
        ['\\', behind @ ..] => match escape(alloc, sets, options, behind) {
            Ok((pattern, rest)) => Ok((pattern, rest.len())),
            Err(fault) => Err(fault),
        },
        _ => Err(AtomFault::Unreadable),
    }
}

/// `atom TEXT` or `atom TEXT, PROBES`: what stands at the front, and how many characters are left behind it.
pub(crate) fn atom(alloc: Global, case: &Case, fold: bool) -> Result<String, CaseFault> {
    let probes = if case.len() > 1 {
        case.text(1)?
    } else {
        PROBES
    };
    let options = Options { fold, ..none() };
    let text = chars(alloc, case.text(0)?)?;
    match read(alloc, &mut Sets::new(alloc), options, &text) {
        Ok((pattern, left)) => {
            let tree = shown(alloc, &pattern, probes)?;
            Ok(format!(in alloc; "{tree}, {left} left")?)
        }
        Err(AtomFault::Unreadable) => unreadable(alloc),
        Err(AtomFault::OutOfMemory) => Err(CaseFault::OutOfMemory),
    }
}

/// How many classes are open at once in the text, where so many may be.
fn height(alloc: Global, depth: u32, text: &[char]) -> Result<String, CaseFault> {
    let ['[', inside @ ..] = text else {
        return unreadable(alloc);
    };
    match class(alloc, &mut Sets::new(alloc), none(), depth, inside) {
        Ok(((_, height), _)) => Ok(format!(in alloc; "height {height}")?),
        Err(AtomFault::Unreadable) => unreadable(alloc),
        Err(AtomFault::OutOfMemory) => Err(CaseFault::OutOfMemory),
    }
}

/// `class TEXT, DEPTH`: how many classes are open at once.
pub(crate) fn class_within(alloc: Global, case: &Case) -> Result<String, CaseFault> {
    let depth = u32::try_from(case.number(1)?).or(Err(CaseFault::NoField))?;
    height(alloc, depth, &chars(alloc, case.text(0)?)?)
}

/// Whether the text behind a `[` is a class, nested no deeper than in a pattern.
fn is_class(alloc: Global, text: &[char]) -> Result<bool, AtomFault>
    ensures { IfOk result (λ is. IsTrue is ↔ ((k : Class) × ((rest : List ℕ) × BeginsClass text.now k rest × (class_height k ≤ 200)))) }
{
    match class(alloc, &mut Sets::new(alloc), none(), DEEPEST, text) {
        Ok(_) => Ok(true),
        Err(AtomFault::Unreadable) => Ok(false),
        Err(fault) => Err(fault),
    }
}

/// `class_repeated TIMES, OPEN, INNER, CLOSE`: whether a long text begins with a class.
pub(crate) fn class_repeated(alloc: Global, case: &Case) -> Result<String, CaseFault> {
    let text = repeated(alloc, case)?;
    let ['[', inside @ ..] = text.as_slice() else {
        return unreadable(alloc);
    };
    match is_class(alloc, inside) {
        Ok(true) => Ok(String::from_str(alloc, "readable")?),
        Ok(false) => unreadable(alloc),
        Err(_) => Err(CaseFault::OutOfMemory),
    }
}
