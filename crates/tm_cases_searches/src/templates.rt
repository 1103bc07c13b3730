//! Templates of names and texts of ends.
ghost use Rattle.std.specs.Prelude.{◌≡◌, Some, IfOk, IfSome, IsTrue};
ghost use Rattle.tm_onig_search.specs.Find.{AreWithin};
ghost use Rattle.tm_template.specs.Captured.{IsSpanWithin};
ghost use Rattle.tm_template.specs.Ends.{resolved};
ghost use Rattle.tm_template.specs.Names.{names_of};

use crate::lines::{chars, name};
use smallvec::SmallVec;
use std::alloc::Global;
use tm_cases::{Case, CaseFault};
use tm_defs::caps::Caps;
use tm_defs::memory::OutOfMemory;
use tm_defs::texts::{Name, ScopePath};
use tm_template::ends::{has_references, resolve};
use tm_template::names::{fixed_names, name_of};

/// Whether a group that is set lies within so many characters.
fn is_within(count: usize, group: Option<(u32, u32)>) -> bool
    ensures { IsTrue result → IsSpanWithin count (Some group) }
{
    match group {
        Some((start, end)) => start <= end && end as usize <= count,
        None => true,
    }
}

/// Whether each group that is set does.
fn are_within(count: usize, groups: &[Option<(u32, u32)>]) -> bool
    ensures { IsTrue result → AreWithin count groups.now }
{
    'groups: for i in 0..groups.len() {
        if !is_within(count, groups[i]) {
            return false;
        }
    }
    true
}

/// The groups of a case: two digits each, or `--`.
fn groups(alloc: Global, text: &str) -> Result<Caps, CaseFault> {
    let mut groups = SmallVec::new(alloc);
    for word in text.split(' ') {
        let mut digits = word.chars();
        let start = digits.next().ok_or(CaseFault::NoField)?;
        let end = digits.next().ok_or(CaseFault::NoField)?;
        groups.push(match (start.to_digit(10), end.to_digit(10)) {
            (Some(start), Some(end)) => Some((start, end)),
            _ => None,
        })?;
    }
    Ok(Caps::new(groups))
}

/// A template's names, or none where a group of the case lies outside its line.
fn names_given(
    alloc: Global,
    template: &Name,
    line: &[char],
    caps: &Caps,
) -> Result<Option<ScopePath>, OutOfMemory>
    ensures { IfOk result (λ given. IfSome given (λ path. path ≡ names_of template.now line.now caps.now)) }
{
    if are_within(line.len(), caps.as_slice()) {
        Ok(Some(name_of(alloc, template, line, caps)?))
    } else {
        Ok(None)
    }
}

/// The text of an end with what was captured, or none where a group lies outside the line.
fn end_given(
    alloc: Global,
    text: &Name,
    line: &[char],
    caps: &Caps,
) -> Result<Option<Name>, OutOfMemory>
    ensures { IfOk result (λ given. IfSome given (λ end. end ≡ resolved text.now line.now caps.now)) }
{
    if are_within(line.len(), caps.as_slice()) {
        Ok(Some(resolve(alloc, text, line, caps)?))
    } else {
        Ok(None)
    }
}

/// Whether a character is not seen, or not told from a space.
fn is_hidden(c: char) -> bool {
    let code = c as u32;
    c != '\n'
        && (code < 0x20
            || (0x7F..=0xA0).contains(&code)
            || [0x3000, 0x2028, 0x2029, 0x200B, 0xFEFF].contains(&code))
}

/// Adds a name, with `<9>` for a character that is not seen.
fn push_name(alloc: Global, text: &mut String, name: &Name) -> Result<(), CaseFault> {
    for c in name.as_slice() {
        if is_hidden(*c) {
            let code = *c as u32;
            text.push_str(&format!(in alloc; "<{code:x}>")?)?;
        } else {
            text.push(*c)?;
        }
    }
    Ok(())
}

/// The names of a path, with `|` between them.
fn text_of_path(alloc: Global, path: &ScopePath) -> Result<String, CaseFault> {
    let mut text = String::new(alloc);
    let mut first = true;
    for name in path.as_slice() {
        if !first {
            text.push('|')?;
        }
        first = false;
        push_name(alloc, &mut text, name)?;
    }
    Ok(text)
}

/// `template TEMPLATE, LINE, GROUPS`: the names, with `|` between them.
pub fn template(alloc: Global, case: &Case) -> Result<String, CaseFault> {
    let template = name(alloc, case.text(0)?)?;
    let line = chars(alloc, case.text(1)?)?;
    let caps = groups(alloc, case.text(2)?)?;
    let path = names_given(alloc, &template, line.as_slice(), &caps)
        .or(Err(CaseFault::OutOfMemory))?
        .ok_or(CaseFault::NoField)?;
    text_of_path(alloc, &path)
}

/// `fixed TEMPLATE`: the names that it gives for every match, or `refers` where it refers to a group.
pub fn fixed(alloc: Global, case: &Case) -> Result<String, CaseFault> {
    let template = name(alloc, case.text(0)?)?;
    match fixed_names(alloc, &template).or(Err(CaseFault::OutOfMemory))? {
        Some(path) => text_of_path(alloc, &path),
        None => Ok(format!(in alloc; "refers")?),
    }
}

/// `end TEXT, LINE, GROUPS`: the text with what was captured.
pub fn end(alloc: Global, case: &Case) -> Result<String, CaseFault> {
    let text = name(alloc, case.text(0)?)?;
    let line = chars(alloc, case.text(1)?)?;
    let caps = groups(alloc, case.text(2)?)?;
    let end = end_given(alloc, &text, line.as_slice(), &caps)
        .or(Err(CaseFault::OutOfMemory))?
        .ok_or(CaseFault::NoField)?;
    let mut given = String::new(alloc);
    push_name(alloc, &mut given, &end)?;
    Ok(given)
}

/// `refers TEXT`: whether an end refers to a group.
pub fn refers(alloc: Global, case: &Case) -> Result<String, CaseFault> {
    let text = name(alloc, case.text(0)?)?;
    let word = if has_references(&text) { "yes" } else { "no" };
    Ok(format!(in alloc; "{word}")?)
}
