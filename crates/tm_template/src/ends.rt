//! The texts of ends with what the begin captured in them.
ghost use Rattle.std.specs.Prelude.{◌≡◌, ◌++◌, ◌∷◌, [], length, flat_map, false, IfOk, OnOk};
ghost use Rattle.tm_onig_search.specs.Find.{AreWithin};
ghost use Rattle.tm_template.specs.Captured.{IsSpanWithin};
ghost use Rattle.tm_template.specs.Ends.{is_sign, escaped, reference_end, piece_end, resolved, begins_digit, has_reference};
ghost use Rattle.tm_template.specs.References.{end_form, end_reference, piece_or, piece_text};

use crate::captures::{captured, group_of};
use crate::references::end_reference;
use std::alloc::Global;
use tm_defs::caps::Caps;
use tm_defs::memory::OutOfMemory;
use tm_defs::texts::Name;
use tm_onig_class::listed::is_space;

const SIGNS: [char; 17] = [
    '-', '\\', '{', '}', '*', '+', '?', '|', '^', '$', '.', ',', '[', ']', '(', ')', '#',
];

/// Whether the character means something in a pattern.
#[tactic(auto, unfolding(crate::specs::Ends::is_sign))]
fn is_sign(c: char) -> bool
    ensures { result ≡ is_sign c }
{
    SIGNS.contains(&c)
}

/// Adds a character as a pattern that matches it alone.
fn put_escaped(out: &mut Vec<char>, c: char) -> Result<(), OutOfMemory>
    ensures { OnOk result (out.new.items ≡ out.old.items ++ escaped c) }
{
    if is_sign(c) || is_space(c) {
        out.push('\\')?;
    }
    out.push(c)?;
    Ok(())
}

/// Adds a text as a pattern that matches it alone.
fn put_all_escaped(out: &mut Vec<char>, text: &[char]) -> Result<(), OutOfMemory>
    ensures { OnOk result (out.new.items ≡ out.old.items ++ flat_map escaped text.now) }
{
    for c in text {
        put_escaped(out, *c)?;
    }
    Ok(())
}

/// Adds what a reference to a group gives.
fn put_reference(
    out: &mut Vec<char>,
    line: &[char],
    group: Option<Option<(u32, u32)>>,
) -> Result<(), OutOfMemory>
    requires { IsSpanWithin (length line.now) group }
    ensures { OnOk result (out.new.items ≡ out.old.items ++ reference_end line.now group) }
{
    match group {
        Some(Some(span)) => put_all_escaped(out, captured(line, span)),
        Some(None) => Ok(()),
        None => Ok(()),
    }
}

/// Adds what the piece at the front of a text gives, and answers how many characters it takes.
fn put_piece(
    out: &mut Vec<char>,
    first: char,
    text: &[char],
    line: &[char],
    groups: &[Option<(u32, u32)>],
) -> Result<usize, OutOfMemory>
    requires { AreWithin (length line.now) groups.now }
    ensures given { OnOk result (out.new.items ≡ out.old.items ++ piece_end line.now groups.now (piece_or first (end_reference text.now))) }
    ensures width { IfOk result (λ width. width ≡ length (piece_text end_form (piece_or first (end_reference text.now)))) }
{
    match end_reference(text) {
        Some((digits, _)) => {
            put_reference(out, line, group_of(groups, digits))?;
            Ok(digits.len() + 1)
        }
        None => {
            out.push(first)?;
            Ok(1)
        }
    }
}

/// The text with the captured texts in it.
fn filled(
    alloc: Global,
    text: &[char],
    line: &[char],
    groups: &[Option<(u32, u32)>],
) -> Result<Vec<char>, OutOfMemory>
    requires { AreWithin (length line.now) groups.now }
    ensures { IfOk result (λ end. end.items ≡ resolved text.now line.now groups.now) }
{
    let mut out = Vec::new(alloc);
    let mut at = 0;
    'pieces: while at < text.len() {
        at += put_piece(&mut out, text[at], &text[at..], line, groups)?;
    }
    Ok(out)
}

/// Whether a text has a backslash directly before a digit. A text that has none stays as it is, and
/// needs no text of its own in a frame.
pub fn has_references(text: &Name) -> bool
    ensures { result ≡ has_reference text.now }
{
    let mut rest = text.as_slice();
    loop {
        match rest {
            ['\\', digit, ..] if digit.is_ascii_digit() => return true,
            [_, after @ ..] => rest = after,
            [] => return false,
        }
    }
}

/// The text of an `end` or `while` with what the begin captured on a line, after the rules of
/// vscode-textmate: each backslash with as many digits as follow is replaced by the captured text, in
/// which signs of patterns and white space get a backslash, so that it matches itself. An unset group
/// and a number beyond the groups give nothing. What stands before a backslash does not matter: of two
/// backslashes and a digit, the second is the reference's.
///
/// The groups are in characters of the line, as a search of it gives them.
pub fn resolve(alloc: Global, text: &Name, line: &[char], caps: &Caps) -> Result<Name, OutOfMemory>
    requires { AreWithin (length line.now) caps.now }
    ensures { IfOk result (λ end. end ≡ resolved text.now line.now caps.now) }
{
    let text = filled(alloc, text.as_slice(), line, caps.as_slice())?;
    Ok(Name::new(text))
}
