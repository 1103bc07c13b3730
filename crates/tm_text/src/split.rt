//! Splitting characters into lines.
//!
//! A text is taken by runs of characters without a line break, and the breaks between them. What is ended, the line that
//! is open and the flag for `\r\n` are kept such that any text that follows gives the lines of the whole, so a text in
//! three parts is split without being joined first.
ghost use Rattle.std.specs.Prelude.{◌≡◌, ◌<◌, ◌-◌, ◌^◌, ◌++◌, ◌∷◌, [], ◌==◌, ◌||◌, ◌≤◌, not, length, map, position, take, ◌+◌, IfOk, OnOk};
ghost use Rattle.std.specs.List.{prefix_len};
ghost use Rattle.std.specs.Arc.{arc_value};
ghost use Rattle.tm_machine.specs.Changes.{lines_of, new_lines};
ghost use Rattle.tm_machine.specs.Places.{IsIn};
ghost use Rattle.tm_text.specs.Split.{Split, Takes};
ghost use Rattle.tm_text.specs.Texts.{size_of_lines};

use std::alloc::Global;
use std::sync::Arc;
use tm_defs::changes::Change;
use tm_defs::memory::OutOfMemory;
use tm_defs::texts::Line;

/// Ends the line that is open. A line has no room for more, and the room for the open line stays for the next one.
fn end_line(
    alloc: Global,
    lines: &mut Vec<Arc<Line>>,
    current: &mut Vec<char>,
) -> Result<(), OutOfMemory>
    ensures lines { OnOk result (map arc_value lines.new.items ≡ map arc_value lines.old.items ++ current.old.items ∷ []) }
    ensures current { OnOk result (current.new.items ≡ []) }
{
    let line = Line::new(Vec::from_slice(alloc, current.as_slice())?);
    lines.push(Arc::new(alloc, line)?)?;
    current.clear();
    Ok(())
}

/// Takes a character, and answers whether it was `\r`.
fn take_character(
    alloc: Global,
    lines: &mut Vec<Arc<Line>>,
    current: &mut Vec<char>,
    returned: bool,
    c: char,
) -> Result<bool, OutOfMemory>
    ensures { IfOk result (λ now. Takes
        (record { lines = map arc_value lines.old.items; current = current.old.items; returned = returned })
        (c ∷ [])
        (record { lines = map arc_value lines.new.items; current = current.new.items; returned = now })) }
{
    if c == '\r' {
        end_line(alloc, lines, current)?;
        return Ok(true);
    }
    if c != '\n' {
        current.push(c)?;
        return Ok(false);
    }
    if returned {
        return Ok(false);
    }
    end_line(alloc, lines, current)?;
    Ok(false)
}

/// The first line break.
fn first_break(text: &[char]) -> Option<usize>
    ensures { result ≡ position (λ c. (c == 13) || (c == 10)) text.now }
{
    text.iter().position(|c| *c == '\r' || *c == '\n')
}

/// How many characters stand before the first line break.
fn run_length(text: &[char]) -> usize
    ensures run { result ≡ prefix_len (λ c. not ((c == 13) || (c == 10))) text.now }
    ensures within { result ≤ length text.now }
{
    match first_break(text) {
        Some(k) => k,
        None => text.len(),
    }
}

/// Takes the characters before the first line break, or the line break; answers whether the last one was `\r`, and
/// how many were taken.
fn take_some(
    alloc: Global,
    lines: &mut Vec<Arc<Line>>,
    current: &mut Vec<char>,
    returned: bool,
    text: &[char],
) -> Result<(bool, usize), OutOfMemory>
    requires { 0 < length text.now }
    ensures takes { IfOk result (λ r. Takes
        (record { lines = map arc_value lines.old.items; current = current.old.items; returned = returned })
        (take r.1 text.now)
        (record { lines = map arc_value lines.new.items; current = current.new.items; returned = r.0 })) }
    ensures some { IfOk result (λ r. (0 < r.1) × (r.1 ≤ length text.now)) }
{
    let run = run_length(text);
    if run == 0 {
        let now = take_character(alloc, lines, current, returned, text[0])?;
        return Ok((now, 1));
    }
    current.extend_from_slice(&text[..run])?;
    Ok((false, run))
}

/// Takes the characters of a text.
fn take_text(
    alloc: Global,
    lines: &mut Vec<Arc<Line>>,
    current: &mut Vec<char>,
    returned: bool,
    text: &[char],
) -> Result<bool, OutOfMemory>
    ensures { IfOk result (λ now. Takes
        (record { lines = map arc_value lines.old.items; current = current.old.items; returned = returned })
        text.now
        (record { lines = map arc_value lines.new.items; current = current.new.items; returned = now })) }
{
    let mut now = returned;
    let mut at = 0;
    'rest: while at < text.len() {
        let (next, count) = take_some(alloc, lines, current, now, &text[at..])?;
        now = next;
        at += count;
    }
    Ok(now)
}

/// Says that texts in memory are no longer than memory is: it does nothing.
fn are_short(front: &[char], text: &[char], rest: &[char])
    ensures { length front.now + (length text.now + length rest.now) + 1 < 2 ^ 64 - 2 ^ 32 }
{
    let _whole = front.len() + (text.len() + rest.len());
}

/// Splits three texts as one.
pub fn split_joined(
    alloc: Global,
    front: &[char],
    text: &[char],
    rest: &[char],
) -> Result<Vec<Arc<Line>>, OutOfMemory>
    ensures lines { IfOk result (λ lines. map arc_value lines.items ≡ lines_of (front.now ++ (text.now ++ rest.now))) }
    ensures size { IfOk result (λ lines. size_of_lines (map arc_value lines.items) < 2 ^ 64 - 2 ^ 32) }
{
    are_short(front, text, rest);
    let mut lines = Vec::new(alloc);
    let mut current = Vec::new(alloc);
    let behind_front = take_text(alloc, &mut lines, &mut current, false, front)?;
    let behind_text = take_text(alloc, &mut lines, &mut current, behind_front, text)?;
    take_text(alloc, &mut lines, &mut current, behind_text, rest)?;
    end_line(alloc, &mut lines, &mut current)?;
    Ok(lines)
}

/// Splits characters into lines: `\r\n`, `\n` and `\r` each end one.
pub fn split(alloc: Global, text: &[char]) -> Result<Vec<Arc<Line>>, OutOfMemory>
    ensures lines { IfOk result (λ lines. map arc_value lines.items ≡ lines_of text.now) }
    ensures size { IfOk result (λ lines. size_of_lines (map arc_value lines.items) < 2 ^ 64 - 2 ^ 32) }
{
    split_joined(alloc, text, &[], &[])
}

/// The new lines of a change: the front of its first line, its text and the rest of its last line.
pub fn lines_of_change(
    alloc: Global,
    lines: &[Arc<Line>],
    change: &Change,
) -> Result<Vec<Arc<Line>>, OutOfMemory>
    requires { IsIn (map arc_value lines.now) change.now }
    ensures lines { IfOk result (λ news. map arc_value news.items ≡ new_lines (map arc_value lines.now) change.now) }
    ensures size { IfOk result (λ news. size_of_lines (map arc_value news.items) < 2 ^ 64 - 2 ^ 32) }
{
    let first = lines[change.from_line as usize].as_slice();
    let last = lines[change.to_line as usize].as_slice();
    let front = &first[..change.from_col as usize];
    let rest = &last[change.to_col as usize..];
    split_joined(alloc, front, change.text.as_slice(), rest)
}
