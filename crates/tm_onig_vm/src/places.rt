//! Tests on the characters round a position.
ghost use Rattle.std.specs.Prelude.{◌≡◌, ℕ, ◌≤◌, ◌<◌, ◌^◌, ◌==◌, List, length, slice_get, slice_range, drop};
ghost use Rattle.tm_onig_class.specs.Members.{has_char};
ghost use Rattle.tm_onig_class.specs.Folding.{has_alike};
ghost use Rattle.tm_onig_search.specs.Places.{passes, matches, in_set, is_any, begins, before, after, is_break, is_word, at_word, holds};
ghost use Rattle.tm_onig_vm.specs.inner.Anchors.{subject_of};

use crate::starts::Anchors;
use crate::words;
use tm_onig_class::patterns::Position;
use tm_onig_class::sets::Set;
use ucd_case::simple_fold;

/// Whether the character `c` stands at the position.
pub(crate) fn has_char(line: &[char], pos: usize, c: char, fold: bool) -> bool
    ensures { result ≡ passes (matches fold c) (slice_get line.now pos) }
{
    match line.get(pos) {
        Some(d) => {
            if fold {
                simple_fold(*d) == simple_fold(c)
            } else {
                *d == c
            }
        }
        None => false,
    }
}

/// Whether a character stands at the position, a line break only if `newline`.
pub(crate) fn has_any(line: &[char], pos: usize, newline: bool) -> bool
    ensures { result ≡ passes (is_any newline) (slice_get line.now pos) }
{
    match line.get(pos) {
        Some(d) => newline || !(*d == '\n'),
        None => false,
    }
}

/// Whether a member of the set stands at the position.
pub(crate) fn has_member(line: &[char], pos: usize, set: &Set, fold: bool) -> bool
    ensures { result ≡ passes (in_set set.now fold) (slice_get line.now pos) }
{
    match line.get(pos) {
        Some(d) => { if fold { set.fold_has(*d) } else { set.has(*d) } }
        None => false,
    }
}

fn char_before(line: &[char], pos: usize) -> Option<char>
    ensures { result ≡ before line.now pos }
{
    if pos == 0 {
        return None;
    }
    line.get(pos - 1).copied()
}

fn is_line_break(o: Option<char>) -> bool
    ensures { result ≡ is_break o }
{
    match o {
        Some(c) => c == '\n',
        None => false,
    }
}

fn is_word_char(o: Option<char>) -> bool
    ensures { result ≡ is_word o }
{
    match o {
        Some(c) => words::is_word(c),
        None => false,
    }
}

fn is_word_edge(line: &[char], pos: usize) -> bool
    ensures { result ≡ at_word line.now pos }
{
    let left = is_word_char(char_before(line, pos));
    let right = is_word_char(line.get(pos).copied());
    if left { !right } else { right }
}

/// Whether the place is at the position.
pub(crate) fn is_at_place(line: &[char], anchors: Anchors, place: Position, pos: usize) -> bool
    requires small { length line.now < 2 ^ 31 }
    requires within { pos ≤ length line.now }
    ensures { result ≡ holds (subject_of line.now anchors) place pos }
{
    match place {
        Position::LineStart => {
            (pos == 0) | (is_line_break(char_before(line, pos)) & (pos < line.len()))
        }
        Position::LineEnd => (pos == line.len()) | is_line_break(line.get(pos).copied()),
        Position::TextStart => anchors.allow_a & (pos == 0),
        Position::SearchStart => anchors.allow_g & (pos == anchors.first),
        Position::BeforeFinal => {
            (pos == line.len()) | ((pos + 1 == line.len()) & is_line_break(line.get(pos).copied()))
        }
        Position::TextEnd => (pos == line.len()) & !is_line_break(char_before(line, pos)),
        Position::Word => is_word_edge(line, pos),
        Position::NotWord => !is_word_edge(line, pos),
    }
}

/// Whether the text from the position on begins with the other text.
pub(crate) fn stands_at(line: &[char], pos: usize, text: &[char], fold: bool) -> bool
    requires small { length line.now < 2 ^ 31 }
    requires within { pos ≤ length line.now }
    ensures { result ≡ begins fold text.now (drop pos line.now) }
{
    for i in 0..text.len() {
        if !has_char(line, pos + i, text[i], fold) {
            return false;
        }
    }
    true
}

/// The text of a group, as far as it lies within the line.
pub(crate) fn text_of(line: &[char], start: u32, end: u32) -> &[char]
    ensures { result.now ≡ slice_range line.now start end }
{
    let start = (start as usize).min(line.len());
    let end = (end as usize).min(line.len()).max(start);
    &line[start..end]
}
