//! The names that a template pushes.
ghost use Rattle.std.specs.Prelude.{◌≡◌, ◌++◌, ◌∷◌, [], ℕ, List, length, map, filter, IfOk, OnOk, MatchOption, ⊤};
ghost use Rattle.std.specs.Option.{is_none};
ghost use Rattle.tm_onig_search.specs.Find.{AreWithin};
ghost use Rattle.tm_onig_search.specs.Outcomes.{Caps};
ghost use Rattle.tm_template.specs.Captured.{IsSpanWithin};
ghost use Rattle.tm_template.specs.Names.{without_dots, in_case, reference_name, piece_name, filled, is_filled, words_of, names_of, has_name_reference};
ghost use Rattle.tm_template.specs.References.{name_form, name_reference, name_spelling, reference, piece_or, piece_text};

use crate::captures::{captured, group_of};
use crate::references::{Manner, name_reference, name_width};
use std::alloc::Global;
use tm_defs::caps::Caps;
use tm_defs::memory::OutOfMemory;
use tm_defs::texts::{Name, ScopePath};

/// The text from its first character on that is no dot.
fn without_dots(text: &[char]) -> &[char]
    ensures { result.now ≡ without_dots text.now }
{
    'dots: for i in 0..text.len() {
        if text[i] != '.' {
            return &text[i..];
        }
    }
    &text[text.len()..]
}

/// The character in a case.
fn in_case(manner: Manner, c: char) -> char
    ensures { result ≡ in_case manner c }
{
    match manner {
        Manner::AsCaptured => c,
        Manner::Downcase => c.to_ascii_lowercase(),
        Manner::Upcase => c.to_ascii_uppercase(),
    }
}

/// Adds a text in a case.
fn put_in_case(out: &mut Vec<char>, manner: Manner, text: &[char]) -> Result<(), OutOfMemory>
    ensures { OnOk result (out.new.items ≡ out.old.items ++ map (in_case manner) text.now) }
{
    for c in text {
        out.push(in_case(manner, *c))?;
    }
    Ok(())
}

/// Adds what a reference gives, which is spelled so and has this group.
fn put_reference(
    out: &mut Vec<char>,
    line: &[char],
    spelling: &[char],
    manner: Manner,
    group: Option<Option<(u32, u32)>>,
) -> Result<(), OutOfMemory>
    requires { IsSpanWithin (length line.now) group }
    ensures { OnOk result (out.new.items ≡ out.old.items ++ reference_name line.now spelling.now manner group) }
{
    match group {
        None => Ok(out.extend_from_slice(spelling)?),
        Some(None) => Ok(()),
        Some(Some(span)) => put_in_case(out, manner, without_dots(captured(line, span))),
    }
}

/// Adds what the piece at the front of a text gives, and answers how many characters it takes.
fn put_piece(
    out: &mut Vec<char>,
    first: char,
    text: &[char],
    line: &[char],
    groups: &[Option<(u32, u32)>],
) -> Result<usize, OutOfMemory>
    requires { AreWithin (length line.now) groups.now }
    ensures given { OnOk result (out.new.items ≡ out.old.items ++ piece_name line.now groups.now (piece_or first (name_reference text.now))) }
    ensures width { IfOk result (λ width. width ≡ length (piece_text name_form (piece_or first (name_reference text.now)))) }
{
    match name_reference(text) {
        Some((digits, manner)) => {
            let width = name_width(digits, manner);
            let group = group_of(groups, digits);
            put_reference(out, line, &text[..width], manner, group)?;
            Ok(width)
        }
        None => {
            out.push(first)?;
            Ok(1)
        }
    }
}

/// The template with the captured texts in it.
fn filled(
    alloc: Global,
    template: &[char],
    line: &[char],
    groups: &[Option<(u32, u32)>],
) -> Result<Vec<char>, OutOfMemory>
    requires { AreWithin (length line.now) groups.now }
    ensures { IfOk result (λ text. text.items ≡ filled template.now line.now groups.now) }
{
    let mut out = Vec::new(alloc);
    let mut at = 0;
    'pieces: while at < template.len() {
        at += put_piece(&mut out, template[at], &template[at..], line, groups)?;
    }
    Ok(out)
}

/// Adds a word, if it has a character.
fn put_word(alloc: Global, words: &mut Vec<Name>, word: &[char]) -> Result<(), OutOfMemory>
    ensures { OnOk result (words.new.items ≡ words.old.items ++ filter is_filled (word.now ∷ [])) }
{
    if !word.is_empty() {
        words.push(Name::new(Vec::from_slice(alloc, word)?))?;
    }
    Ok(())
}

/// The runs of characters other than the space.
fn words_of(alloc: Global, text: &[char]) -> Result<Vec<Name>, OutOfMemory>
    ensures { IfOk result (λ words. words.items ≡ words_of text.now) }
{
    let mut words = Vec::new(alloc);
    let mut start = 0;
    'text: for at in 0..text.len() {
        if text[at] == ' ' {
            put_word(alloc, &mut words, &text[start..at])?;
            start = at + 1;
        }
    }
    put_word(alloc, &mut words, &text[start..])?;
    Ok(words)
}

/// The names of a text that is no template: its runs of characters other than the space.
pub fn words(alloc: Global, text: &Name) -> Result<ScopePath, OutOfMemory>
    ensures { IfOk result (λ path. path ≡ words_of text.now) }
{
    Ok(ScopePath::new(words_of(alloc, text.as_slice())?))
}

/// Whether a reference is spelled anywhere in a template. One that has none gives its own words for every
/// match.
pub fn has_name_references(template: &Name) -> bool
    ensures { result ≡ has_name_reference template.now }
{
    let mut rest = template.as_slice();
    loop {
        if name_reference(rest).is_some() {
            return true;
        }
        match rest {
            [_, after @ ..] => rest = after,
            [] => return false,
        }
    }
}

/// The names of a template without a reference, which are the same for every match; none for one with a
/// reference.
pub fn fixed_names(alloc: Global, template: &Name) -> Result<Option<ScopePath>, OutOfMemory>
    ensures fixed { IfOk result (λ found. MatchOption found ⊤ (λ path. (line : List ℕ) (caps : Caps) → path ≡ names_of template.now line caps)) }
    ensures where_none { IfOk result (λ found. is_none found ≡ has_name_reference template.now) }
{
    if has_name_references(template) {
        Ok(None)
    } else {
        Ok(Some(words(alloc, template)?))
    }
}

/// The names that a template pushes for a match on a line, by the rules of vscode-textmate and of the
/// TextMate 1.x manual: `$` with as many digits as follow, and `${1:/downcase}` and `${1:/upcase}`,
/// stand for what a group captured, without the dots at its front and in that case of ASCII letters.
/// A number beyond the groups of the pattern stays as it is written, and an unset group gives
/// nothing. Then the text is cut at spaces, so that one group may give several names, and a blank
/// template gives none.
///
/// The groups are in characters of the line, as a search of it gives them.
pub fn name_of(
    alloc: Global,
    template: &Name,
    line: &[char],
    caps: &Caps,
) -> Result<ScopePath, OutOfMemory>
    requires { AreWithin (length line.now) caps.now }
    ensures { IfOk result (λ path. path ≡ names_of template.now line.now caps.now) }
{
    let text = filled(alloc, template.as_slice(), line, caps.as_slice())?;
    Ok(ScopePath::new(words_of(alloc, text.as_slice())?))
}
