//! Sets of characters, told by which of the characters of a case are members.

use crate::texts::{chars, made, push_shown};
use serde_json::Value;
use std::alloc::{AllocError, Global};
use tm_cases::{Case, CaseFault};
use tm_defs::texts::Name;
use tm_onig_class::listed::{Listed, is_space, is_word};
use tm_onig_class::sets::Set;

/// How a character is asked for.
#[derive(Clone, Copy)]
pub(crate) enum Test<'a> {
    Has(&'a Set),
    /// Without regard to case.
    HasAlike(&'a Set),
    Word,
    Space,
}

fn passes(test: &Test, c: char) -> bool {
    match test {
        Test::Has(set) => set.has(c),
        Test::HasAlike(set) => set.fold_has(c),
        Test::Word => is_word(c),
        Test::Space => is_space(c),
    }
}

/// The members among these characters, between brackets.
pub(crate) fn members(alloc: Global, test: &Test, probes: &str) -> Result<String, AllocError> {
    let mut text = String::new(alloc);
    text.push('[')?;
    for probe in probes.chars() {
        if passes(test, probe) {
            push_shown(alloc, &mut text, probe)?;
        }
    }
    text.push(']')?;
    Ok(text)
}

/// `word PROBES`: the characters of words.
pub(crate) fn words(alloc: Global, case: &Case) -> Result<String, CaseFault> {
    Ok(members(alloc, &Test::Word, case.text(0)?)?)
}

/// `space PROBES`: white space.
pub(crate) fn spaces(alloc: Global, case: &Case) -> Result<String, CaseFault> {
    Ok(members(alloc, &Test::Space, case.text(0)?)?)
}

/// The set that has this name in the table.
fn listed_of(name: &str) -> Result<Listed, CaseFault> {
    match name {
        "word" => Ok(Listed::Word),
        "digit" => Ok(Listed::Digit),
        "space" => Ok(Listed::Space),
        "xdigit" => Ok(Listed::Xdigit),
        "alpha" => Ok(Listed::Alpha),
        "alnum" => Ok(Listed::Alnum),
        "blank" => Ok(Listed::Blank),
        "cntrl" => Ok(Listed::Cntrl),
        "lower" => Ok(Listed::Lower),
        "upper" => Ok(Listed::Upper),
        "punct" => Ok(Listed::Punct),
        "graph" => Ok(Listed::Graph),
        "print" => Ok(Listed::Print),
        "ascii" => Ok(Listed::Ascii),
        "any" => Ok(Listed::Any),
        _ => Err(CaseFault::NoField),
    }
}

/// `listed NAME, PROBES`: a set of the table.
pub(crate) fn listed(alloc: Global, case: &Case) -> Result<String, CaseFault> {
    let set = made(Set::listed(alloc, listed_of(case.text(0)?)?))?;
    Ok(members(alloc, &Test::Has(&set), case.text(1)?)?)
}

/// The set of a name, as `\p{NAME}` reads it.
fn named_set(alloc: Global, name: &str) -> Result<Option<Set>, CaseFault> {
    made(Set::named(alloc, &Name::new(chars(alloc, name)?)))
}

/// `named NAME, PROBES`: the set of a name, or `none`.
pub(crate) fn named(alloc: Global, case: &Case) -> Result<String, CaseFault> {
    match named_set(alloc, case.text(0)?)? {
        Some(set) => Ok(members(alloc, &Test::Has(&set), case.text(1)?)?),
        None => Ok(String::from_str(alloc, "none")?),
    }
}

/// `named_i NAME, PROBES`: the same without regard to case.
pub(crate) fn named_folded(alloc: Global, case: &Case) -> Result<String, CaseFault> {
    match named_set(alloc, case.text(0)?)? {
        Some(set) => Ok(members(alloc, &Test::HasAlike(&set), case.text(1)?)?),
        None => Ok(String::from_str(alloc, "none")?),
    }
}

/// First and last character of a range, as two letters.
fn pair(text: &str) -> Result<(char, char), CaseFault> {
    let mut letters = text.chars();
    match (letters.next(), letters.next()) {
        (Some(first), Some(last)) => Ok((first, last)),
        _ => Err(CaseFault::NoField),
    }
}

/// The set of several ranges.
fn of_ranges(alloc: Global, texts: &[Value]) -> Result<Set, CaseFault> {
    let mut ranges = Vec::new(alloc);
    for text in texts {
        ranges.push(pair(text.as_str().ok_or(CaseFault::NoField)?)?)?;
    }
    made(Set::from_ranges(alloc, &ranges))
}

/// The set of one range.
fn of_range(alloc: Global, text: &str) -> Result<Set, CaseFault> {
    let (first, last) = pair(text)?;
    if first > last {
        return Err(CaseFault::NoField);
    }
    made(Set::range(alloc, first, last))
}

fn next(stack: &mut Vec<Set>) -> Result<Set, CaseFault> {
    stack.pop().ok_or(CaseFault::NoField)
}

/// Makes a set of the last one or two.
fn made_of(alloc: Global, stack: &mut Vec<Set>, word: &str) -> Result<Set, CaseFault> {
    match word {
        "complement" => made(next(stack)?.complement()),
        "folded" => made(next(stack)?.folded()),
        "union" => {
            let other = next(stack)?;
            made(next(stack)?.union(&other))
        }
        "meet" => {
            let other = next(stack)?;
            made(next(stack)?.meet(&other))
        }
        _ => match word.strip_prefix("named ") {
            Some(name) => named_set(alloc, name)?.ok_or(CaseFault::NoField),
            None => of_range(alloc, word),
        },
    }
}

/// `set PROBES, WORD, WORD, ..`: a set as it is made step by step. A word of two letters is a range, a list of
/// such words several ranges, `named NAME` the set of a name; `complement` and `folded` change the last set, `union` and `meet` join the last two.
pub(crate) fn set(alloc: Global, case: &Case) -> Result<String, CaseFault> {
    let mut stack = Vec::new(alloc);
    for place in 1..case.len() {
        let set = match case.value(place)? {
            Value::Array(texts) => of_ranges(alloc, texts)?,
            Value::String(word) => made_of(alloc, &mut stack, word.as_str())?,
            _ => return Err(CaseFault::NoField),
        };
        stack.push(set)?;
    }
    let set = next(&mut stack)?;
    Ok(members(alloc, &Test::Has(&set), case.text(0)?)?)
}
