//! References to groups.
ghost use Rattle.std.specs.Prelude.{◌≡◌, ◌∷◌, [], map, Some};
ghost use Rattle.tm_onig_parse.specs.Meaning.{leaf};
ghost use Rattle.tm_onig_parse.specs.Names.{Number, Name, begins_digit, called_from, is_called, meant_in};
ghost use Rattle.tm_onig_parse.specs.inner.Reading.{Means, numbered, digits_ref, number_ref, name_ref, keyed_at, reference_at};
ghost use Rattle.tm_onig_parse.specs.Things.{begins_reference, back_tree};
ghost use Rattle.tm_onig_parse.specs.inner.Views.{Gives, sym_of_token, names_known, name_of_chars};

use crate::ParseFault;
use crate::intervals::number;
use crate::names::{GroupNames, begins, name_to};
use crate::parts::leaf;
use crate::tokens::Token;
use sqlite_items::Items;
use std::alloc::Global;
use tm_onig_atom::options::Options;
use tm_onig_atom::slices::tail;
use tm_onig_class::patterns::Pattern;

/// Whether the character begins a reference behind a backslash.
pub fn begins_reference(c: char) -> bool
    ensures { result ≡ begins_reference c }
{
    c.is_ascii_digit() && c != '0' || c == 'k'
}

/// Whether the group has the name.
fn is_called(name: &[char], group: &Option<Vec<char>>) -> bool
    ensures { result ≡ is_called name.now (name_of_chars group.now) }
{
    match group {
        Some(other) => other.as_slice() == name,
        None => false,
    }
}

/// The numbers of the groups that have the name.
#[tactic(auto, unfolding(crate::specs::Names::called_from))]
fn called(
    alloc: Global,
    groups: &[Option<Vec<char>>],
    name: &[char],
) -> Result<Vec<u32>, ParseFault>
    ensures { Gives (λ v. v.items) result (Some (called_from 1 name.now (map name_of_chars groups.now))) }
{
    let mut numbers = Vec::new(alloc);
    let mut last: u32 = 0;
    let mut rest = groups;
    while let [group, after @ ..] = rest {
        let Some(number) = last.checked_add(1) else {
            return Err(ParseFault::OutOfMemory);
        };
        if is_called(name, group) {
            let Ok(()) = numbers.push(number) else {
                return Err(ParseFault::OutOfMemory);
            };
        }
        last = number;
        rest = after;
    }
    Ok(numbers)
}

fn one(alloc: Global, number: u32) -> Result<Vec<u32>, ParseFault>
    ensures { Gives (λ v. v.items) result (Some (number ∷ [])) }
{
    let mut numbers = Vec::new(alloc);
    let Ok(()) = numbers.push(number) else {
        return Err(ParseFault::OutOfMemory);
    };
    Ok(numbers)
}

/// The group with the number, if the pattern has it.
fn by_number(alloc: Global, groups: &GroupNames, number: u32) -> Result<Vec<u32>, ParseFault>
    ensures { Gives (λ v. v.items) result (meant_in (names_known groups.now) (Number number)) }
{
    match groups {
        GroupNames::Unread => Ok(Vec::new(alloc)),
        GroupNames::Read(names) => {
            if number >= 1 && number as usize <= names.len() {
                one(alloc, number)
            } else {
                Err(ParseFault::Unreadable)
            }
        }
    }
}

/// The groups that have the name, if the pattern has one.
fn by_name(alloc: Global, groups: &GroupNames, name: &[char]) -> Result<Vec<u32>, ParseFault>
    ensures { Gives (λ v. v.items) result (meant_in (names_known groups.now) (Name name.now)) }
{
    let numbers = match groups {
        GroupNames::Unread => return Ok(Vec::new(alloc)),
        GroupNames::Read(names) => match called(alloc, names, name) {
            Ok(numbers) => numbers,
            Err(fault) => return Err(fault),
        },
    };
    if numbers.is_empty() {
        Err(ParseFault::Unreadable)
    } else {
        Ok(numbers)
    }
}

/// A reference to groups.
#[tactic(auto, using(tm_onig_class::proofs::Trees::nodes))]
fn back(options: Options, numbers: Vec<u32>) -> Token
    ensures { sym_of_token result ≡ Means (leaf (back_tree options numbers.items)) }
{
    let fold = options.fold;
    let groups = Items::from_vec(numbers);
    Token::Means(leaf(Pattern::Back { groups, fold }))
}

fn numbered<'a>(
    alloc: Global,
    groups: &GroupNames,
    options: Options,
    number: Option<u32>,
    text: &'a [char],
) -> Result<(Token, &'a [char]), ParseFault>
    ensures { Gives (λ x. (sym_of_token x.0, x.1.now)) result (numbered (names_known groups.now) options number text.now) }
{
    let Some(number) = number else {
        return Err(ParseFault::Unreadable);
    };
    match by_number(alloc, groups, number) {
        Ok(numbers) => Ok((back(options, numbers), text)),
        Err(fault) => Err(fault),
    }
}

/// Digits behind a backslash.
fn digits<'a>(
    alloc: Global,
    groups: &GroupNames,
    options: Options,
    text: &'a [char],
) -> Result<(Token, &'a [char]), ParseFault>
    ensures { Gives (λ x. (sym_of_token x.0, x.1.now)) result (digits_ref (names_known groups.now) options text.now) }
{
    let (found, rest) = number(text);
    numbered(alloc, groups, options, found, rest)
}

/// A number that ends before a `>`.
fn number_to<'a>(
    alloc: Global,
    groups: &GroupNames,
    options: Options,
    text: &'a [char],
) -> Result<(Token, &'a [char]), ParseFault>
    ensures { Gives (λ x. (sym_of_token x.0, x.1.now)) result (number_ref (names_known groups.now) options text.now) }
{
    let (found, rest) = number(text);
    if begins('>', rest) {
        numbered(alloc, groups, options, found, tail(rest))
    } else {
        Err(ParseFault::Unreadable)
    }
}

/// A name that ends before this character.
fn named<'a>(
    alloc: Global,
    groups: &GroupNames,
    end: char,
    options: Options,
    text: &'a [char],
) -> Result<(Token, &'a [char]), ParseFault>
    ensures { Gives (λ x. (sym_of_token x.0, x.1.now)) result (name_ref (names_known groups.now) end options text.now) }
{
    let (name, rest) = match name_to(alloc, end, text) {
        Ok(found) => found,
        Err(fault) => return Err(fault),
    };
    match by_name(alloc, groups, &name) {
        Ok(numbers) => Ok((back(options, numbers), rest)),
        Err(fault) => Err(fault),
    }
}

fn begins_digit(text: &[char]) -> bool
    ensures { result ≡ begins_digit text.now }
{
    match text {
        [c, ..] => c.is_ascii_digit(),
        _ => false,
    }
}

/// What follows `\\k`.
#[tactic(auto, unfolding(crate::specs::inner::Reading::keyed_at))]
fn keyed<'a>(
    alloc: Global,
    groups: &GroupNames,
    options: Options,
    text: &'a [char],
) -> Result<(Token, &'a [char]), ParseFault>
    ensures { Gives (λ x. (sym_of_token x.0, x.1.now)) result (keyed_at (names_known groups.now) options text.now) }
{
    match text {
        ['<', rest @ ..] => {
            if begins_digit(rest) {
                number_to(alloc, groups, options, rest)
            } else {
                named(alloc, groups, '>', options, rest)
            }
        }
        ['\'', rest @ ..] => named(alloc, groups, '\'', options, rest),
        _ => Err(ParseFault::Unreadable),
    }
}

/// A reference, of which the text has the character behind the backslash.
pub fn reference<'a>(
    alloc: Global,
    groups: &GroupNames,
    options: Options,
    text: &'a [char],
) -> Result<(Token, &'a [char]), ParseFault>
    ensures { Gives (λ x. (sym_of_token x.0, x.1.now)) result (reference_at (names_known groups.now) options text.now) }
{
    match text {
        ['k', rest @ ..] => keyed(alloc, groups, options, rest),
        _ => digits(alloc, groups, options, text),
    }
}
