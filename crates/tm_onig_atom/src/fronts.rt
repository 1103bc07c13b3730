//! The text of classes, one item at a time.
ghost use Rattle.std.specs.Prelude.{◌≡◌, Some};
ghost use Rattle.tm_onig_atom.specs.Classes.{is_raw};
ghost use Rattle.tm_onig_atom.specs.inner.ClassReading.{single_at, after_single, slash_at, or_opens, posix_at, front_at};
ghost use Rattle.tm_onig_atom.specs.inner.Views.{Gives};

use crate::escapes::read_escape;
use crate::fault::AtomFault;
use crate::meanings::Meant;
use crate::parts::{Front, Member};
use crate::posix::posix;
use crate::slices::{meets, tail};
use std::alloc::Global;

#[tactic(auto, unfolding(crate::specs::Classes::is_raw))]
fn raw(first: bool, c: char) -> bool
    ensures { result ≡ is_raw first c }
{
    match c {
        '[' | '\\' => false,
        ']' => first,
        _ => true,
    }
}

/// A character, itself or escaped, behind another.
#[tactic(auto, unfolding(crate::specs::inner::ClassReading::single_at))]
fn single(alloc: Global, text: &[char]) -> Result<(char, &[char]), AtomFault>
    ensures { Gives (λ x. (x.0, x.1.now)) result (single_at text.now) }
{
    match text {
        ['\\', rest @ ..] => match read_escape(alloc, rest) {
            Ok((Meant::Character(c), after)) => Ok((c, after)),
            Ok(_) => Err(AtomFault::Unreadable),
            Err(fault) => Err(fault),
        },
        [c, rest @ ..] => {
            if raw(false, *c) && !meets(*c, rest) {
                Ok((*c, rest))
            } else {
                Err(AtomFault::Unreadable)
            }
        }
        [] => Err(AtomFault::Unreadable),
    }
}

/// What a character begins: a range, or itself.
#[tactic(auto, unfolding(crate::specs::inner::ClassReading::after_single))]
fn after(alloc: Global, value: char, text: &[char]) -> Result<(Front, &[char]), AtomFault>
    ensures { Gives (λ x. (x.0, x.1.now)) result (after_single value text.now) }
{
    match text {
        ['-', rest @ ..] => match single(alloc, rest) {
            Ok((last, after)) => {
                if value <= last {
                    Ok((Front::Adds(Member::Range(value, last)), after))
                } else {
                    Err(AtomFault::Unreadable)
                }
            }
            Err(AtomFault::Unreadable) => Ok((Front::Adds(Member::Range(value, value)), text)),
            Err(fault) => Err(fault),
        },
        _ => Ok((Front::Adds(Member::Range(value, value)), text)),
    }
}

/// What an escape begins.
fn slash(alloc: Global, text: &[char]) -> Result<(Front, &[char]), AtomFault>
    ensures { Gives (λ x. (x.0, x.1.now)) result (slash_at text.now) }
{
    match read_escape(alloc, text) {
        Ok((Meant::Character(c), rest)) => after(alloc, c, rest),
        Ok((Meant::Members(named), rest)) => Ok((Front::Adds(Member::Set(named)), rest)),
        Err(fault) => Err(fault),
    }
}

/// What a `[` begins: a name, or else a nested class.
fn open(text: &[char]) -> (Front, &[char])
    ensures { Some (result.0, result.1.now) ≡ or_opens text.now (posix_at text.now) }
{
    match posix(text) {
        Some((named, rest)) => (Front::Adds(Member::Set(named)), rest),
        None => (Front::Opens, text),
    }
}

/// What stands at the front, and what follows it. `first` says that it stands directly behind the `[`
/// or the `^` of the class.
#[tactic(auto, unfolding(crate::specs::inner::ClassReading::front_at))]
pub(crate) fn front(
    alloc: Global,
    first: bool,
    text: &[char],
) -> Result<(Front, &[char]), AtomFault>
    ensures { Gives (λ x. (x.0, x.1.now)) result (front_at first text.now) }
{
    match text {
        ['\\', rest @ ..] => slash(alloc, rest),
        ['[', rest @ ..] => Ok(open(rest)),
        [c, rest @ ..] => {
            if meets(*c, rest) {
                return Ok((Front::Meets, tail(rest)));
            }
            if raw(first, *c) {
                return after(alloc, *c, rest);
            }
            Err(AtomFault::Unreadable)
        }
        [] => Err(AtomFault::Unreadable),
    }
}
