//! Escapes: what a backslash makes of what follows it.
ghost use Rattle.std.specs.Prelude.{◌≡◌, Some};
ghost use Rattle.tm_onig_atom.specs.Escapes.{of_listed, set_letter, escaped_char};
ghost use Rattle.tm_onig_atom.specs.inner.Reading.{name_at, property_at, sign_meant, meant_at};
ghost use Rattle.tm_onig_atom.specs.inner.Views.{Gives};

use crate::fault::AtomFault;
use crate::meanings::{Meant, Named};
use crate::numbers::{by_number, hex};
use crate::slices::before;
use std::alloc::Global;
use tm_onig_class::listed::Listed;
use tm_onig_class::names::Known;

fn listed(listed: Listed, negated: bool) -> Option<Named>
    ensures { result ≡ Some (of_listed listed negated) }
{
    let known = Known::Listed(listed);
    Some(Named { known, negated })
}

/// The set that a letter stands for behind a backslash.
#[tactic(auto, unfolding(crate::specs::Escapes::set_letter))]
fn set_letter(c: char) -> Option<Named>
    ensures { result ≡ set_letter c }
{
    match c {
        'w' => listed(Listed::Word, false),
        'd' => listed(Listed::Digit, false),
        's' => listed(Listed::Space, false),
        'h' => listed(Listed::Xdigit, false),
        'W' => listed(Listed::Word, true),
        'D' => listed(Listed::Digit, true),
        'S' => listed(Listed::Space, true),
        'H' => listed(Listed::Xdigit, true),
        _ => None,
    }
}

/// The character that a sign or a letter stands for behind a backslash.
#[tactic(auto, unfolding(crate::specs::Escapes::escaped_char, crate::specs::Escapes::is_no_char))]
fn escaped(c: char) -> Option<char>
    ensures { result ≡ escaped_char c }
{
    match c {
        't' => Some('\t'),
        'n' => Some('\n'),
        'v' => Some('\u{B}'),
        'f' => Some('\u{C}'),
        'r' => Some('\r'),
        'a' => Some('\u{7}'),
        'e' => Some('\u{1B}'),
        'b' => Some('\u{8}'),
        '0' | '1' | '2' | '3' | '4' | '5' | '6' | '7' | '8' | '9' => None,
        'w' | 'd' | 's' | 'h' | 'W' | 'D' | 'S' | 'H' => None,
        'x' | 'u' | 'p' | 'P' => None,
        'g' | 'K' | 'X' | 'R' | 'y' | 'Y' | 'N' | 'O' | 'c' | 'C' | 'M' => None,
        _ => Some(c),
    }
}

/// What follows the `{`, or `{^`, of a set by name.
fn by_name(alloc: Global, negated: bool, text: &[char]) -> Result<(Meant, &[char]), AtomFault>
    ensures { Gives (λ x. (x.0, x.1.now)) result (name_at negated text.now) }
{
    let Some((name, rest)) = before('}', text) else {
        return Err(AtomFault::Unreadable);
    };
    match Known::named(alloc, name) {
        Ok(Some(known)) => Ok((Meant::Members(Named { known, negated }), rest)),
        Ok(None) => Err(AtomFault::Unreadable),
        Err(_) => Err(AtomFault::OutOfMemory),
    }
}

/// What follows `\p` or `\P`.
#[tactic(auto, unfolding(crate::specs::inner::Reading::property_at))]
fn property(alloc: Global, negated: bool, text: &[char]) -> Result<(Meant, &[char]), AtomFault>
    ensures { Gives (λ x. (x.0, x.1.now)) result (property_at negated text.now) }
{
    match text {
        ['{', '^', rest @ ..] => by_name(alloc, !negated, rest),
        ['{', rest @ ..] => by_name(alloc, negated, rest),
        _ => Err(AtomFault::Unreadable),
    }
}

/// What a sign or a letter without a form of its own stands for.
fn one(c: char) -> Option<Meant>
    ensures { result ≡ sign_meant c }
{
    if let Some(named) = set_letter(c) {
        return Some(Meant::Members(named));
    }
    match escaped(c) {
        Some(c) => Some(Meant::Character(c)),
        None => None,
    }
}

/// What follows a backslash, and the text behind it.
#[tactic(auto, unfolding(crate::specs::inner::Reading::meant_at))]
pub(crate) fn read_escape(alloc: Global, text: &[char]) -> Result<(Meant, &[char]), AtomFault>
    ensures { Gives (λ x. (x.0, x.1.now)) result (meant_at text.now) }
{
    match text {
        ['x', rest @ ..] => hex(rest),
        ['u', rest @ ..] => by_number(16, 4, 4, rest),
        ['0', rest @ ..] => by_number(8, 0, 2, rest),
        ['p', rest @ ..] => property(alloc, false, rest),
        ['P', rest @ ..] => property(alloc, true, rest),
        [c, rest @ ..] => match one(*c) {
            Some(meant) => Ok((meant, rest)),
            None => Err(AtomFault::Unreadable),
        },
        [] => Err(AtomFault::Unreadable),
    }
}
