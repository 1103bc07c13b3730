//! Characters that are given by their numbers.
ghost use Rattle.std.specs.Prelude.{◌≡◌, ◌≤◌};
ghost use Rattle.tm_onig_atom.specs.inner.Reading.{digits_at, numbered, with_text, by_number, as_char, braced_at, hex_at};
ghost use Rattle.tm_onig_atom.specs.inner.Views.{Gives};

use crate::fault::AtomFault;
use crate::meanings::Meant;

/// A number in digits, and how many they are.
#[derive(Clone, Copy, Debug, PartialEq, Eq)]
pub struct Number {
    pub value: u32,
    pub count: u32,
}

/// The number of the digits at the front, at most so many, and what stands behind them.
#[tactic(auto, unfolding(crate::specs::inner::Reading::digits_at))]
fn digits(base: u32, most: u32, text: &[char]) -> (Number, &[char])
    requires least { 2 ≤ base }
    requires greatest { base ≤ 16 }
    requires few { most ≤ 6 }
    ensures { ((result.0.value, result.0.count), result.1.now) ≡ digits_at base most 0 0 text.now }
{
    let mut value = 0;
    let mut count = 0;
    let mut rest = text;
    loop {
        match rest {
            [c, after @ ..] => match c.to_digit(base) {
                Some(digit) => {
                    if count >= most {
                        return (Number { value, count }, rest);
                    }
                    value = value * base + digit;
                    count += 1;
                    rest = after;
                }
                None => return (Number { value, count }, rest),
            },
            [] => return (Number { value, count }, rest),
        }
    }
}

/// The character with a number of at least so many digits.
fn character(least: u32, number: Number) -> Option<char>
    ensures { result ≡ numbered least (number.value, number.count) }
{
    if number.count < least {
        return None;
    }
    char::from_u32(number.value)
}

fn with_rest(c: Option<char>, rest: &[char]) -> Result<(Meant, &[char]), AtomFault>
    ensures { Gives (λ x. (x.0, x.1.now)) result (as_char (with_text rest.now c)) }
{
    match c {
        Some(c) => Ok((Meant::Character(c), rest)),
        None => Err(AtomFault::Unreadable),
    }
}

/// The character that the digits at the front give.
pub fn by_number(
    base: u32,
    least: u32,
    most: u32,
    text: &[char],
) -> Result<(Meant, &[char]), AtomFault>
    requires least { 2 ≤ base }
    requires greatest { base ≤ 16 }
    requires few { most ≤ 6 }
    ensures { Gives (λ x. (x.0, x.1.now)) result (as_char (by_number least (digits_at base most 0 0 text.now))) }
{
    let (number, rest) = digits(base, most, text);
    with_rest(character(least, number), rest)
}

/// What follows `\x{`.
#[tactic(auto, unfolding(crate::specs::inner::Reading::braced_at))]
fn braced(text: &[char]) -> Result<(Meant, &[char]), AtomFault>
    ensures { Gives (λ x. (x.0, x.1.now)) result (as_char (braced_at text.now)) }
{
    let (number, rest) = digits(16, 6, text);
    match rest {
        ['}', after @ ..] => with_rest(character(1, number), after),
        _ => Err(AtomFault::Unreadable),
    }
}

/// What follows `\x`: one or two digits, or up to six between braces.
#[tactic(auto, unfolding(crate::specs::inner::Reading::hex_at))]
pub fn hex(text: &[char]) -> Result<(Meant, &[char]), AtomFault>
    ensures { Gives (λ x. (x.0, x.1.now)) result (as_char (hex_at text.now)) }
{
    match text {
        ['{', rest @ ..] => braced(rest),
        _ => by_number(16, 1, 2, text),
    }
}
