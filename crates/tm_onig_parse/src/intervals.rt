//! Bounds between braces. They are told from a `{` that is a character, and only then read.
ghost use Rattle.std.specs.Prelude.{◌≡◌, ◌<◌, ◌+◌, ◌*◌, option_map, Some};
ghost use Rattle.tm_onig_atom.specs.inner.Reading.{rest_of};
ghost use Rattle.tm_onig_parse.specs.inner.Reading.{digits_at, ends_bounds, after_digits, bounds_at, limited, with_digit, number_at, ordered, second_at, first_at, interval_at};

use tm_onig_atom::slices::tail;

/// How often something is repeated at most, as far as bounds say a number.
const MOST_TIMES: u32 = 100_000;

/// What stands behind the digits, and whether there are some, or were before.
#[tactic(auto, unfolding(crate::specs::inner::Reading::digits_at))]
fn digits(some: bool, text: &[char]) -> (bool, &[char])
    ensures { (result.0, result.1.now) ≡ digits_at some text.now }
{
    let mut any = some;
    let mut rest = text;
    loop {
        match rest {
            [c, after @ ..] => {
                if !c.is_ascii_digit() {
                    return (any, rest);
                }
                any = true;
                rest = after;
            }
            [] => return (any, rest),
        }
    }
}

fn ends(some: bool, text: &[char]) -> bool
    ensures { result ≡ ends_bounds (some, text.now) }
{
    match text {
        ['}', ..] => some,
        _ => false,
    }
}

fn after(some: bool, text: &[char]) -> bool
    ensures { result ≡ after_digits (some, text.now) }
{
    match text {
        [',', rest @ ..] => {
            let (any, end) = digits(some, rest);
            ends(any, end)
        }
        ['}', ..] => some,
        _ => false,
    }
}

/// Whether bounds stand at the front of what follows a `{`.
#[tactic(auto, unfolding(crate::specs::inner::Reading::bounds_at))]
pub fn bounds(text: &[char]) -> bool
    ensures { result ≡ bounds_at text.now }
{
    let (some, rest) = digits(false, text);
    after(some, rest)
}

/// The number, if it is not above the limit.
fn limit(number: u32) -> Option<u32>
    ensures { result ≡ limited number }
{
    if number <= MOST_TIMES {
        Some(number)
    } else {
        None
    }
}

/// The number with one digit more, if it is not above the limit.
fn longer(number: Option<u32>, digit: u32) -> Option<u32>
    requires { digit < 10 }
    ensures { result ≡ with_digit number digit }
{
    match number {
        Some(number) => {
            if number > MOST_TIMES / 10 {
                return None;
            }
            limit(number * 10 + digit)
        }
        None => None,
    }
}

/// The number at the front, if it is not above the limit, and what stands behind it.
#[tactic(auto, unfolding(crate::specs::inner::Reading::number_at))]
pub fn number(text: &[char]) -> (Option<u32>, &[char])
    ensures { (result.0, result.1.now) ≡ number_at (Some 0) text.now }
{
    let mut value = Some(0);
    let mut rest = text;
    loop {
        match rest {
            [c, after @ ..] => match c.to_digit(10) {
                Some(digit) => {
                    value = longer(value, digit);
                    rest = after;
                }
                None => return (value, rest),
            },
            [] => return (value, rest),
        }
    }
}

/// Bounds, and whether they are one number alone.
#[derive(Clone, Copy, Debug, PartialEq, Eq)]
pub struct Times {
    pub least: u32,
    pub greatest: Option<u32>,
    pub exact: bool,
}

/// What follows the comma.
fn second(least: u32, text: &[char]) -> Option<(Times, &[char])>
    ensures { option_map (λ x. ((x.0.least, x.0.greatest), (x.0.exact, x.1.now))) result ≡ second_at least text.now }
{
    if let ['}', rest @ ..] = text {
        let greatest = None;
        let exact = false;
        return Some((
            Times {
                least,
                greatest,
                exact,
            },
            rest,
        ));
    }
    let (Some(most), rest) = number(text) else {
        return None;
    };
    if least > most {
        return None;
    }
    let greatest = Some(most);
    let exact = false;
    Some((
        Times {
            least,
            greatest,
            exact,
        },
        tail(rest),
    ))
}

/// The bounds that stand at the front of what follows a `{`, if their numbers are not above the limit
/// and rise.
pub fn interval(text: &[char]) -> Option<(Times, &[char])>
    ensures { option_map (λ x. ((x.0.least, x.0.greatest), (x.0.exact, x.1.now))) result ≡ interval_at text.now }
{
    let (Some(least), rest) = number(text) else {
        return None;
    };
    if let [',', after @ ..] = rest {
        return second(least, after);
    }
    let greatest = Some(least);
    let exact = true;
    Some((
        Times {
            least,
            greatest,
            exact,
        },
        tail(rest),
    ))
}
