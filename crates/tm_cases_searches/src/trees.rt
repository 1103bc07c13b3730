//! Trees of patterns in the short notation of cases.
use sqlite_items::Items;
use std::alloc::Global;
use tm_cases::CaseFault;
use tm_onig_class::listed::Listed;
use tm_onig_class::patterns::{Pattern, Position};
use tm_onig_class::sets::Set;

fn digit(c: char) -> u32 {
    c.to_digit(10).unwrap_or(0)
}

/// How many characters a sign of the short notation has.
fn sign_len(first: char) -> usize {
    match first {
        'e' | '>' | '=' | '!' | '<' | '~' => 1,
        'k' => 3,
        '{' => 4,
        _ => 2,
    }
}

/// The last trees made, the first of them first.
fn taken(alloc: Global, stack: &mut Vec<Pattern>, count: u32) -> Result<Items<Pattern>, CaseFault> {
    let mut parts = Vec::new(alloc);
    for _ in 0..count {
        parts.push(stack.pop().ok_or(CaseFault::NoField)?)?;
    }
    parts.reverse();
    Ok(Items::from_vec(parts))
}

fn body(alloc: Global, stack: &mut Vec<Pattern>) -> Result<Box<Pattern>, CaseFault> {
    Ok(Box::new(alloc, stack.pop().ok_or(CaseFault::NoField)?)?)
}

const PLACES: [Position; 8] = [
    Position::LineStart,
    Position::LineEnd,
    Position::TextStart,
    Position::SearchStart,
    Position::BeforeFinal,
    Position::TextEnd,
    Position::Word,
    Position::NotWord,
];

/// The tree of a sign, over those that it takes from the stack.
fn node(alloc: Global, stack: &mut Vec<Pattern>, sign: &[char]) -> Result<Pattern, CaseFault> {
    match sign {
        ['\'', c] => Ok(Pattern::Char { c: *c, fold: false }),
        ['"', c] => Ok(Pattern::Char { c: *c, fold: true }),
        ['.', m] => Ok(Pattern::Any { newline: *m == 'm' }),
        ['s', 'w'] => Ok(Pattern::Set {
            set: Set::listed(alloc, Listed::Word).or(Err(CaseFault::OutOfMemory))?,
            fold: false,
        }),
        ['s', _] => Ok(Pattern::Set {
            set: Set::listed(alloc, Listed::Digit).or(Err(CaseFault::OutOfMemory))?,
            fold: false,
        }),
        ['S', c] => Ok(Pattern::Set {
            set: Set::range(alloc, *c, *c).or(Err(CaseFault::OutOfMemory))?,
            fold: true,
        }),
        ['C', count] => Ok(Pattern::Cat(taken(alloc, stack, digit(*count))?)),
        ['A', count] => Ok(Pattern::Alt(taken(alloc, stack, digit(*count))?)),
        ['(', number] => Ok(Pattern::Group {
            number: digit(*number),
            body: body(alloc, stack)?,
        }),
        ['>'] => Ok(Pattern::Atomic(body(alloc, stack)?)),
        ['{', least, greatest, greed] => Ok(Pattern::Repeat {
            body: body(alloc, stack)?,
            least: digit(*least),
            greatest: greatest.to_digit(10),
            greedy: *greed == 'g',
        }),
        [kind @ ('=' | '!' | '<' | '~')] => Ok(Pattern::Look {
            body: body(alloc, stack)?,
            ahead: (*kind == '=') | (*kind == '!'),
            negative: (*kind == '!') | (*kind == '~'),
        }),
        [kind @ ('\\' | '/'), group] => Ok(Pattern::Back {
            groups: Items::from_vec(vec![in alloc; digit(*group)]?),
            fold: *kind == '/',
        }),
        ['k', first, second] => Ok(Pattern::Back {
            groups: Items::from_vec(vec![in alloc; digit(*first), digit(*second)]?),
            fold: false,
        }),
        ['p', place] => {
            let place = PLACES
                .get(digit(*place) as usize)
                .ok_or(CaseFault::NoField)?;
            Ok(Pattern::Position(*place))
        }
        _ => Ok(Pattern::Empty),
    }
}

/// The tree of the short notation: `'a` is the character a, `"a` without regard to case, and a sign
/// behind trees takes them as its parts, as in `'a'bC2`, a row of two, and `'a{0-g`, a greedy loop. `\1` is a
/// reference to the group 1, and `k12` one to the last of two groups that is set.
pub fn tree(alloc: Global, text: &str) -> Result<Pattern, CaseFault> {
    let mut stack = Vec::new(alloc);
    let mut sign: Vec<char> = Vec::new(alloc);
    for c in text.chars() {
        sign.push(c)?;
        if sign.len() == sign_len(sign[0]) {
            let node = node(alloc, &mut stack, &sign)?;
            stack.push(node)?;
            sign.clear();
        }
    }
    Ok(stack.pop().ok_or(CaseFault::NoField)?)
}
