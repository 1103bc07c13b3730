//! The tokens of a selector's text.
ghost use Rattle.std.specs.Prelude.{◌≡◌, ◌≤◌, drop, length, IfOk, IfSome};
ghost use Rattle.tm_selector.specs.Tokens.{begins_name, goes_on, spaces, sign_at, sign_width, run_width, name_width, name_at, token_at, tokens_of, IsWithin};

use std::alloc::Global;
use tm_defs::memory::OutOfMemory;
use tm_defs::texts::Name;

/// A sign of a selector.
#[derive(Clone, Copy, Debug, PartialEq, Eq)]
pub enum Sign {
    /// `L:`
    Left,
    /// `R:`
    Right,
    /// `-`
    Minus,
    /// `(`
    Open,
    /// `)`
    Close,
    /// `|`
    Bar,
    /// `,`
    Comma,
}

/// A token of a selector.
#[derive(Drop)]
pub enum Token {
    Word(Name),
    Mark(Sign),
}

/// Whether a name may begin with the character.
fn begins_name(c: char) -> bool
    ensures { result ≡ begins_name c }
{
    c.is_ascii_alphanumeric() || c == '_' || c == '.' || c == ':'
}

/// Whether a name may go on with the character.
fn goes_on(c: char) -> bool
    ensures { result ≡ goes_on c }
{
    begins_name(c) || c == '-'
}

/// How many spaces a text begins with.
fn spaces(text: &[char]) -> usize
    ensures is { result ≡ spaces text.now }
    ensures within { result ≤ length text.now }
{
    for (place, c) in text.iter().enumerate() {
        if *c != ' ' {
            return place;
        }
    }
    text.len()
}

/// The sign at the front of a text. `L:` and `R:` come before names.
fn sign_at(text: &[char]) -> Option<Sign>
    ensures is { result ≡ sign_at text.now }
    ensures within { IfSome result (λ sign. sign_width sign ≤ length text.now) }
{
    match text {
        ['L', ':', ..] => Some(Sign::Left),
        ['R', ':', ..] => Some(Sign::Right),
        ['-', ..] => Some(Sign::Minus),
        ['(', ..] => Some(Sign::Open),
        [')', ..] => Some(Sign::Close),
        ['|', ..] => Some(Sign::Bar),
        [',', ..] => Some(Sign::Comma),
        _ => None,
    }
}

fn sign_width(sign: Sign) -> usize
    ensures { result ≡ sign_width sign }
{
    match sign {
        Sign::Left | Sign::Right => 2,
        _ => 1,
    }
}

/// How many characters of names a text begins with.
fn run_width(text: &[char]) -> usize
    ensures is { result ≡ run_width text.now }
    ensures within { result ≤ length text.now }
{
    for (place, c) in text.iter().enumerate() {
        if !goes_on(*c) {
            return place;
        }
    }
    text.len()
}

/// How many characters the name at the front of a text has: 0 where there is none.
fn name_width(text: &[char]) -> usize
    ensures is { result ≡ name_width text.now }
    ensures within { result ≤ length text.now }
{
    match text.first() {
        Some(c) if begins_name(*c) => run_width(text),
        _ => 0,
    }
}

/// The name at the front of a text.
fn name_at(alloc: Global, text: &[char]) -> Result<Option<(Token, usize)>, OutOfMemory>
    ensures is { IfOk result (λ found. found ≡ name_at text.now) }
    ensures within { IfOk result (λ found. IsWithin text.now found) }
{
    let width = name_width(text);
    if width == 0 {
        return Ok(None);
    }
    let mut chars = Vec::new(alloc);
    chars.extend_from_slice(&text[..width])?;
    Ok(Some((Token::Word(Name::new(chars)), width)))
}

/// The token at the front of a text, and how many characters it has.
fn token_at(alloc: Global, text: &[char]) -> Result<Option<(Token, usize)>, OutOfMemory>
    ensures is { IfOk result (λ found. found ≡ token_at text.now) }
    ensures within { IfOk result (λ found. IsWithin text.now found) }
{
    match sign_at(text) {
        Some(sign) => Ok(Some((Token::Mark(sign), sign_width(sign)))),
        None => name_at(alloc, text),
    }
}

/// The text from a place on.
fn tail(text: &[char], at: usize) -> &[char]
    requires { at ≤ length text.now }
    ensures { result.now ≡ drop at text.now }
{
    &text[at..]
}

/// The tokens of a text, up to the first character that begins none.
pub fn tokens_of(alloc: Global, text: &[char]) -> Result<Vec<Token>, OutOfMemory>
    ensures { IfOk result (λ tokens. tokens.items ≡ tokens_of text.now) }
{
    let mut tokens = Vec::new(alloc);
    let mut at = 0;
    for _ in 0..text.len() {
        let front = at + spaces(tail(text, at));
        match token_at(alloc, tail(text, front))? {
            Some((token, width)) => {
                tokens.push(token)?;
                at = front + width;
            }
            None => return Ok(tokens),
        }
    }
    Ok(tokens)
}
