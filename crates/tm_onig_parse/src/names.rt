//! Names of groups.
ghost use Rattle.std.specs.Prelude.{◌≡◌, Some};
ghost use Rattle.tm_onig_atom.specs.Escapes.{begins};
ghost use Rattle.tm_onig_parse.specs.Names.{is_name_char, starts_name};
ghost use Rattle.tm_onig_parse.specs.inner.Reading.{name_at, name_to};
ghost use Rattle.tm_onig_parse.specs.inner.Views.{Gives};

use crate::ParseFault;
use std::alloc::Global;
use tm_onig_atom::slices::tail;

/// The capturing groups of a pattern, as far as they are known.
#[derive(Drop)]
pub enum GroupNames {
    /// Not yet: they are being read.
    Unread,
    /// In the order of their opening, each with its name if it has one.
    Read(Vec<Option<Vec<char>>>),
}

fn is_name_char(c: char) -> bool
    ensures { result ≡ is_name_char c }
{
    c.is_ascii_alphanumeric() || c == '_'
}

/// Whether there is a first character, and it is no digit.
fn starts_name(name: &[char]) -> bool
    ensures { result ≡ starts_name name.now }
{
    match name {
        [c, ..] => !c.is_ascii_digit(),
        _ => false,
    }
}

/// The characters of a name at the front, and what stands behind them.
#[tactic(auto, unfolding(crate::specs::inner::Reading::name_at))]
fn name_chars(alloc: Global, text: &[char]) -> Result<(Vec<char>, &[char]), ParseFault>
    ensures { Gives (λ x. (x.0.items, x.1.now)) result (Some (name_at text.now)) }
{
    let mut name = Vec::new(alloc);
    let mut rest = text;
    loop {
        match rest {
            [c, after @ ..] => {
                if !is_name_char(*c) {
                    return Ok((name, rest));
                }
                let Ok(()) = name.push(*c) else {
                    return Err(ParseFault::OutOfMemory);
                };
                rest = after;
            }
            [] => return Ok((name, rest)),
        }
    }
}

/// Whether the text begins with the character.
pub fn begins(end: char, text: &[char]) -> bool
    ensures { result ≡ begins end text.now }
{
    match text {
        [c, ..] => *c == end,
        _ => false,
    }
}

/// A name that ends before this character, and what stands behind that.
pub fn name_to(alloc: Global, end: char, text: &[char]) -> Result<(Vec<char>, &[char]), ParseFault>
    ensures { Gives (λ x. (x.0.items, x.1.now)) result (name_to end text.now) }
{
    let (name, rest) = match name_chars(alloc, text) {
        Ok(found) => found,
        Err(fault) => return Err(fault),
    };
    if starts_name(&name) && begins(end, rest) {
        Ok((name, tail(rest)))
    } else {
        Err(ParseFault::Unreadable)
    }
}
