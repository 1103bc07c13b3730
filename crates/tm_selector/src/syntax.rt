//! Which tokens of a text a selector keeps.
//!
//! A text is read as far as it can be the beginning of a selector. What is open there is closed, and signs that
//! wait for an operand go: `a (b | -` is read as `a (b)`, and `a,,b` as `a`.
ghost use Rattle.std.specs.Prelude.{◌≡◌, ◌<◌, IfOk};
ghost use Rattle.tm_selector.specs.declared.syntax.Behind.TheVariants.{Start};
ghost use Rattle.tm_selector.specs.Syntax.{ends_operand, behind_of, open_behind, fits, fitting, trimmed, groups_behind, closed};

use crate::tokens::{Sign, Token};
use std::alloc::Global;
use tm_defs::memory::OutOfMemory;

/// What a token stands behind: nothing of its alternative, the end of an operand, or a sign that waits for one.
#[derive(Clone, Copy, Debug, PartialEq, Eq)]
pub enum Behind {
    Start,
    Operand,
    Operator,
}

/// Whether the token is the end of an operand.
fn ends_operand(token: &Token) -> bool
    ensures { result ≡ ends_operand token.now }
{
    match token {
        Token::Word(_) | Token::Mark(Sign::Close) => true,
        _ => false,
    }
}

/// What is behind the token, where this many groups were open before it.
fn behind_of(groups: usize, token: &Token) -> Behind
    ensures { result ≡ behind_of groups token.now }
{
    match token {
        Token::Word(_) | Token::Mark(Sign::Close) => Behind::Operand,
        Token::Mark(Sign::Comma) if groups == 0 => Behind::Start,
        _ => Behind::Operator,
    }
}

/// How many groups are open behind the token.
fn open_behind(groups: usize, token: &Token) -> usize
    requires { groups < usize.MAX }
    ensures { result ≡ open_behind groups token.now }
{
    match token {
        Token::Mark(Sign::Open) => groups + 1,
        Token::Mark(Sign::Close) => groups.saturating_sub(1),
        _ => groups,
    }
}

/// Whether the token may stand here.
fn fits(behind: Behind, groups: usize, token: &Token) -> bool
    ensures { result ≡ fits behind groups token.now }
{
    match token {
        Token::Mark(Sign::Left | Sign::Right) => behind == Behind::Start,
        Token::Mark(Sign::Comma) => behind == Behind::Operand,
        Token::Mark(Sign::Bar | Sign::Close) => behind == Behind::Operand && groups != 0,
        _ => true,
    }
}

/// How many of the tokens fit, up to the first that does not.
pub fn fitting(tokens: &[Token]) -> usize
    ensures { result ≡ fitting Start 0 tokens.now }
{
    let mut groups = 0;
    let mut behind = Behind::Start;
    for (place, token) in tokens.iter().enumerate() {
        if !fits(behind, groups, token) {
            return place;
        }
        behind = behind_of(groups, token);
        groups = open_behind(groups, token);
    }
    tokens.len()
}

/// Drops the signs at the end that wait for an operand.
pub fn trim(tokens: &mut Vec<Token>)
    ensures { tokens.new.items ≡ trimmed tokens.old.items }
{
    while let Some(last) = tokens.last() {
        if ends_operand(last) {
            return;
        }
        tokens.pop();
    }
}

/// How many groups are open behind the tokens.
fn groups_behind(tokens: &[Token]) -> usize
    ensures { result ≡ groups_behind 0 tokens.now }
{
    let mut groups = 0;
    for token in tokens {
        groups = open_behind(groups, token);
    }
    groups
}

/// Closes the groups that are open behind the tokens.
pub fn close(tokens: &mut Vec<Token>) -> Result<(), OutOfMemory>
    ensures { IfOk result (λ _. tokens.new.items ≡ closed tokens.old.items) }
{
    let groups = groups_behind(tokens.as_slice());
    for _ in 0..groups {
        tokens.push(Token::Mark(Sign::Close))?;
    }
    Ok(())
}
