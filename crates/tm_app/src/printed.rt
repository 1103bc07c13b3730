//! Printed texts: each is one line with its line break, in ASCII.
ghost use Rattle.std.specs.Prelude.{◌≡◌, ◌++◌, IfOk, string_bytes, codes, decimal, if◌then◌else◌};
ghost use Rattle.tm_app.specs.Printed.{turn_text, work_text, bang_text, line_text, token_text, tokens_text};

use crate::hex;
use std::alloc::Global;
use tm_defs::events::Turn;
use tm_defs::memory::OutOfMemory;
use tm_defs::tokens::{Token, Tokens};

/// The line that a turn prints.
pub fn turn_line(alloc: Global, turn: Turn) -> Result<String, OutOfMemory>
    ensures { IfOk result (λ text. string_bytes text ≡ turn_text turn) }
{
    match turn {
        Turn::Done(i) => Ok(format!(in alloc; "line {i}\n")?),
        Turn::Idle => Ok(String::from_str(alloc, "idle\n")?),
        Turn::Blocked(i) => bang_line(alloc, i),
    }
}

/// How many lines were done.
pub fn work_line(alloc: Global, done: u32) -> Result<String, OutOfMemory>
    ensures { IfOk result (λ text. string_bytes text ≡ work_text done) }
{
    Ok(format!(in alloc; "work {done}\n")?)
}

/// A line that costs more than the budget.
pub fn bang_line(alloc: Global, i: u32) -> Result<String, OutOfMemory>
    ensures { IfOk result (λ text. string_bytes text ≡ bang_text i) }
{
    Ok(format!(in alloc; "! {i}\n")?)
}

/// The line that a show prints of what is kept of line i.
pub fn shown_line(
    alloc: Global,
    accurate: bool,
    i: u32,
    tokens: &Option<Tokens>,
) -> Result<String, OutOfMemory>
    ensures { IfOk result (λ text. string_bytes text ≡ line_text accurate i tokens.now) }
{
    match tokens {
        None => Ok(format!(in alloc; "? {i}\n")?),
        Some(tokens) => {
            let list = tokens_line(alloc, tokens.as_slice())?;
            marked(alloc, mark(accurate), i, list.as_str())
        }
    }
}

fn mark(accurate: bool) -> &'static str
    ensures { result.now ≡ (if accurate then codes "= " else codes "~ ") }
{
    if accurate { "= " } else { "~ " }
}

fn marked(alloc: Global, mark: &str, i: u32, list: &str) -> Result<String, OutOfMemory>
    ensures { IfOk result (λ text. string_bytes text ≡ mark.now ++ decimal i ++ list.now ++ codes "\n") }
{
    let mut text = String::from_str(alloc, mark)?;
    let number = i.to_string(alloc)?;
    text.push_str(number.as_str())?;
    text.push_str(list)?;
    text.push_str("\n")?;
    Ok(text)
}

/// Tokens with a space before each.
fn tokens_line(alloc: Global, tokens: &[Token]) -> Result<String, OutOfMemory>
    ensures { IfOk result (λ text. string_bytes text ≡ tokens_text tokens.now) }
{
    let mut text = String::new(alloc);
    for token in tokens {
        let one = token_line(alloc, *token)?;
        text.push_str(one.as_str())?;
    }
    Ok(text)
}

/// A token with a space before it.
fn token_line(alloc: Global, token: Token) -> Result<String, OutOfMemory>
    ensures { IfOk result (λ text. string_bytes text ≡ codes " " ++ token_text token) }
{
    let start = token.start;
    let mut text = format!(in alloc; " {start}:")?;
    let meta = hex::eight(alloc, token.meta)?;
    text.push_str(meta.as_str())?;
    Ok(text)
}
