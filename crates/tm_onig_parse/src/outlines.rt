//! The first reading of a text, which finds its capturing groups.
//!
//! A reference may stand before its group, and a number behind a backslash is one only up to the number
//! of groups. So the groups are read first, under the options that hold. What stands in them is read too,
//! to find where it ends, and let go.
ghost use Rattle.std.specs.Prelude.{◌≡◌, map, None};
ghost use Rattle.tm_onig_parse.specs.inner.Reading.{Open, Close, outline_start, outline_step, names_onward};
ghost use Rattle.tm_onig_parse.specs.inner.Views.{Gives, Steps, name_of_chars, names_known, outline_of, sym_of_token};

use crate::ParseFault;
use crate::groups::Opener;
use crate::names::GroupNames;
use crate::tokens::{Token, next_token};
use std::alloc::Global;
use std::mem;
use tm_onig_atom::options::{Options, none};
use tm_onig_atom::store::Sets;

/// What is known so far.
#[derive(Drop)]
pub struct Outlines {
    /// The options of the groups around, the nearest last.
    pub outer: Vec<Options>,
    pub top: Options,
    /// The groups that capture, each with its name if it has one.
    pub names: Vec<Option<Vec<char>>>,
}

/// Begins a group.
fn open(
    outline: &mut Outlines,
    opener: Opener,
    name: Option<Vec<char>>,
    options: Options,
) -> Result<(), ParseFault>
    ensures { Steps result (outline_of outline.new) (outline_step (Open opener (name_of_chars name) options) (outline_of outline.old)) }
{
    let outer = mem::replace(&mut outline.top, options);
    let Ok(()) = outline.outer.push(outer) else {
        return Err(ParseFault::OutOfMemory);
    };
    if opener == Opener::Captures {
        let Ok(()) = outline.names.push(name) else {
            return Err(ParseFault::OutOfMemory);
        };
    }
    Ok(())
}

/// Ends a group.
fn close(outline: &mut Outlines) -> Result<(), ParseFault>
    ensures { Steps result (outline_of outline.new) (outline_step Close (outline_of outline.old)) }
{
    let Some(outer) = outline.outer.pop() else {
        return Err(ParseFault::Unreadable);
    };
    outline.top = outer;
    Ok(())
}

/// Goes on by one thing.
fn take(outline: &mut Outlines, token: Token) -> Result<(), ParseFault>
    ensures { Steps result (outline_of outline.new) (outline_step (sym_of_token token) (outline_of outline.old)) }
{
    match token {
        Token::Open {
            opener,
            name,
            options,
        } => open(outline, opener, name, options),
        Token::Switches(options) => {
            outline.top = options;
            Ok(())
        }
        Token::Close => close(outline),
        Token::Means(_) | Token::Or | Token::Repeats { .. } | Token::Skips => Ok(()),
    }
}

/// The groups of the text, of which none is known yet.
fn names_from(
    alloc: Global,
    sets: &mut Sets,
    unread: &GroupNames,
    text: &[char],
) -> Result<Vec<Option<Vec<char>>>, ParseFault>
    requires { names_known unread.now ≡ None }
    ensures { Gives (λ v. map name_of_chars v.items) result (names_onward outline_start text.now) }
{
    let mut outline = Outlines {
        outer: Vec::new(alloc),
        top: none(),
        names: Vec::new(alloc),
    };
    let mut rest = text;
    while !rest.is_empty() {
        let (token, after) = match next_token(alloc, sets, unread, outline.top, rest) {
            Ok(found) => found,
            Err(fault) => return Err(fault),
        };
        if let Err(fault) = take(&mut outline, token) {
            return Err(fault);
        }
        rest = after;
    }
    let Outlines { names, .. } = outline;
    Ok(names)
}

/// The groups of the text.
pub fn group_names(
    alloc: Global,
    sets: &mut Sets,
    text: &[char],
) -> Result<Vec<Option<Vec<char>>>, ParseFault>
    ensures { Gives (λ v. map name_of_chars v.items) result (names_onward outline_start text.now) }
{
    names_from(alloc, sets, &GroupNames::Unread, text)
}
