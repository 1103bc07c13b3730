//! What follows a `(`: how a group is opened, options, or a comment.
ghost use Rattle.std.specs.Prelude.{◌≡◌, true, Some, None};
ghost use Rattle.tm_onig_parse.specs.inner.Reading.{Open, comment_at, named_at, behind_at, switch_at, groups_at, open_at};
ghost use Rattle.tm_onig_parse.specs.declared.groups.Opener.TheVariants.{Looks};
ghost use Rattle.tm_onig_parse.specs.inner.Views.{Gives, sym_of_token};

use crate::ParseFault;
use crate::groups::Opener;
use crate::letters::letter;
use crate::names::name_to;
use crate::tokens::Token;
use std::alloc::Global;
use tm_onig_atom::options::Options;

/// What follows `(?#`: up to the next `)` it means nothing.
#[tactic(auto, unfolding(crate::specs::inner::Reading::comment_at))]
fn comment(text: &[char]) -> Result<(Token, &[char]), ParseFault>
    ensures { Gives (λ x. (sym_of_token x.0, x.1.now)) result (comment_at text.now) }
{
    let mut rest = text;
    loop {
        match rest {
            [')', after @ ..] => return Ok((Token::Skips, after)),
            [_, after @ ..] => rest = after,
            [] => return Err(ParseFault::Unreadable),
        }
    }
}

/// A group without a name.
fn unnamed(opener: Opener, options: Options) -> Token
    ensures { sym_of_token result ≡ Open opener None options }
{
    Token::Open {
        opener,
        name: None,
        options,
    }
}

fn look(ahead: bool, negative: bool, options: Options) -> Token
    ensures { sym_of_token result ≡ Open (Looks ahead negative) None options }
{
    unnamed(Opener::Looks { ahead, negative }, options)
}

/// A group with a name that ends before this character.
fn named(
    alloc: Global,
    end: char,
    options: Options,
    text: &[char],
) -> Result<(Token, &[char]), ParseFault>
    ensures { Gives (λ x. (sym_of_token x.0, x.1.now)) result (named_at end options text.now) }
{
    match name_to(alloc, end, text) {
        Ok((name, rest)) => Ok((
            Token::Open {
                opener: Opener::Captures,
                name: Some(name),
                options,
            },
            rest,
        )),
        Err(fault) => Err(fault),
    }
}

/// What follows `(?<`.
#[tactic(auto, unfolding(crate::specs::inner::Reading::behind_at))]
fn behind(alloc: Global, options: Options, text: &[char]) -> Result<(Token, &[char]), ParseFault>
    ensures { Gives (λ x. (sym_of_token x.0, x.1.now)) result (behind_at options text.now) }
{
    match text {
        ['=', rest @ ..] => Ok((look(false, false, options), rest)),
        ['!', rest @ ..] => Ok((look(false, true, options), rest)),
        [_, ..] => named(alloc, '>', options, text),
        [] => Err(ParseFault::Unreadable),
    }
}

/// Letters of options up to a `:`, which opens a group under them, or a `)`.
#[tactic(auto, unfolding(crate::specs::inner::Reading::switch_at))]
fn switch(options: Options, text: &[char]) -> Result<(Token, &[char]), ParseFault>
    ensures { Gives (λ x. (sym_of_token x.0, x.1.now)) result (switch_at true options text.now) }
{
    let mut on = true;
    let mut now = options;
    let mut rest = text;
    loop {
        match rest {
            [':', after @ ..] => return Ok((unnamed(Opener::Groups, now), after)),
            [')', after @ ..] => return Ok((Token::Switches(now), after)),
            [c, after @ ..] => {
                let Some((next, changed)) = letter(on, now, *c) else {
                    return Err(ParseFault::Unreadable);
                };
                on = next;
                now = changed;
                rest = after;
            }
            [] => return Err(ParseFault::Unreadable),
        }
    }
}

/// What follows `(?`.
#[tactic(auto, unfolding(crate::specs::inner::Reading::groups_at))]
fn groups(alloc: Global, options: Options, text: &[char]) -> Result<(Token, &[char]), ParseFault>
    ensures { Gives (λ x. (sym_of_token x.0, x.1.now)) result (groups_at options text.now) }
{
    match text {
        ['>', rest @ ..] => Ok((unnamed(Opener::Keeps, options), rest)),
        ['=', rest @ ..] => Ok((look(true, false, options), rest)),
        ['!', rest @ ..] => Ok((look(true, true, options), rest)),
        ['<', rest @ ..] => behind(alloc, options, rest),
        ['\'', rest @ ..] => named(alloc, '\'', options, rest),
        ['#', rest @ ..] => comment(rest),
        [_, ..] => switch(options, text),
        [] => Err(ParseFault::Unreadable),
    }
}

/// What follows `(`.
#[tactic(auto, unfolding(crate::specs::inner::Reading::open_at))]
pub fn open(alloc: Global, options: Options, text: &[char]) -> Result<(Token, &[char]), ParseFault>
    ensures { Gives (λ x. (sym_of_token x.0, x.1.now)) result (open_at options text.now) }
{
    match text {
        ['?', rest @ ..] => groups(alloc, options, rest),
        _ => Ok((unnamed(Opener::Captures, options), text)),
    }
}
