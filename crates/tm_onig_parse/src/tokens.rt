//! The smallest things that are written, one at a time.
ghost use Rattle.std.specs.Prelude.{◌≡◌, ◌∷◌, option_map, Some};
ghost use Rattle.tm_onig_class.specs.Tree.{tree_of};
ghost use Rattle.tm_onig_atom.specs.inner.ClassReading.{class_at};
ghost use Rattle.tm_onig_atom.specs.inner.Reading as Atom;
ghost use Rattle.tm_onig_parse.specs.Characters.{single_tree, place_letter};
ghost use Rattle.tm_onig_parse.specs.Things.{sign_bounds};
ghost use Rattle.tm_onig_parse.specs.Meaning.{leaf};
ghost use Rattle.tm_onig_parse.specs.inner.Reading.{token_at, times_at, lazily_exact, interval_at, braces_at, means_escape, place_or, escape_at, line_end, bounds_or, sign_or, means_class};
ghost use Rattle.tm_onig_parse.specs.inner.Views.{Gives, sym_of_token, built_of, names_known};

use crate::groups::Opener;
use crate::intervals::{bounds, interval};
use crate::names::GroupNames;
use crate::openings::open;
use crate::part::{DEEPEST, Part};
use crate::parts::{leaf, nested};
use crate::quantifiers::Manner;
use crate::references::{begins_reference, reference};
use crate::{ParseFault, fault_of};
use std::alloc::Global;
use tm_onig_atom::atoms::{class, escape};
use tm_onig_atom::options::Options;
use tm_onig_atom::store::Sets;
use tm_onig_class::listed::is_space;
use tm_onig_class::patterns::{Pattern, Position};

/// One thing that is written, by what it means.
#[derive(Drop)]
pub enum Token {
    Means(Part),
    Open {
        opener: Opener,
        name: Option<Vec<char>>,
        /// Those that hold inside.
        options: Options,
    },
    /// Options that hold to the end of the group around.
    Switches(Options),
    Close,
    Or,
    Repeats {
        least: u32,
        greatest: Option<u32>,
        manner: Manner,
    },
    /// What means nothing.
    Skips,
}

/// What a character means that stands alone.
#[tactic(auto, using(tm_onig_class::proofs::Trees::nodes), unfolding(crate::specs::Characters::single_tree, crate::specs::Characters::is_special))]
fn single(options: Options, c: char) -> Option<Part>
    ensures { option_map built_of result ≡ option_map leaf (single_tree options c) }
{
    match c {
        '.' => Some(leaf(Pattern::Any {
            newline: options.newline,
        })),
        '^' => Some(leaf(Pattern::Position(Position::LineStart))),
        '$' => Some(leaf(Pattern::Position(Position::LineEnd))),
        '(' | ')' | '[' | '|' | '?' | '*' | '+' | '\\' => None,
        _ => Some(leaf(Pattern::Char {
            c,
            fold: options.fold,
        })),
    }
}

/// The bounds of a quantifier's sign.
#[tactic(auto, unfolding(crate::specs::Things::sign_bounds))]
fn sign(c: char) -> Option<(u32, Option<u32>)>
    ensures { result ≡ sign_bounds c }
{
    match c {
        '?' => Some((0, Some(1))),
        '*' => Some((0, None)),
        '+' => Some((1, None)),
        _ => None,
    }
}

/// What follows a sign or a brace with these bounds: a `?` sets the manner, and so does a `+` where it is
/// a mark.
#[tactic(auto, unfolding(crate::specs::inner::Reading::times_at))]
fn times(
    least: u32,
    greatest: Option<u32>,
    question: Manner,
    plus: bool,
    text: &[char],
) -> Result<(Token, &[char]), ParseFault>
    ensures { Gives (λ x. (sym_of_token x.0, x.1.now)) result (times_at least greatest question plus text.now) }
{
    let (manner, rest) = match text {
        ['?', rest @ ..] => (question, rest),
        ['+', rest @ ..] if plus => (Manner::Possessive, rest),
        _ => (Manner::Greedy, text),
    };
    Ok((
        Token::Repeats {
            least,
            greatest,
            manner,
        },
        rest,
    ))
}

/// What a `?` makes of bounds between braces.
fn lazily(exact: bool) -> Manner
    ensures { result ≡ lazily_exact exact }
{
    if exact {
        Manner::Optional
    } else {
        Manner::Lazy
    }
}

/// What follows a `{` that begins bounds.
fn braces(text: &[char]) -> Result<(Token, &[char]), ParseFault>
    ensures { Gives (λ x. (sym_of_token x.0, x.1.now)) result (braces_at (interval_at text.now)) }
{
    match interval(text) {
        Some((found, rest)) => times(
            found.least,
            found.greatest,
            lazily(found.exact),
            false,
            rest,
        ),
        None => Err(ParseFault::Unreadable),
    }
}

/// The place that a letter stands for behind a backslash.
#[tactic(auto, unfolding(crate::specs::Characters::place_letter))]
fn place(c: char) -> Option<Position>
    ensures { result ≡ place_letter c }
{
    match c {
        'b' => Some(Position::Word),
        'B' => Some(Position::NotWord),
        'A' => Some(Position::TextStart),
        'G' => Some(Position::SearchStart),
        'Z' => Some(Position::BeforeFinal),
        'z' => Some(Position::TextEnd),
        _ => None,
    }
}

/// What is an escape in classes too.
fn escaped<'a>(
    alloc: Global,
    sets: &mut Sets,
    options: Options,
    text: &'a [char],
) -> Result<(Token, &'a [char]), ParseFault>
    ensures { Gives (λ x. (sym_of_token x.0, x.1.now)) result (means_escape (Atom.escape_at options text.now)) }
{
    match escape(alloc, sets, options, text) {
        Ok((pattern, rest)) => Ok((Token::Means(leaf(pattern)), rest)),
        Err(fault) => Err(fault_of(fault)),
    }
}

/// A place, or else an escape.
#[tactic(auto, using(tm_onig_class::proofs::Trees::nodes))]
fn place_or<'a>(
    alloc: Global,
    sets: &mut Sets,
    options: Options,
    c: char,
    text: &'a [char],
    rest: &'a [char],
) -> Result<(Token, &'a [char]), ParseFault>
    requires { text.now ≡ c ∷ rest.now }
    ensures { Gives (λ x. (sym_of_token x.0, x.1.now)) result (place_or options (place_letter c) c rest.now) }
{
    match place(c) {
        Some(place) => Ok((Token::Means(leaf(Pattern::Position(place))), rest)),
        None => escaped(alloc, sets, options, text),
    }
}

/// What follows a backslash.
#[tactic(auto, unfolding(crate::specs::inner::Reading::escape_at))]
fn behind_slash<'a>(
    alloc: Global,
    sets: &mut Sets,
    groups: &GroupNames,
    options: Options,
    text: &'a [char],
) -> Result<(Token, &'a [char]), ParseFault>
    ensures { Gives (λ x. (sym_of_token x.0, x.1.now)) result (escape_at (names_known groups.now) options text.now) }
{
    match text {
        [c, rest @ ..] => {
            if begins_reference(*c) {
                return reference(alloc, groups, options, text);
            }
            place_or(alloc, sets, options, *c, text, rest)
        }
        _ => Err(ParseFault::Unreadable),
    }
}

/// What follows a `[`.
fn brackets<'a>(
    alloc: Global,
    sets: &mut Sets,
    options: Options,
    text: &'a [char],
) -> Result<(Token, &'a [char]), ParseFault>
    ensures { Gives (λ x. (sym_of_token x.0, x.1.now)) result (means_class (class_at 200 options text.now)) }
{
    match class(alloc, sets, options, DEEPEST, text) {
        Ok(((pattern, height), rest)) => Ok((Token::Means(nested(pattern, height)), rest)),
        Err(fault) => Err(fault_of(fault)),
    }
}

/// The end of the line.
#[tactic(auto, unfolding(crate::specs::inner::Reading::line_end))]
fn line_end(text: &[char]) -> &[char]
    ensures { result.now ≡ line_end text.now }
{
    let mut rest = text;
    loop {
        match rest {
            ['\n', ..] => return rest,
            [_, after @ ..] => rest = after,
            [] => return rest,
        }
    }
}

/// Bounds, or a character that stands alone, and what follows.
fn bounds_or(options: Options, c: char, text: &[char]) -> Result<(Token, &[char]), ParseFault>
    ensures { Gives (λ x. (sym_of_token x.0, x.1.now)) result (bounds_or options c text.now) }
{
    if c == '{' && bounds(text) {
        return braces(text);
    }
    match single(options, c) {
        Some(part) => Ok((Token::Means(part), text)),
        None => Err(ParseFault::Unreadable),
    }
}

/// A quantifier, or what is skipped, or a character that stands alone, and what follows it.
fn sign_or(options: Options, c: char, text: &[char]) -> Result<(Token, &[char]), ParseFault>
    ensures { Gives (λ x. (sym_of_token x.0, x.1.now)) result (sign_or options (sign_bounds c) c text.now) }
{
    match sign(c) {
        Some((least, greatest)) => times(least, greatest, Manner::Lazy, true, text),
        None => {
            if options.extended && is_space(c) {
                return Ok((Token::Skips, text));
            }
            if options.extended && c == '#' {
                return Ok((Token::Skips, line_end(text)));
            }
            bounds_or(options, c, text)
        }
    }
}

/// The first thing of the text, and what follows it, where the pattern has these groups.
#[tactic(auto, unfolding(crate::specs::inner::Reading::token_at))]
pub fn next_token<'a>(
    alloc: Global,
    sets: &mut Sets,
    groups: &GroupNames,
    options: Options,
    text: &'a [char],
) -> Result<(Token, &'a [char]), ParseFault>
    ensures { Gives (λ x. (sym_of_token x.0, x.1.now)) result (token_at (names_known groups.now) options text.now) }
{
    match text {
        ['(', rest @ ..] => open(alloc, options, rest),
        [')', rest @ ..] => Ok((Token::Close, rest)),
        ['|', rest @ ..] => Ok((Token::Or, rest)),
        ['\\', rest @ ..] => behind_slash(alloc, sets, groups, options, rest),
        ['[', rest @ ..] => brackets(alloc, sets, options, rest),
        [c, rest @ ..] => sign_or(options, *c, rest),
        [] => Err(ParseFault::Unreadable),
    }
}
