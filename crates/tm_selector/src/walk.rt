//! The walk over a selector's tokens that finds out what matches, from the last token to the first.
//!
//! It keeps no stack. While what is read matches so far, nothing of the groups around the present one need be
//! kept: in each, all operands behind match and no choice behind does. Once that is not so, the walk passes over
//! tokens to the next choice or to the beginning of the group, and counts the groups on its way.
//!
//! ```text
//! a - (b | c) on the scopes a, b:
//!   )         a group, live
//!   c         a path that matches nowhere
//!   |         the choice failed; the next one is live
//!   b         a path from scope 1
//!   (         the group matches
//!   -         turned: it does not
//!   a         failed
//! ```
ghost use Rattle.std.specs.Prelude.{◌≡◌, ◌<◌};
ghost use Rattle.tm_selector.specs.Selector.{lesser};
ghost use Rattle.tm_selector.specs.Walk.{pending_matches, named, turned_mode, closed_mode, opened_mode, barred_mode, mode_matches, ended, parted, barred, walked_on, walked, IsBelow};

use crate::names::{Scopes, place_above};
use crate::tokens::{Sign, Token};
use tm_defs::texts::Name;

/// Where an alternative's rule stands among others: before them by `L:`, behind them by `R:`.
#[derive(Clone, Copy, Debug, PartialEq, Eq)]
pub enum Side {
    Before,
    Plain,
    After,
}

/// The operand that is read, where all behind it in its choice match.
#[derive(Clone, Copy, Debug, PartialEq, Eq)]
pub enum Pending {
    /// Whether it matches; names before it are an operand of their own.
    Known(bool),
    /// A path, and the place of its first name, where it matches.
    Path(Option<usize>),
}

/// How the walk goes on.
#[derive(Clone, Copy, Debug, PartialEq, Eq)]
pub enum Mode {
    Live(Pending),
    /// The choice failed: on to the next one, or to the group's beginning. So many groups stand between.
    Failed(usize),
    /// A choice matched: on to the group's beginning. So many groups stand between.
    Passed(usize),
}

/// What is known of the tokens behind.
#[derive(Clone, Copy, Debug, PartialEq, Eq)]
pub struct Walk {
    /// How many groups stand around.
    pub depth: usize,
    pub mode: Mode,
    pub side: Side,
    /// The least side among the alternatives that match.
    pub least: Option<Side>,
}

fn pending_matches(pending: Pending) -> bool
    ensures { result ≡ pending_matches pending }
{
    match pending {
        Pending::Known(matches) => matches,
        Pending::Path(place) => place.is_some(),
    }
}

/// The mode behind one more name.
fn named<S: Scopes>(scopes: &S, name: &Name, mode: Mode) -> Mode
    ensures { result ≡ named (S.names scopes.now) name.now mode }
{
    match mode {
        Mode::Live(Pending::Path(Some(place))) => Mode::Live(Pending::Path(place_above(
            scopes,
            name.as_slice(),
            place,
        ))),
        Mode::Live(Pending::Known(true)) => {
            Mode::Live(Pending::Path(place_above(scopes, name.as_slice(), scopes.count())))
        }
        Mode::Live(Pending::Known(false)) => Mode::Failed(0),
        mode => mode,
    }
}

/// The mode behind a `-`.
fn turned_mode(mode: Mode) -> Mode
    ensures { result ≡ turned_mode mode }
{
    match mode {
        Mode::Live(pending) => Mode::Live(Pending::Known(!pending_matches(pending))),
        mode => mode,
    }
}

/// The mode behind the end of a group, which is read first.
fn closed_mode(mode: Mode) -> Mode
    requires { IsBelow usize.MAX mode }
    ensures { result ≡ closed_mode mode }
{
    match mode {
        Mode::Live(pending) if pending_matches(pending) => Mode::Live(Pending::Known(true)),
        Mode::Live(_) => Mode::Failed(1),
        Mode::Failed(between) => Mode::Failed(between + 1),
        Mode::Passed(between) => Mode::Passed(between + 1),
    }
}

/// The mode behind the beginning of a group.
fn opened_mode(mode: Mode) -> Mode
    ensures { result ≡ opened_mode mode }
{
    match mode {
        Mode::Live(pending) => Mode::Live(Pending::Known(pending_matches(pending))),
        Mode::Failed(0) => Mode::Live(Pending::Known(false)),
        Mode::Passed(0) => Mode::Live(Pending::Known(true)),
        Mode::Failed(between) => Mode::Failed(between - 1),
        Mode::Passed(between) => Mode::Passed(between - 1),
    }
}

/// The mode behind the sign between two choices.
fn barred_mode(mode: Mode) -> Mode
    ensures { result ≡ barred_mode mode }
{
    match mode {
        Mode::Live(pending) if pending_matches(pending) => Mode::Passed(0),
        Mode::Live(_) | Mode::Failed(0) => Mode::Live(Pending::Known(true)),
        mode => mode,
    }
}

/// Whether what is read as an alternative matches.
fn mode_matches(mode: Mode) -> bool
    ensures { result ≡ mode_matches mode }
{
    match mode {
        Mode::Live(pending) => pending_matches(pending),
        _ => false,
    }
}

/// The lesser of a side and perhaps another.
fn lesser(side: Side, other: Option<Side>) -> Side
    ensures { result ≡ lesser side other }
{
    match (side, other) {
        (side, None) => side,
        (Side::Before, _) | (Side::Plain, Some(Side::Before)) => Side::Before,
        (Side::Plain, _) => Side::Plain,
        (Side::After, Some(other)) => other,
    }
}

/// The least side with that of the alternative that is read.
pub fn ended(walk: Walk) -> Option<Side>
    ensures { result ≡ ended walk }
{
    if walk.depth == 0 && mode_matches(walk.mode) {
        return Some(lesser(walk.side, walk.least));
    }
    walk.least
}

/// The walk behind a comma.
fn parted(walk: Walk) -> Walk
    ensures { result ≡ parted walk.depth walk }
{
    if walk.depth != 0 {
        return Walk {
            mode: barred_mode(walk.mode),
            ..walk
        };
    }
    Walk {
        depth: 0,
        mode: Mode::Live(Pending::Known(true)),
        side: Side::Plain,
        least: ended(walk),
    }
}

/// The walk behind a bar.
fn barred(walk: Walk) -> Walk
    ensures { result ≡ barred walk.depth walk }
{
    if walk.depth == 0 {
        return walk;
    }
    Walk {
        mode: barred_mode(walk.mode),
        ..walk
    }
}

/// The walk behind one more token.
fn walked_on<S: Scopes>(scopes: &S, token: &Token, walk: Walk) -> Walk
    requires depth { walk.depth < usize.MAX }
    requires between { IsBelow usize.MAX walk.mode }
    ensures { result ≡ walked_on (S.names scopes.now) token.now walk }
{
    match token {
        Token::Word(name) => Walk {
            mode: named(scopes, name, walk.mode),
            ..walk
        },
        Token::Mark(Sign::Left) => Walk {
            side: Side::Before,
            ..walk
        },
        Token::Mark(Sign::Right) => Walk {
            side: Side::After,
            ..walk
        },
        Token::Mark(Sign::Minus) => Walk {
            mode: turned_mode(walk.mode),
            ..walk
        },
        Token::Mark(Sign::Open) => Walk {
            depth: walk.depth.saturating_sub(1),
            mode: opened_mode(walk.mode),
            ..walk
        },
        Token::Mark(Sign::Close) => Walk {
            depth: walk.depth + 1,
            mode: closed_mode(walk.mode),
            ..walk
        },
        Token::Mark(Sign::Bar) => barred(walk),
        Token::Mark(Sign::Comma) => parted(walk),
    }
}

/// The walk over all tokens, from the last to the first.
pub fn walked<S: Scopes>(scopes: &S, tokens: &[Token]) -> Walk
    ensures { result ≡ walked (S.names scopes.now) tokens.now }
{
    let mut walk = Walk {
        depth: 0,
        mode: Mode::Live(Pending::Known(true)),
        side: Side::Plain,
        least: None,
    };
    let mut place = tokens.len();
    while place > 0 {
        place -= 1;
        walk = walked_on(scopes, &tokens[place], walk);
    }
    walk
}
