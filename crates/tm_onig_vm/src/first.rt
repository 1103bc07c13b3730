//! Which characters a match of a pattern may start before: a table of bits for ASCII, and one bit each for
//! all other characters and for the text's end.
//!
//! What stands before the start counts too: behind a character that is no line break `^`, `\A` and `\G` fail,
//! `\b` wants a word's character on exactly one side, and a pattern that begins with `(?<=\.)` starts behind no
//! word's character. So there is a table for each of three cases.
ghost use Rattle.std.specs.Prelude.{◌≡◌, ℕ, ◌<◌, ◌||◌, ◌&&◌, not, ◌==◌, Bool, true, false, Option, Some, map, IsFalse, nat_lt, ⊤, if◌then◌else◌};
ghost use Rattle.tm_onig_class.specs.Ascii.{has_bit};
ghost use Rattle.tm_onig_class.specs.declared.listed.Listed.TheVariants as L;
ghost use Rattle.tm_onig_class.specs.Listed.{in_listed};
ghost use Rattle.tm_onig_class.specs.Tree.{Tree, tree_of, trees};
ghost use Rattle.tm_onig_search.specs.Starts.{may_pass, may_hold, may_start, may_start_row, may_start_any};
ghost use Rattle.tm_onig_vm.specs.First.{in_first, in_class, first_behind, may_be, may_follow, AreFirst, AreFirsts, leaf_test};

use crate::places::{has_any, has_char, has_member};
use crate::words::{ASCII_OTHER, ASCII_WORD, is_word};
use tm_onig_class::patterns::{Pattern, Position};

/// Characters: those of ASCII as bits, all others, and the text's end.
#[derive(Clone, Copy)]
pub struct First {
    pub ascii: u128,
    pub beyond: bool,
    pub end: bool,
}

/// Where nothing is known of the character before, behind a word's character, and behind any other.
#[derive(Clone, Copy)]
pub struct Firsts {
    pub unknown: First,
    pub word: First,
    pub other: First,
}

/// Whether the class is among them.
pub(crate) fn admits(first: First, class: u32) -> bool
    ensures { result ≡ in_class first class }
{
    if class < 128 {
        (first.ascii >> class) & 1 == 1
    } else if class == 128 {
        first.beyond
    } else {
        first.end
    }
}

/// The tables of what stands before.
pub(crate) fn behind_of(firsts: &Firsts, behind: Option<bool>) -> First
    ensures { result ≡ first_behind firsts.now behind }
{
    match behind {
        None => firsts.unknown,
        Some(word) => { if word { firsts.word } else { firsts.other } }
    }
}

/// The table with one more bit, if it is to be set.
fn with_bit(table: u128, code: u32, is: bool) -> u128
    requires { code < 128 }
    ensures { (i : ℕ) → has_bit result i ≡ (has_bit table i || (is && (i == code))) }
{
    if is { table | (1 << code) } else { table }
}

/// All, or none.
fn all(are: bool) -> First
    ensures { (next : Option ℕ) → in_first result next ≡ are }
{
    if are {
        First {
            ascii: u128::MAX,
            beyond: true,
            end: true,
        }
    } else {
        First {
            ascii: 0,
            beyond: false,
            end: false,
        }
    }
}

fn either(a: First, b: First) -> First
    ensures { (next : Option ℕ) → in_first result next ≡ (in_first a next || in_first b next) }
{
    First {
        ascii: a.ascii | b.ascii,
        beyond: a.beyond | b.beyond,
        end: a.end | b.end,
    }
}

fn both(a: First, b: First) -> First
    ensures { (next : Option ℕ) → in_first result next ≡ (in_first a next && in_first b next) }
{
    First {
        ascii: a.ascii & b.ascii,
        beyond: a.beyond & b.beyond,
        end: a.end & b.end,
    }
}

/// Whether a pattern of one character passes it.
fn leaf_has(pattern: &Pattern, c: char) -> bool
    ensures { result ≡ leaf_test (tree_of pattern.now) c }
{
    let line = [c];
    match pattern {
        Pattern::Char { c, fold } => has_char(&line, 0, *c, *fold),
        Pattern::Any { newline } => has_any(&line, 0, *newline),
        Pattern::Set { set, fold } => has_member(&line, 0, set, *fold),
        _ => false,
    }
}

/// The characters that a pattern of one character passes.
fn leaf(pattern: &Pattern) -> First
    ensures { (next : Option ℕ) → in_first result next ≡ may_pass false (leaf_test (tree_of pattern.now)) next }
{
    let mut ascii = 0;
    for code in 0..128u8 {
        ascii = with_bit(ascii, code as u32, leaf_has(pattern, code as char));
    }
    First {
        ascii,
        beyond: true,
        end: false,
    }
}

/// The characters of words, or those that are none and the text's end.
fn word(is: bool) -> First
    ensures { (next : Option ℕ) → in_first result next ≡ (if is then may_pass false (in_listed L.Word) next else may_pass true (λ c. not (in_listed L.Word c)) next) }
{
    if is {
        First {
            ascii: ASCII_WORD,
            beyond: true,
            end: false,
        }
    } else {
        First {
            ascii: ASCII_OTHER,
            beyond: true,
            end: true,
        }
    }
}

/// The text's end, and a line break if it is to be one too.
fn at_end(newline: bool) -> First
    ensures { (next : Option ℕ) → in_first result next ≡ may_pass true (λ c. newline && (c == 0x0A)) next }
{
    First {
        ascii: with_bit(0, 10, newline),
        beyond: true,
        end: true,
    }
}

/// What may stand after a place.
fn place(behind: Option<bool>, place: Position) -> First
    ensures { (next : Option ℕ) → in_first result next ≡ may_hold behind place next }
{
    match place {
        Position::LineEnd => at_end(true),
        Position::BeforeFinal => at_end(true),
        Position::TextEnd => at_end(false),
        Position::LineStart => match behind {
            None => all(true),
            Some(_) => all(false),
        },
        Position::TextStart => match behind {
            None => all(true),
            Some(_) => all(false),
        },
        Position::SearchStart => match behind {
            None => all(true),
            Some(_) => all(false),
        },
        Position::Word => match behind {
            None => all(true),
            Some(is) => if is { word(false) } else { word(true) },
        },
        Position::NotWord => match behind {
            None => all(true),
            Some(is) => if is { word(true) } else { word(false) },
        },
    }
}

/// What the pattern and then what follows may start before, where what follows may start before `rest`.
#[cycle(start)]
#[tactic(auto, using(tm_onig_class::proofs::Trees::nodes), unfolding(tm_onig_search::specs::Starts::may_start))]
pub(crate) fn start(pattern: &Pattern, behind: Option<bool>, rest: First) -> First
    ensures { (next : Option ℕ) → in_first result next ≡ may_start behind next (tree_of pattern.now) (in_first rest next) }
{
    match pattern {
        Pattern::Empty => rest,
        Pattern::Char { .. } => leaf(pattern),
        Pattern::Any { .. } => leaf(pattern),
        Pattern::Set { .. } => leaf(pattern),
        Pattern::Cat(parts) => start_row(parts.as_slice(), behind, rest),
        Pattern::Alt(parts) => start_any(parts.as_slice(), behind, rest),
        Pattern::Group { body, .. } => start(body, behind, rest),
        Pattern::Atomic(body) => start(body, behind, rest),
        Pattern::Repeat { body, least, .. } => {
            let round = start(body, behind, rest);
            if *least == 0 {
                either(round, rest)
            } else {
                round
            }
        }
        Pattern::Look {
            body,
            ahead,
            negative,
        } => {
            if *ahead {
                if *negative {
                    rest
                } else {
                    both(start(body, behind, all(true)), rest)
                }
            } else {
                rest
            }
        }
        Pattern::Back { .. } => all(true),
        Pattern::Position(at) => both(place(behind, *at), rest),
    }
}

#[cycle(start)]
fn start_row(parts: &[Pattern], behind: Option<bool>, rest: First) -> First
    ensures { (next : Option ℕ) → in_first result next ≡ may_start_row behind next (trees (map tree_of parts.now)) (in_first rest next) }
{
    let mut row = rest;
    for i in (0..parts.len()).rev() {
        row = start(&parts[i], behind, row);
    }
    row
}

#[cycle(start)]
fn start_any(parts: &[Pattern], behind: Option<bool>, rest: First) -> First
    ensures { (next : Option ℕ) → in_first result next ≡ may_start_any behind next (trees (map tree_of parts.now)) (in_first rest next) }
{
    let mut any = all(false);
    for i in (0..parts.len()).rev() {
        any = either(start(&parts[i], behind, rest), any);
    }
    any
}

/// Whether a word's character, or one that is none, may be one that the pattern passes.
fn may_be(pattern: &Pattern, word: bool) -> bool
    ensures { result ≡ may_be word (tree_of pattern.now) }
{
    match pattern {
        Pattern::Char { c, fold } => *fold || is_word(*c) == word,
        _ => true,
    }
}

/// Whether a match of the pattern may start behind such a character.
#[cycle(follows)]
#[tactic(auto, using(tm_onig_class::proofs::Trees::nodes), unfolding(crate::specs::First::may_follow))]
fn follows(pattern: &Pattern, word: bool) -> bool
    ensures { result ≡ may_follow word (tree_of pattern.now) }
{
    match pattern {
        Pattern::Empty => true,
        Pattern::Char { .. } => true,
        Pattern::Any { .. } => true,
        Pattern::Set { .. } => true,
        Pattern::Cat(parts) => {
            let parts = parts.as_slice();
            if parts.len() == 0 {
                true
            } else {
                follows(&parts[0], word)
            }
        }
        Pattern::Alt(_) => true,
        Pattern::Group { body, .. } => follows(body, word),
        Pattern::Atomic(body) => follows(body, word),
        Pattern::Repeat { .. } => true,
        Pattern::Look {
            body,
            ahead,
            negative,
        } => {
            if *ahead {
                true
            } else if *negative {
                true
            } else {
                may_be(body, word)
            }
        }
        Pattern::Back { .. } => true,
        Pattern::Position(_) => true,
    }
}

/// What a match of the pattern may start before, behind a character that is known.
fn start_behind(pattern: &Pattern, word: bool) -> First
    ensures { (next : Option ℕ) → in_first result next ≡ (may_follow word (tree_of pattern.now) && may_start (Some word) next (tree_of pattern.now) true) }
{
    if follows(pattern, word) {
        start(pattern, Some(word), all(true))
    } else {
        all(false)
    }
}

/// What a match of the pattern may start before.
pub(crate) fn all_firsts(pattern: &Pattern) -> Firsts
    ensures { AreFirsts (tree_of pattern.now) result }
{
    Firsts {
        unknown: start(pattern, None, all(true)),
        word: start_behind(pattern, true),
        other: start_behind(pattern, false),
    }
}
