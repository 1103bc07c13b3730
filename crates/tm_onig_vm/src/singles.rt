//! Patterns of exactly one character: a character, any character, or a set.
//!
//! A greedy loop over one is carried out at once, and so is a look at one.
ghost use Rattle.std.specs.Prelude.{◌≡◌, ◌+◌, ◌≤◌, ◌<◌, ◌^◌, false, true, length, drop, slice_get, IfOk, MatchOption};
ghost use Rattle.tm_onig_class.specs.Tree.{tree_of};
ghost use Rattle.tm_onig_search.specs.Places.{passes};
ghost use Rattle.tm_onig_vm.specs.inner.Single.{is_single, is_span, single_tree, single_has, fits, run_of, most_of};

use crate::places::{has_any, has_char, has_member};
use tm_defs::memory::OutOfMemory;
use tm_onig_class::patterns::Pattern;
use tm_onig_class::sets::Set;

/// A pattern of one character.
#[derive(Drop)]
pub enum Single {
    Char { c: char, fold: bool },
    Any { newline: bool },
    Member { set: Set, fold: bool },
}

/// The pattern, if it is one of one character.
#[tactic(auto, using(tm_onig_class::proofs::Trees::nodes))]
pub(crate) fn single_of(pattern: &Pattern) -> Result<Option<Single>, OutOfMemory>
    ensures { IfOk result (λ single. MatchOption single (is_single (tree_of pattern.now) ≡ false) (λ one. tree_of pattern.now ≡ single_tree one)) }
{
    match pattern {
        Pattern::Char { c, fold } => Ok(Some(Single::Char { c: *c, fold: *fold })),
        Pattern::Any { newline } => Ok(Some(Single::Any { newline: *newline })),
        Pattern::Set { set, fold } => Ok(Some(Single::Member {
            set: set.copy()?,
            fold: *fold,
        })),
        _ => Ok(None),
    }
}

/// Whether the greatest number of rounds is not below the least.
fn can_be(least: u32, greatest: Option<u32>) -> bool
    ensures { result ≡ fits least greatest }
{
    match greatest {
        None => true,
        Some(greatest) => least <= greatest,
    }
}

/// The body of a loop, if the loop is greedy and its body is of one character.
#[tactic(auto, using(crate::proofs::Rounds::span_single))]
pub(crate) fn span_of(
    body: &Pattern,
    least: u32,
    greatest: Option<u32>,
    greedy: bool,
) -> Result<Option<Single>, OutOfMemory>
    ensures { IfOk result (λ single. MatchOption single (is_span (tree_of body.now) least greatest greedy ≡ false)
        (λ one. (tree_of body.now ≡ single_tree one) × (greedy ≡ true) × (fits least greatest ≡ true))) }
{
    if !greedy {
        return Ok(None);
    }
    if !can_be(least, greatest) {
        return Ok(None);
    }
    let single = single_of(body)?;
    Ok(single)
}

/// Whether a character stands at the position, and passes.
pub(crate) fn stands(line: &[char], pos: usize, single: &Single) -> bool
    ensures { result ≡ passes (single_has single.now) (slice_get line.now pos) }
{
    match single {
        Single::Char { c, fold } => has_char(line, pos, *c, *fold),
        Single::Any { newline } => has_any(line, pos, *newline),
        Single::Member { set, fold } => has_member(line, pos, set, *fold),
    }
}

/// How many rounds a loop may make in a line.
fn most(greatest: Option<u32>, line: &[char]) -> usize
    ensures { result ≡ most_of greatest line.now }
{
    match greatest {
        None => line.len(),
        Some(greatest) => greatest as usize,
    }
}

/// How many characters pass from the position on, as far as a loop may go.
pub(crate) fn run_length(line: &[char], pos: usize, single: &Single, greatest: Option<u32>) -> usize
    requires within { pos ≤ length line.now }
    ensures run { result ≡ run_of (single_has single.now) (most_of greatest line.now) (drop pos line.now) }
    ensures few { pos + result ≤ length line.now }
{
    let limit = most(greatest, line);
    let rounds = limit.min(line.len() - pos);
    for i in 0..rounds {
        if !stands(line, pos + i, single) {
            return i;
        }
    }
    rounds
}
