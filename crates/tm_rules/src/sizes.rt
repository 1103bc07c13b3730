//! How many rules of a grammar get numbers.
//!
//! Each function gives the first number behind the rules that it counts, or none where there are more
//! rules than numbers. It goes down a raw rule, which nests no deeper than its file.
ghost use Rattle.std.specs.Prelude.{◌≡◌, ◌+◌, ◌<◌, option_map, MatchOption, if◌then◌else◌};
ghost use Rattle.tm_rules.specs.Sizes.{rule_limit, Counts, filled, is_include, has_patterns, inside_size, captures_size, items_size, names_size};
ghost use Rattle.tm_rules.specs.Rules.{firsts};
ghost use Rattle.tm_rules.specs.Tree.{tree_of, captures_of, captures_of_if, items_of, items_of_if, names_of};

use tm_defs::texts::Name;
use tm_grammar::raw::{RawCaptures, RawList, RawRule};

/// There are no more rules than this, so that the number of each fits 16 bits.
pub const RULE_LIMIT: u32 = 65_535;

/// A text, where it is there and not empty: an empty `match`, `end`, `while` or `include` is none.
pub fn filled(text: &Option<Name>) -> Option<&Name>
    ensures { option_map (λ t. t.now) result ≡ filled text.now }
{
    match text {
        Some(name) if !name.as_slice().is_empty() => Some(name),
        _ => None,
    }
}

/// Whether an item of a list is an include, and so no rule.
pub fn is_include(raw: &RawRule) -> bool
    ensures { result ≡ is_include (tree_of raw.now) }
{
    filled(&raw.include).is_some()
}

/// Whether a capture is a rule.
pub fn has_patterns(raw: &RawRule) -> bool
    ensures { result ≡ has_patterns (tree_of raw.now) }
{
    raw.patterns.is_some()
}

/// The number behind this one.
pub fn next(from: u32) -> Option<u32>
    ensures { Counts 1 from result }
{
    if from < RULE_LIMIT {
        Some(from + 1)
    } else {
        None
    }
}

/// Behind all rules inside a rule.
#[cycle(sizes)]
#[tactic(auto, using(crate::proofs::Opened::opened))]
pub fn behind_inside(raw: &RawRule, from: u32) -> Option<u32>
    ensures { Counts (inside_size (tree_of raw.now)) from result }
{
    let from = behind_captures(&raw.begin_captures, from)?;
    let from = behind_captures(&raw.captures, from)?;
    let from = behind_captures(&raw.end_captures, from)?;
    let from = behind_items(&raw.patterns, from)?;
    let from = behind_names(raw.repository.as_slice(), from)?;
    behind_captures(&raw.while_captures, from)
}

/// Behind a rule and all rules inside it.
#[cycle(sizes)]
pub fn behind_rule(raw: &RawRule, from: u32) -> Option<u32>
    ensures { Counts (1 + inside_size (tree_of raw.now)) from result }
{
    behind_inside(raw, next(from)?)
}

/// Behind the rules of a capture.
#[cycle(sizes)]
pub fn behind_capture(raw: &RawRule, from: u32) -> Option<u32>
    ensures { Counts ((if has_patterns (tree_of raw.now) then 1 else 0) + inside_size (tree_of raw.now)) from result }
{
    if has_patterns(raw) {
        behind_inside(raw, next(from)?)
    } else {
        behind_inside(raw, from)
    }
}

/// Behind the rules of an item of a list.
#[cycle(sizes)]
pub fn behind_item(raw: &RawRule, from: u32) -> Option<u32>
    ensures { Counts (if is_include (tree_of raw.now) then 0 else 1 + inside_size (tree_of raw.now)) from result }
{
    if is_include(raw) {
        Some(from)
    } else {
        behind_rule(raw, from)
    }
}

/// Behind the rules of captures.
#[cycle(sizes)]
pub fn behind_captures(captures: &Option<RawCaptures>, from: u32) -> Option<u32>
    ensures { Counts (captures_size (captures_of_if captures.now)) from result }
{
    let Some(captures) = captures else {
        return Some(from);
    };
    let all = captures.as_slice();
    let mut behind = from;
    for i in 0..all.len() {
        behind = behind_capture(&all[i].1, behind)?;
    }
    Some(behind)
}

/// Behind the rules of a list.
#[cycle(sizes)]
pub fn behind_items(items: &Option<RawList>, from: u32) -> Option<u32>
    ensures { Counts (items_size (items_of_if items.now)) from result }
{
    let Some(items) = items else {
        return Some(from);
    };
    let all = items.as_slice();
    let mut behind = from;
    for i in 0..all.len() {
        behind = behind_item(&all[i], behind)?;
    }
    Some(behind)
}

/// Behind the rules of a repository.
#[cycle(sizes)]
pub fn behind_names(names: &[(Name, RawRule)], from: u32) -> Option<u32>
    ensures { Counts (names_size (names_of names.now)) from result }
{
    let mut behind = from;
    for i in 0..names.len() {
        behind = behind_rule(&names[i].1, behind)?;
    }
    Some(behind)
}

/// The number of the first rule in each part of a rule.
#[derive(Clone, Copy)]
pub struct FirstNumbers {
    pub begin_captures: u32,
    pub captures: u32,
    pub end_captures: u32,
    pub patterns: u32,
    pub repository: u32,
    pub while_captures: u32,
}

/// The numbers in the parts of a rule, where all that is inside it is numbered from `from` on.
#[tactic(auto, using(crate::proofs::Opened::tree_of_out))]
pub fn first_numbers(raw: &RawRule, from: u32) -> Option<FirstNumbers>
    ensures { MatchOption result (rule_limit < from + inside_size (tree_of raw.now)) (λ f. f ≡ firsts from (tree_of raw.now)) }
{
    let captures = behind_captures(&raw.begin_captures, from)?;
    let end_captures = behind_captures(&raw.captures, captures)?;
    let patterns = behind_captures(&raw.end_captures, end_captures)?;
    let repository = behind_items(&raw.patterns, patterns)?;
    let while_captures = behind_names(raw.repository.as_slice(), repository)?;
    Some(FirstNumbers {
        begin_captures: from,
        captures,
        end_captures,
        patterns,
        repository,
        while_captures,
    })
}
