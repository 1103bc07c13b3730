//! The lists of candidates, made once for each rule.
//!
//! By the letter a list can double with each include, so each is counted before room is taken. Where
//! together they pass `CANDIDATE_LIMIT`, the answer is want of memory.
ghost use Rattle.std.specs.Prelude.{◌≡◌, ◌≤◌, ◌<◌, ◌+◌, ◌++◌, [], ◌∷◌, true, false, length, Some, IfOk, OnOk, flat_map, slice_get};
ghost use Rattle.tm_rules.specs.inner.Lists.{AreLists};
ghost use Rattle.tm_rules.specs.inner.Made.{AreListed, AreThere, OnlyAreListed};
ghost use Rattle.tm_rules.specs.Sizes.{rule_limit};
ghost use Rattle.tm_rules.specs.Candidates.{flattened, with_end_if, listed};
ghost use Rattle.tm_rules.specs.Readers.{is_only, patterns_of, end_last_in};

use crate::candidate::Candidate;
use crate::flow::only_patterns;
use crate::only_lists::{OnlyLists, push_all, room_behind};
use sqlite_items::Items;
use std::alloc::Global;
use tm_defs::memory::OutOfMemory;
use tm_defs::rules::Rule;

/// All lists together have no more candidates, and so take no more than 32 megabytes.
const CANDIDATE_LIMIT: u32 = 4_194_304;

/// The rules that a rule lists, and where it has an end, whether that is tried last.
fn patterns_and_end(rule: &Rule) -> (&[u32], Option<bool>)
    ensures patterns { result.0.now ≡ patterns_of (Some rule.now) }
    ensures end { result.1 ≡ end_last_in (Some rule.now) }
{
    match rule {
        Rule::Match { .. } => (&[], None),
        Rule::Only { patterns, .. } => (patterns.as_slice(), None),
        Rule::BeginWhile { patterns, .. } => (patterns.as_slice(), None),
        Rule::BeginEnd {
            patterns,
            end_last,
            ..
        } => (patterns.as_slice(), Some(*end_last)),
    }
}

/// Adds what these rules contribute, with an end last or first, or none.
fn push_with_end(
    rules: &[Rule],
    lists: &[Items<Candidate>],
    list: &mut Vec<Candidate>,
    numbers: &[u32],
    last: Option<bool>,
) -> Result<(), OutOfMemory>
    requires { AreThere rules.now lists.now numbers.now }
    ensures { OnOk result (list.new.items ≡ list.old.items ++ with_end_if last (flat_map (flattened rules.now []) numbers.now)) }
{
    match last {
        None => push_all(rules, lists, list, numbers)?,
        Some(true) => {
            push_all(rules, lists, list, numbers)?;
            list.push(Candidate::End)?;
        }
        Some(false) => {
            list.push(Candidate::End)?;
            push_all(rules, lists, list, numbers)?;
        }
    }
    Ok(())
}

/// The list of a rule that is no include-only rule; it is counted before room is taken.
fn own_list(
    alloc: Global,
    rules: &[Rule],
    lists: &[Items<Candidate>],
    number: u32,
    room: &mut u32,
) -> Result<Items<Candidate>, OutOfMemory>
    requires within { number < length rules.now }
    requires plain { is_only (slice_get rules.now number) ≡ false }
    requires only { OnlyAreListed rules.now lists.now }
    ensures { IfOk result (λ list. list ≡ listed rules.now number) }
{
    let (patterns, last) = patterns_and_end(&rules[number as usize]);
    let own = if last.is_some() { 2 } else { 1 };
    let left = room_behind(rules, lists, patterns, *room)?;
    if left < own {
        return Err(OutOfMemory);
    }
    let left = left - own;
    let mut list = Vec::with_capacity(alloc, (*room - left) as usize)?;
    *room = left;
    list.push(Candidate::Start(number))?;
    push_with_end(rules, lists, &mut list, patterns, last)?;
    Ok(Items::from_vec(list))
}

/// Makes the list of a rule, unless it is an include-only rule, which has one.
fn make(
    alloc: Global,
    rules: &[Rule],
    lists: &mut Vec<Items<Candidate>>,
    number: u32,
    room: &mut u32,
) -> Result<(), OutOfMemory>
    requires within { number < length rules.now }
    requires listed { AreListed rules.now lists.old.items number }
    ensures { OnOk result (AreListed rules.now lists.new.items (number + 1)) }
{
    if only_patterns(rules, number).is_some() {
        return Ok(());
    }
    let list = own_list(alloc, rules, lists.as_slice(), number, room)?;
    lists[number as usize] = list;
    Ok(())
}

/// The list of each rule.
pub fn lists_of(alloc: Global, rules: &[Rule]) -> Result<Vec<Items<Candidate>>, OutOfMemory>
    requires { length rules.now ≤ rule_limit }
    ensures { IfOk result (λ lists. AreLists rules.now lists.items) }
{
    let made = OnlyLists::build(alloc, rules, CANDIDATE_LIMIT)?;
    let mut lists = made.lists;
    let mut room = made.room;
    for i in 0..rules.len() {
        make(alloc, rules, &mut lists, i as u32, &mut room)?;
    }
    Ok(lists)
}
