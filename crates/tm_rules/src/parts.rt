//! The parts of a rule: its captures by group, and its patterns by number.
//!
//! The rules were counted before, so there is a number for each. Where a count here finds none, which
//! cannot be, the answer is want of memory.
ghost use Rattle.std.specs.Prelude.{◌≡◌, [], ◌++◌, IfOk, OnOk};
ghost use Rattle.tm_rules.specs.Rules.{capture_at, captures_after, captures_from, item_numbers, numbers_from, lone_include};
ghost use Rattle.std.specs.Map.{values_of};
ghost use Rattle.tm_rules.specs.Sizes.{filled};
ghost use Rattle.tm_rules.specs.Tree.{keys_of, tree_of, captures_of, captures_of_if, items_of, items_of_if};
ghost use Rattle.tm_grammar.specs.declared.raw.RawRule.TheViews.{out-RawRule};

use crate::includes::{Home, included_rule};
use crate::loaded::Repository;
use crate::sizes::{self, filled};
use std::alloc::Global;
use std::collections::BTreeMap;
use tm_defs::memory::OutOfMemory;
use tm_defs::rules::{Capture, Captures, Numbers};
use tm_defs::texts::Name;
use tm_grammar::raw::{RawCaptures, RawRule};

/// An equal text, where there is one.
pub fn copy_if(text: &Option<Name>) -> Result<Option<Name>, OutOfMemory>
    ensures { IfOk result (λ copy. copy ≡ text.now) }
{
    match text {
        Some(name) => Ok(Some(name.copy()?)),
        None => Ok(None),
    }
}

/// An equal text, where there is one that is not empty.
pub fn copy_filled(text: &Option<Name>) -> Result<Option<Name>, OutOfMemory>
    ensures { IfOk result (λ copy. copy ≡ filled text.now) }
{
    match filled(text) {
        Some(name) => Ok(Some(name.copy()?)),
        None => Ok(None),
    }
}

/// A capture. If it is a rule, it has this number.
fn capture_at(number: u32, group: u32, raw: &RawRule) -> Result<Capture, OutOfMemory>
    ensures { IfOk result (λ capture. capture ≡ capture_at number group (tree_of raw.now)) }
{
    let rule = if sizes::has_patterns(raw) {
        Some(number)
    } else {
        None
    };
    Ok(Capture {
        group,
        name: copy_if(&raw.name)?,
        content_name: copy_if(&raw.content_name)?,
        rule,
    })
}

/// Captures by their groups, of which the rules are numbered from `first` on.
fn captures_by_group(
    alloc: Global,
    captures: &[(u32, RawRule)],
    first: u32,
) -> Result<BTreeMap<u32, Capture>, OutOfMemory>
    ensures { IfOk result (λ cs. cs.entries ≡ captures_after [] first (captures_of captures.now)) }
{
    let mut by_group = BTreeMap::new(alloc);
    let mut number = first;
    for i in 0..captures.len() {
        let group = captures[i].0;
        let capture = capture_at(number, group, &captures[i].1)?;
        by_group.insert(group, capture)?;
        let Some(behind) = sizes::behind_capture(&captures[i].1, number) else {
            return Err(OutOfMemory);
        };
        number = behind;
    }
    Ok(by_group)
}

/// The captures of a map, in the order of their groups.
fn in_order(alloc: Global, by_group: BTreeMap<u32, Capture>) -> Result<Captures, OutOfMemory>
    ensures { IfOk result (λ cs. cs ≡ values_of by_group.entries) }
{
    let mut list = Vec::new(alloc);
    for capture in by_group.into_values() {
        list.push(capture)?;
    }
    Ok(Captures::new(list))
}

/// Captures by rising group, of which the rules are numbered from `first` on.
pub fn captures_from(
    alloc: Global,
    captures: &Option<RawCaptures>,
    first: u32,
) -> Result<Captures, OutOfMemory>
    ensures { IfOk result (λ cs. cs ≡ captures_from first (captures_of_if captures.now)) }
{
    match captures {
        Some(captures) => in_order(alloc, captures_by_group(alloc, captures.as_slice(), first)?),
        None => Ok(Captures::new(Vec::new(alloc))),
    }
}

/// Adds the rule that an item of a list names or is, if there is one.
fn push_item(
    numbers: &mut Vec<u32>,
    home: &Home,
    scopes: &[Repository],
    item: &RawRule,
    number: u32,
) -> Result<(), OutOfMemory>
    ensures { OnOk result (numbers.new.items ≡ numbers.old.items
        ++ item_numbers home.now.loaded.now home.now.grammar.now scopes.now number (filled (keys_of (tree_of item.now)).include)) }
{
    match filled(&item.include) {
        Some(include) => {
            if let Some(number) = included_rule(home, scopes, include.as_slice()) {
                numbers.push(number)?;
            }
            Ok(())
        }
        None => Ok(numbers.push(number)?),
    }
}

/// Adds the rules that the items of a list name or are. Those that are rules are numbered from `first` on.
fn push_items(
    numbers: &mut Vec<u32>,
    home: &Home,
    scopes: &[Repository],
    items: &[RawRule],
    first: u32,
) -> Result<(), OutOfMemory>
    ensures { OnOk result (numbers.new.items ≡ numbers.old.items ++ numbers_from home.now.loaded.now home.now.grammar.now scopes.now first (items_of items.now)) }
{
    let mut number = first;
    for i in 0..items.len() {
        push_item(numbers, home, scopes, &items[i], number)?;
        let Some(behind) = sizes::behind_item(&items[i], number) else {
            return Err(OutOfMemory);
        };
        number = behind;
    }
    Ok(())
}

/// Adds the one pattern of a rule that is nothing but an include.
fn push_lone(
    numbers: &mut Vec<u32>,
    home: &Home,
    scopes: &[Repository],
    raw: &RawRule,
) -> Result<(), OutOfMemory>
    ensures { OnOk result (numbers.new.items ≡ numbers.old.items ++ lone_include home.now.loaded.now home.now.grammar.now scopes.now (keys_of (tree_of raw.now))) }
{
    if filled(&raw.match_text).is_some() || raw.begin.is_some() || raw.patterns.is_some() {
        return Ok(());
    }
    if let Some(include) = filled(&raw.include) {
        if let Some(number) = included_rule(home, scopes, include.as_slice()) {
            numbers.push(number)?;
        }
    }
    Ok(())
}

/// The rules that the patterns of a rule name or are. Those that are rules are numbered from `first` on.
pub fn patterns_of(
    alloc: Global,
    home: &Home,
    scopes: &[Repository],
    raw: &RawRule,
    first: u32,
) -> Result<Numbers, OutOfMemory>
    ensures { let loaded = home.now.loaded.now in let grammar = home.now.grammar.now in
        IfOk result (λ ns. ns ≡ numbers_from loaded grammar scopes.now first (items_of_if (out-RawRule raw.now).patterns)
        ++ lone_include loaded grammar scopes.now (keys_of (tree_of raw.now))) }
{
    let mut numbers = Vec::new(alloc);
    if let Some(items) = &raw.patterns {
        push_items(&mut numbers, home, scopes, items.as_slice(), first)?;
    }
    push_lone(&mut numbers, home, scopes, raw)?;
    Ok(Numbers::new(numbers))
}
