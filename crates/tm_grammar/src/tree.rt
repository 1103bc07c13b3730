//! The raw tree of a value.
//!
//! It is built down a value that `serde_json` has read, which nests at most 127 deep. Each rule looks
//! up its keys once, so the time is that of the value's size and of the paths, of which each rule
//! holds its own.
ghost use Rattle.std.specs.Prelude.{◌≡◌, ◌++◌, IfOk, codes, option_map, option_and_then};
ghost use Rattle.serde_json.specs.Find.{get};
ghost use Rattle.serde_json.specs.View.{view, items_view, members_view};
ghost use Rattle.tm_grammar.specs.Paths.{key_step};
ghost use Rattle.tm_grammar.specs.Tree.{rule_of, capture_of, patterns_of, rules_from, repository_from, rules_named, captures_of, captures_from, captures_named};

use crate::raw::{RawCaptures, RawList, RawNames, RawRule};
use crate::{numbers, paths, values};
use serde_json::{Map, Value};
use std::alloc::Global;
use tm_defs::memory::OutOfMemory;
use tm_defs::texts::Name;

/// The rule that a value is.
#[cycle(build)]
fn rule_in(alloc: Global, path: Vec<char>, value: &Value) -> Result<RawRule, OutOfMemory>
    ensures { IfOk result (λ rule. rule ≡ rule_of path.items (view value.now)) }
{
    let at = path.as_slice();
    let captures = captures_at(alloc, at, value, "captures")?;
    let begin_captures = captures_at(alloc, at, value, "beginCaptures")?;
    let end_captures = captures_at(alloc, at, value, "endCaptures")?;
    let while_captures = captures_at(alloc, at, value, "whileCaptures")?;
    let patterns = patterns_at(alloc, at, value, "patterns")?;
    let repository = repository_at(alloc, at, value, "repository")?;
    Ok(RawRule {
        name: values::text_at(alloc, value, "name")?,
        content_name: values::text_at(alloc, value, "contentName")?,
        match_text: values::text_at(alloc, value, "match")?,
        begin: values::text_at(alloc, value, "begin")?,
        end_text: values::text_at(alloc, value, "end")?,
        while_text: values::text_at(alloc, value, "while")?,
        include: values::text_at(alloc, value, "include")?,
        end_last: values::flag_at(value, "applyEndPatternLast"),
        captures,
        begin_captures,
        end_captures,
        while_captures,
        patterns,
        repository,
        path: Name::new(path),
    })
}

/// The capture that a value is: of its keys only these are read.
#[cycle(build)]
fn capture_in(alloc: Global, path: Vec<char>, value: &Value) -> Result<RawRule, OutOfMemory>
    ensures { IfOk result (λ rule. rule ≡ capture_of path.items (view value.now)) }
{
    let at = path.as_slice();
    let name = values::text_at(alloc, value, "name")?;
    let content_name = values::text_at(alloc, value, "contentName")?;
    let patterns = patterns_at(alloc, at, value, "patterns")?;
    let repository = repository_at(alloc, at, value, "repository")?;
    Ok(RawRule::plain(Name::new(path), name, content_name, patterns, repository))
}

/// The list of rules at a key.
#[cycle(build)]
pub fn patterns_at(
    alloc: Global,
    path: &[char],
    value: &Value,
    key: &str,
) -> Result<Option<RawList>, OutOfMemory>
    ensures { IfOk result (λ rules. rules ≡ option_and_then (patterns_of (path.now ++ key_step key.now)) (get key.now (view value.now))) }
{
    let Some(found) = values::member(value, key) else {
        return Ok(None);
    };
    let Some(items) = values::items_of(found) else {
        return Ok(None);
    };
    let path = paths::with_key(alloc, path, key)?;
    Ok(Some(rules_in(alloc, path.as_slice(), items)?))
}

#[cycle(build)]
fn rules_in(alloc: Global, path: &[char], items: &[Value]) -> Result<RawList, OutOfMemory>
    ensures { IfOk result (λ rules. rules ≡ rules_from path.now 0 (items_view items.now)) }
{
    let mut rules = RawList::new(alloc);
    for (place, item) in items.iter().enumerate() {
        let path = paths::with_place(alloc, path, place)?;
        rules.push(rule_in(alloc, path, item)?)?;
    }
    Ok(rules)
}

/// The rules at a key, by name.
#[cycle(build)]
pub fn repository_at(
    alloc: Global,
    path: &[char],
    value: &Value,
    key: &str,
) -> Result<RawNames, OutOfMemory>
    ensures { IfOk result (λ rules. rules ≡ repository_from (path.now ++ key_step key.now) (get key.now (view value.now))) }
{
    let Some(found) = values::member(value, key) else {
        return Ok(RawNames::new(alloc));
    };
    let Some(members) = values::members_of(found) else {
        return Ok(RawNames::new(alloc));
    };
    let path = paths::with_key(alloc, path, key)?;
    rules_by_name(alloc, path.as_slice(), members)
}

#[cycle(build)]
fn rules_by_name(
    alloc: Global,
    path: &[char],
    members: &Map<String, Value>,
) -> Result<RawNames, OutOfMemory>
    ensures { IfOk result (λ rules. rules ≡ rules_named path.now (members_view members.now.entries)) }
{
    let mut rules = RawNames::new(alloc);
    for (key, member) in members.iter() {
        let name = paths::name_of(alloc, key.as_str())?;
        let path = paths::with_key(alloc, path, key.as_str())?;
        rules.push((name, rule_in(alloc, path, member)?))?;
    }
    Ok(rules)
}

/// The captures at a key.
#[cycle(build)]
fn captures_at(
    alloc: Global,
    path: &[char],
    value: &Value,
    key: &str,
) -> Result<Option<RawCaptures>, OutOfMemory>
    ensures { IfOk result (λ captures. captures ≡ option_and_then (captures_of (path.now ++ key_step key.now)) (get key.now (view value.now))) }
{
    let Some(found) = values::member(value, key) else {
        return Ok(None);
    };
    let path = paths::with_key(alloc, path, key)?;
    captures_in(alloc, path.as_slice(), found)
}

/// Captures as a list or an object.
#[cycle(build)]
fn captures_in(
    alloc: Global,
    path: &[char],
    value: &Value,
) -> Result<Option<RawCaptures>, OutOfMemory>
    ensures { IfOk result (λ captures. captures ≡ captures_of path.now (view value.now)) }
{
    if let Some(items) = values::items_of(value) {
        return Ok(Some(captures_by_place(alloc, path, items)?));
    }
    match values::members_of(value) {
        Some(members) => Ok(Some(captures_by_key(alloc, path, members)?)),
        None => Ok(None),
    }
}

#[cycle(build)]
fn captures_by_place(
    alloc: Global,
    path: &[char],
    items: &[Value],
) -> Result<RawCaptures, OutOfMemory>
    ensures { IfOk result (λ captures. captures ≡ captures_from path.now 0 (items_view items.now)) }
{
    let mut captures = RawCaptures::new(alloc);
    for (place, item) in items.iter().enumerate() {
        if let Some(number) = numbers::place_number(place) {
            let path = paths::with_place(alloc, path, place)?;
            captures.push((number, capture_in(alloc, path, item)?))?;
        }
    }
    Ok(captures)
}

#[cycle(build)]
fn captures_by_key(
    alloc: Global,
    path: &[char],
    members: &Map<String, Value>,
) -> Result<RawCaptures, OutOfMemory>
    ensures { IfOk result (λ captures. captures ≡ captures_named path.now (members_view members.now.entries)) }
{
    let mut captures = RawCaptures::new(alloc);
    for (key, member) in members.iter() {
        if let Some(number) = numbers::key_number(key.as_str()) {
            let path = paths::with_key(alloc, path, key.as_str())?;
            captures.push((number, capture_in(alloc, path, member)?))?;
        }
    }
    Ok(captures)
}
