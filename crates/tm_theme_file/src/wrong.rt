//! The walk that finds the first wrong value of a theme's file.
//!
//! A path is put together on the way back, once a wrong value is found.
ghost use Rattle.std.specs.Prelude.{◌≡◌, IfOk, option_map};
ghost use Rattle.std.specs.Option.{option_or};
ghost use Rattle.serde_json.specs.Find.{get};
ghost use Rattle.serde_json.specs.View.{view, items_view};
ghost use Rattle.tm_grammar.specs.Paths.{key_step, place_step};
ghost use Rattle.tm_theme_file.specs.Written.{is_colour};
ghost use Rattle.tm_theme_file.specs.Wrong.{below, misfit, wrong_at, wrong_item, wrong_text, wrong_colour, unless_colour, wrong_scope, is_object, wrong_settings, wrong_rule, wrong_rules, rules_key, wrong_in};

use crate::fault::Wrong;
use crate::written::is_colour;
use serde_json::Value;
use std::alloc::Global;
use tm_defs::memory::OutOfMemory;
use tm_defs::texts::Name;
use tm_grammar::paths;

fn misfit(alloc: Global) -> Option<Wrong>
    ensures { result ≡ misfit }
{
    Some(Wrong::Shape(Name::new(Vec::new(alloc))))
}

/// What is wrong in the member of a key, by its path from the object on.
fn below_key(alloc: Global, key: &str, wrong: Option<Wrong>) -> Result<Option<Wrong>, OutOfMemory>
    ensures { IfOk result (λ found. found ≡ below (key_step key.now) wrong) }
{
    match wrong {
        Some(Wrong::Shape(path)) => Ok(Some(Wrong::Shape(paths::below_key(alloc, key, &path)?))),
        Some(Wrong::Colour(path)) => Ok(Some(Wrong::Colour(paths::below_key(alloc, key, &path)?))),
        None => Ok(None),
    }
}

/// What is wrong in the item at a place, by its path from the list on.
fn below_place(
    alloc: Global,
    place: usize,
    wrong: Option<Wrong>,
) -> Result<Option<Wrong>, OutOfMemory>
    ensures { IfOk result (λ found. found ≡ below (place_step place) wrong) }
{
    match wrong {
        Some(Wrong::Shape(path)) => {
            Ok(Some(Wrong::Shape(paths::below_place(alloc, place, &path)?)))
        }
        Some(Wrong::Colour(path)) => {
            Ok(Some(Wrong::Colour(paths::below_place(alloc, place, &path)?)))
        }
        None => Ok(None),
    }
}

/// A text.
fn wrong_text(alloc: Global, value: &Value) -> Option<Wrong>
    ensures { result ≡ wrong_text (view value.now) }
{
    if value.is_string() {
        None
    } else {
        misfit(alloc)
    }
}

/// A text that is a colour, or empty.
fn wrong_colour(alloc: Global, value: &Value) -> Option<Wrong>
    ensures { result ≡ wrong_colour (view value.now) }
{
    match value.as_str() {
        Some(text) => {
            if text.is_empty() || is_colour(text.as_bytes()) {
                None
            } else {
                Some(Wrong::Colour(Name::new(Vec::new(alloc))))
            }
        }
        None => misfit(alloc),
    }
}

fn wrong_text_item(alloc: Global, items: &[Value]) -> Result<Option<Wrong>, OutOfMemory>
    ensures { IfOk result (λ found. found ≡ wrong_item wrong_text 0 (items_view items.now)) }
{
    for (place, item) in items.iter().enumerate() {
        if let Some(wrong) = wrong_text(alloc, item) {
            return below_place(alloc, place, Some(wrong));
        }
    }
    Ok(None)
}

/// A text or a list of texts.
fn wrong_scope(alloc: Global, value: &Value) -> Result<Option<Wrong>, OutOfMemory>
    ensures { IfOk result (λ found. found ≡ wrong_scope (view value.now)) }
{
    match value {
        Value::String(_) => Ok(None),
        Value::Array(items) => wrong_text_item(alloc, items.as_slice()),
        _ => Ok(misfit(alloc)),
    }
}

fn text_at(alloc: Global, value: &Value, key: &str) -> Result<Option<Wrong>, OutOfMemory>
    ensures { IfOk result (λ found. found ≡ wrong_at wrong_text key.now (get key.now (view value.now))) }
{
    match value.get(key) {
        Some(found) => below_key(alloc, key, wrong_text(alloc, found)),
        None => Ok(None),
    }
}

fn colour_at(alloc: Global, value: &Value, key: &str) -> Result<Option<Wrong>, OutOfMemory>
    ensures { IfOk result (λ found. found ≡ wrong_at wrong_colour key.now (get key.now (view value.now))) }
{
    match value.get(key) {
        Some(found) => below_key(alloc, key, wrong_colour(alloc, found)),
        None => Ok(None),
    }
}

fn scope_at(alloc: Global, value: &Value, key: &str) -> Result<Option<Wrong>, OutOfMemory>
    ensures { IfOk result (λ found. found ≡ wrong_at wrong_scope key.now (get key.now (view value.now))) }
{
    match value.get(key) {
        Some(found) => below_key(alloc, key, wrong_scope(alloc, found)?),
        None => Ok(None),
    }
}

/// What a rule sets.
fn wrong_settings(alloc: Global, value: &Value) -> Result<Option<Wrong>, OutOfMemory>
    ensures { IfOk result (λ found. found ≡ wrong_settings (view value.now)) }
{
    if !value.is_object() {
        return Ok(misfit(alloc));
    }
    if let Some(wrong) = colour_at(alloc, value, "background")? {
        return Ok(Some(wrong));
    }
    if let Some(wrong) = text_at(alloc, value, "fontStyle")? {
        return Ok(Some(wrong));
    }
    colour_at(alloc, value, "foreground")
}

fn settings_at(alloc: Global, value: &Value, key: &str) -> Result<Option<Wrong>, OutOfMemory>
    ensures { IfOk result (λ found. found ≡ wrong_at wrong_settings key.now (get key.now (view value.now))) }
{
    match value.get(key) {
        Some(found) => below_key(alloc, key, wrong_settings(alloc, found)?),
        None => Ok(None),
    }
}

/// A rule.
fn wrong_rule(alloc: Global, value: &Value) -> Result<Option<Wrong>, OutOfMemory>
    ensures { IfOk result (λ found. found ≡ wrong_rule (view value.now)) }
{
    if !value.is_object() {
        return Ok(misfit(alloc));
    }
    if let Some(wrong) = scope_at(alloc, value, "scope")? {
        return Ok(Some(wrong));
    }
    settings_at(alloc, value, "settings")
}

fn wrong_rule_item(alloc: Global, items: &[Value]) -> Result<Option<Wrong>, OutOfMemory>
    ensures { IfOk result (λ found. found ≡ wrong_item wrong_rule 0 (items_view items.now)) }
{
    for (place, item) in items.iter().enumerate() {
        if let Some(wrong) = wrong_rule(alloc, item)? {
            return below_place(alloc, place, Some(wrong));
        }
    }
    Ok(None)
}

/// A list of rules.
fn wrong_rules(alloc: Global, value: &Value) -> Result<Option<Wrong>, OutOfMemory>
    ensures { IfOk result (λ found. found ≡ wrong_rules (view value.now)) }
{
    match value {
        Value::Array(items) => wrong_rule_item(alloc, items.as_slice()),
        _ => Ok(misfit(alloc)),
    }
}

/// The key of the rules.
pub fn rules_key(value: &Value) -> &'static str
    ensures { result.now ≡ rules_key (view value.now) }
{
    match value.get("tokenColors") {
        Some(_) => "tokenColors",
        None => "settings",
    }
}

/// What is first wrong in a theme.
pub fn wrong_in(alloc: Global, value: &Value) -> Result<Option<Wrong>, OutOfMemory>
    ensures { IfOk result (λ found. found ≡ wrong_in (view value.now)) }
{
    if !value.is_object() {
        return Ok(misfit(alloc));
    }
    let key = rules_key(value);
    match value.get(key) {
        Some(found) => below_key(alloc, key, wrong_rules(alloc, found)?),
        None => Ok(None),
    }
}
