//! The rules of a theme's file.
ghost use Rattle.std.specs.Prelude.{◌≡◌, ℕ, [], IfOk, option_map, codes};
ghost use Rattle.serde_json.specs.Find.{get};
ghost use Rattle.serde_json.specs.View.{view, items_view};
ghost use Rattle.tm_theme_file.specs.Written.{font_of};
ghost use Rattle.tm_theme_file.specs.Read.{text_is_blank, items_are_blank, sets_defaults, text_alternatives, items_alternatives, scope_alternatives, setting_text, colour_in, rule_of, rules_of, rules_at, rules_in};

use crate::written::{add_alternatives, font_of, is_blank, upper};
use crate::wrong::rules_key;
use serde_json::Value;
use std::alloc::Global;
use std::marker::Model;
use tm_defs::memory::OutOfMemory;
use tm_defs::texts::{Name, ScopePath};

/// The words of alternatives.
#[derive(Drop)]
pub struct Alternatives {
    all: Vec<ScopePath>,
}

impl Model for Alternatives {
    ghost use Rattle.std.specs.Prelude.{ℕ, List};

    ghost Value = { List (List (List ℕ)) };

    ghost view = { λ a. a.all.items };
}

impl Alternatives {
    fn new(all: Vec<ScopePath>) -> Self
        ensures { result ≡ all.items }
    {
        Alternatives { all }
    }

    pub fn as_slice(&self) -> &[ScopePath]
        ensures { result.now ≡ self.now }
    {
        self.all.as_slice()
    }
}

/// A rule as its file says it.
#[derive(Drop)]
pub struct WrittenRule {
    /// Whether it sets the defaults.
    pub plain: bool,
    pub alternatives: Alternatives,
    pub font: Option<u16>,
    /// A colour in upper case.
    pub foreground: Option<Name>,
    pub background: Option<Name>,
}

fn text_is_blank(value: &Value) -> bool
    ensures { result ≡ text_is_blank (view value.now) }
{
    match value.as_str() {
        Some(text) => is_blank(text.as_bytes()),
        None => true,
    }
}

fn items_are_blank(items: &[Value]) -> bool
    ensures { result ≡ items_are_blank (items_view items.now) }
{
    for item in items {
        if !text_is_blank(item) {
            return false;
        }
    }
    true
}

/// Whether a rule of this scope sets the defaults.
fn sets_defaults(value: &Value) -> bool
    ensures { result ≡ sets_defaults (get (codes "scope") (view value.now)) }
{
    match value.get("scope") {
        Some(Value::String(text)) => is_blank(text.as_bytes()),
        Some(Value::Array(items)) => items_are_blank(items.as_slice()),
        _ => true,
    }
}

fn add_text(alloc: Global, value: &Value, done: &mut Vec<ScopePath>) -> Result<(), OutOfMemory>
    ensures { IfOk result (λ _. done.new.items ≡ text_alternatives done.old.items (view value.now)) }
{
    match value.as_str() {
        Some(text) => add_alternatives(alloc, text.as_bytes(), done),
        None => Ok(()),
    }
}

fn items_alternatives(alloc: Global, items: &[Value]) -> Result<Vec<ScopePath>, OutOfMemory>
    ensures { IfOk result (λ done. done.items ≡ items_alternatives [] (items_view items.now)) }
{
    let mut done = Vec::new(alloc);
    for item in items {
        add_text(alloc, item, &mut done)?;
    }
    Ok(done)
}

/// The alternatives of a rule's scope.
fn scope_alternatives(alloc: Global, value: &Value) -> Result<Vec<ScopePath>, OutOfMemory>
    ensures { IfOk result (λ done. done.items ≡ scope_alternatives (get (codes "scope") (view value.now))) }
{
    match value.get("scope") {
        Some(Value::Array(items)) => items_alternatives(alloc, items.as_slice()),
        Some(found) => {
            let mut done = Vec::new(alloc);
            add_text(alloc, found, &mut done)?;
            Ok(done)
        }
        None => Ok(Vec::new(alloc)),
    }
}

/// The text of a setting.
fn setting_text<'v>(value: &'v Value, key: &str) -> Option<&'v str>
    ensures { option_map (λ text. text.now) result ≡ setting_text key.now (view value.now) }
{
    value
        .get("settings")
        .and_then(|settings| settings.get(key))
        .and_then(Value::as_str)
}

/// The colour of a setting, where its text is not empty.
fn colour_at(alloc: Global, value: &Value, key: &str) -> Result<Option<Name>, OutOfMemory>
    ensures { IfOk result (λ colour. colour ≡ colour_in (setting_text key.now (view value.now))) }
{
    match setting_text(value, key) {
        Some(text) => {
            if text.is_empty() {
                Ok(None)
            } else {
                Ok(Some(upper(alloc, text.as_bytes())?))
            }
        }
        None => Ok(None),
    }
}

fn font_at(value: &Value) -> Option<u16>
    ensures { result ≡ option_map font_of (setting_text (codes "fontStyle") (view value.now)) }
{
    match setting_text(value, "fontStyle") {
        Some(text) => Some(font_of(text.as_bytes())),
        None => None,
    }
}

/// The rule that a value is.
fn rule_of(alloc: Global, value: &Value) -> Result<WrittenRule, OutOfMemory>
    ensures { IfOk result (λ rule. rule ≡ rule_of (view value.now)) }
{
    let alternatives = scope_alternatives(alloc, value)?;
    let foreground = colour_at(alloc, value, "foreground")?;
    let background = colour_at(alloc, value, "background")?;
    Ok(WrittenRule {
        plain: sets_defaults(value),
        alternatives: Alternatives::new(alternatives),
        font: font_at(value),
        foreground,
        background,
    })
}

fn rules_of(alloc: Global, items: &[Value]) -> Result<Vec<WrittenRule>, OutOfMemory>
    ensures { IfOk result (λ rules. rules.items ≡ rules_of (items_view items.now)) }
{
    let mut rules = Vec::new(alloc);
    for item in items {
        rules.push(rule_of(alloc, item)?)?;
    }
    Ok(rules)
}

/// The rules of a theme.
pub fn rules_in(alloc: Global, value: &Value) -> Result<Vec<WrittenRule>, OutOfMemory>
    ensures { IfOk result (λ rules. rules.items ≡ rules_in (view value.now)) }
{
    match value.get(rules_key(value)) {
        Some(Value::Array(items)) => rules_of(alloc, items.as_slice()),
        _ => Ok(Vec::new(alloc)),
    }
}
