//! What the values of a grammar file ought to be, by where they stand.
ghost use Rattle.std.specs.Prelude.{◌≡◌, is_some, if◌then◌else◌};
ghost use Rattle.serde_json.specs.View.{view};
ghost use Rattle.tm_grammar.specs.Shapes.{fits, grammar_key, rule_key, capture_key, member_shape, item_shape};
ghost use Rattle.tm_grammar.specs.declared.shapes.Shape.TheVariants.{Capture, Ignored};

use crate::numbers;
use serde_json::Value;

/// What a value ought to be.
#[derive(Clone, Copy, Debug, PartialEq, Eq)]
pub enum Shape {
    /// Anything: neither the value nor what it holds is looked at.
    Ignored,
    /// A text.
    Text,
    /// True, false or a number.
    Flag,
    /// A whole grammar: an object.
    Grammar,
    /// A rule: an object.
    Rule,
    /// What is done with a group's text: an object.
    Capture,
    /// Captures by number: an object or a list.
    Captures,
    /// A list of rules.
    Patterns,
    /// An object of rules by name.
    Repository,
}

fn grammar_shape(key: &str) -> Shape
    ensures { result ≡ grammar_key key.now }
{
    match key {
        "scopeName" | "injectionSelector" => Shape::Text,
        "patterns" => Shape::Patterns,
        "repository" | "injections" => Shape::Repository,
        _ => Shape::Ignored,
    }
}

fn capture_shape(key: &str) -> Shape
    ensures { result ≡ capture_key key.now }
{
    match key {
        "name" | "contentName" => Shape::Text,
        "patterns" => Shape::Patterns,
        "repository" => Shape::Repository,
        _ => Shape::Ignored,
    }
}

fn rule_shape(key: &str) -> Shape
    ensures { result ≡ rule_key key.now }
{
    match key {
        "match" | "begin" | "end" | "while" | "include" => Shape::Text,
        "captures" | "beginCaptures" | "endCaptures" | "whileCaptures" => Shape::Captures,
        "applyEndPatternLast" => Shape::Flag,
        _ => capture_shape(key),
    }
}

/// A capture where there is a number, and else nothing that is looked at.
fn numbered(number: Option<u32>) -> Shape
    ensures { result ≡ (if is_some number then Capture else Ignored) }
{
    match number {
        Some(_) => Shape::Capture,
        None => Shape::Ignored,
    }
}

/// What the member of a key ought to be.
pub fn member_shape(shape: Shape, key: &str) -> Shape
    ensures { result ≡ member_shape shape key.now }
{
    match shape {
        Shape::Grammar => grammar_shape(key),
        Shape::Rule => rule_shape(key),
        Shape::Capture => capture_shape(key),
        Shape::Captures => numbered(numbers::key_number(key)),
        Shape::Repository => Shape::Rule,
        _ => Shape::Ignored,
    }
}

/// What the item at a place ought to be.
pub fn item_shape(shape: Shape, place: usize) -> Shape
    ensures { result ≡ item_shape shape place }
{
    match shape {
        Shape::Patterns => Shape::Rule,
        Shape::Captures => numbered(numbers::place_number(place)),
        _ => Shape::Ignored,
    }
}

/// Whether a value is of the kind that fits.
pub fn fits(shape: Shape, value: &Value) -> bool
    ensures { result ≡ fits shape (view value.now) }
{
    match shape {
        Shape::Ignored => true,
        Shape::Text => value.is_string(),
        Shape::Flag => value.is_boolean() || value.is_number(),
        Shape::Captures => value.is_array() || value.is_object(),
        Shape::Patterns => value.is_array(),
        Shape::Grammar | Shape::Rule | Shape::Capture | Shape::Repository => value.is_object(),
    }
}
