//! Looks into JSON values, with what a walk down a value needs: what is found lies less deep.
ghost use Rattle.std.specs.Prelude.{◌≡◌, ◌<◌, ◌≤◌, option_map, option_and_then, IfOk, IfSome};
ghost use Rattle.std.specs.Str.{chars};
ghost use Rattle.serde_json.specs.Data.{depth, items_depth, members_depth};
ghost use Rattle.serde_json.specs.Find.{get, as_str, as_array, as_object};
ghost use Rattle.serde_json.specs.View.{view, items_view, members_view};
ghost use Rattle.tm_grammar.specs.Tree.{is_set, flag_from};

use crate::paths;
use serde_json::{Map, Value};
use std::alloc::Global;
use tm_defs::memory::OutOfMemory;
use tm_defs::texts::Name;

/// The member of a key.

pub fn member<'v>(value: &'v Value, key: &str) -> Option<&'v Value>
    ensures found { option_map (λ v. view v.now) result ≡ get key.now (view value.now) }
    ensures deeper { IfSome result (λ v. depth (view v.now) < depth (view value.now)) }
{
    value.get(key)
}

/// The items of a list.
pub fn items_of(value: &Value) -> Option<&[Value]>
    ensures found { option_map (λ v. items_view v.now) result ≡ as_array (view value.now) }
    ensures deeper { IfSome result (λ v. items_depth (items_view v.now) < depth (view value.now)) }
{
    match value {
        Value::Array(items) => Some(items.as_slice()),
        _ => None,
    }
}

/// The members of an object.
pub fn members_of(value: &Value) -> Option<&Map<String, Value>>
    ensures found { option_map (λ m. members_view m.now.entries) result ≡ as_object (view value.now) }
    ensures deeper { IfSome result (λ m. members_depth (members_view m.now.entries) < depth (view value.now)) }
{
    match value {
        Value::Object(members) => Some(members),
        _ => None,
    }
}

/// The text at a key.
pub fn text_at(alloc: Global, value: &Value, key: &str) -> Result<Option<Name>, OutOfMemory>
    ensures { IfOk result (λ text. text ≡ option_map chars (option_and_then as_str (get key.now (view value.now)))) }
{
    match value.get(key).and_then(Value::as_str) {
        Some(text) => Ok(Some(paths::name_of(alloc, text)?)),
        None => Ok(None),
    }
}

fn is_set(value: &Value) -> bool
    ensures { result ≡ is_set (view value.now) }
{
    match value {
        Value::Bool(set) => *set,
        Value::Number(number) => number.as_u64() != Some(0),
        _ => false,
    }
}

/// Whether the flag at a key is true, or a number that is not the whole number 0.
pub fn flag_at(value: &Value, key: &str) -> bool
    ensures { result ≡ flag_from (get key.now (view value.now)) }
{
    match value.get(key) {
        Some(flag) => is_set(flag),
        None => false,
    }
}
