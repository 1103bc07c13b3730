//! The text of a line, its JSON value, and the values of a step's keys.
ghost use Rattle.std.specs.Prelude.{◌≡◌, option_map, option_and_then, IfOk};
ghost use Rattle.std.specs.Str.{chars};
ghost use Rattle.serde_json.specs.Find.{get, as_str};
ghost use Rattle.serde_json.specs.Read.{read};
ghost use Rattle.serde_json.specs.View.{view};
ghost use Rattle.tm_script.specs.Values.{utf8_in, number_of, number_at, text_of};

use crate::tree::Tree;
use serde_json::Value;
use std::alloc::Global;
use tm_defs::memory::OutOfMemory;
use tm_defs::texts::Name;

/// The bytes as text, where they are UTF-8.
pub fn text_in(bytes: &[u8]) -> Option<&str>
    ensures { option_map (λ text. text.now) result ≡ utf8_in bytes.now }
{
    match std::str::from_utf8(bytes) {
        Ok(text) => Some(text),
        Err(_) => None,
    }
}

/// The JSON value of a text.
pub fn parsed(alloc: Global, text: &str) -> Result<Option<Value>, OutOfMemory>
    ensures { IfOk result (λ found. option_map view found ≡ read text.now) }
{
    match Value::from_str(alloc, text) {
        Ok(value) => Ok(Some(value)),
        Err(error) => {
            if error.is_memory() {
                Err(OutOfMemory)
            } else {
                Ok(None)
            }
        }
    }
}

/// The whole number at a key.
pub fn number_in<T: Tree>(value: &T, key: &str) -> Option<u32>
    ensures { result ≡ number_of key.now (T.says value.now) }
{
    match value.member(key) {
        Some(found) => found.number(),
        None => None,
    }
}

/// The whole number at a place of a list.
pub fn number_among<T: Tree>(value: &T, place: usize) -> Option<u32>
    ensures { result ≡ number_at place (T.says value.now) }
{
    match value.item(place) {
        Some(found) => found.number(),
        None => None,
    }
}

/// The characters of a text.
fn characters(alloc: Global, text: &str) -> Result<Name, OutOfMemory>
    ensures { IfOk result (λ name. name ≡ chars text.now) }
{
    Ok(Name::new(text.chars().collect(alloc)?))
}

/// The text at a key.
pub fn word_in<'v, T: Tree>(value: &'v T, key: &str) -> Option<&'v str>
    ensures { option_map (λ text. text.now) result ≡ option_and_then as_str (get key.now (T.says value.now)) }
{
    match value.member(key) {
        Some(found) => found.text(),
        None => None,
    }
}

/// The characters of the text at a key.
pub fn name_in<T: Tree>(alloc: Global, value: &T, key: &str) -> Result<Option<Name>, OutOfMemory>
    ensures { IfOk result (λ text. text ≡ text_of key.now (T.says value.now)) }
{
    match word_in(value, key) {
        Some(text) => Ok(Some(characters(alloc, text)?)),
        None => Ok(None),
    }
}
