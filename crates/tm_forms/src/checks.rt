//! What is wrong in a value: the path to the first value in it that is not what it ought to be.
//!
//! A kind of value is a type with a `Check`, and checks are put together: of lists, of objects, of what
//! stands behind a key. A path is put together on the way back, once a wrong value is found.
ghost use Rattle.std.specs.Prelude.{◌≡◌, ◌||◌, is_some, IfOk};
ghost use Rattle.serde_json.specs.View.{view, items_view, members_view};
ghost use Rattle.serde_json.specs.Find.{as_str, as_null};
ghost use Rattle.tm_forms.specs.Checks.{itself_unless, wrong_text, wrong_text_or_null, wrong_object, wrong_number, is_within, wrong_at, absent_at, wrong_item, wrong_list, wrong_member, wrong_map};

use crate::{edits, json};
use serde_json::{Map, Value};
use std::alloc::Global;
use tm_defs::memory::OutOfMemory;
use tm_defs::texts::Name;
use tm_grammar::paths;

/// What a value ought to be.
pub trait Check {
    ghost use Rattle.std.specs.Prelude.{List, ℕ, Option};
    ghost use Rattle.serde_json.specs.Data.{Data};

    /// The path from a value to the first wrong one in it, perhaps itself.
    ghost wrong: { Data → Option (List ℕ) };

    fn wrong_in(alloc: Global, value: &Value) -> Result<Option<Name>, OutOfMemory>
        ensures { IfOk result (λ found. found ≡ wrong (view value.now)) };
}

/// The path of the value itself, where it does not fit.
pub fn itself_unless(alloc: Global, fits: bool) -> Option<Name>
    ensures { result ≡ itself_unless fits }
{
    if fits {
        None
    } else {
        Some(Name::new(Vec::new(alloc)))
    }
}

/// A text.
pub struct Text;

impl Check for Text {
    ghost use Rattle.tm_forms.specs.Checks.{wrong_text};

    ghost wrong = { wrong_text };

    fn wrong_in(alloc: Global, value: &Value) -> Result<Option<Name>, OutOfMemory> {
        Ok(itself_unless(alloc, value.is_string()))
    }
}

/// A text or null.
pub struct TextOrNull;

impl Check for TextOrNull {
    ghost use Rattle.tm_forms.specs.Checks.{wrong_text_or_null};

    ghost wrong = { wrong_text_or_null };

    fn wrong_in(alloc: Global, value: &Value) -> Result<Option<Name>, OutOfMemory> {
        Ok(itself_unless(alloc, value.is_string() || value.is_null()))
    }
}

/// The path of a value that is no object.
pub fn wrong_object(alloc: Global, value: &Value) -> Option<Name>
    ensures { result ≡ wrong_object (view value.now) }
{
    itself_unless(alloc, value.is_object())
}

fn within(least: u32, greatest: u32, number: Option<u32>) -> bool
    ensures { result ≡ is_within least greatest number }
{
    match number {
        Some(number) => least <= number && number <= greatest,
        None => false,
    }
}

/// The path of a value that is no whole number from the least to the greatest.
pub fn wrong_number(alloc: Global, least: u32, greatest: u32, value: &Value) -> Option<Name>
    ensures { result ≡ wrong_number least greatest (view value.now) }
{
    itself_unless(alloc, within(least, greatest, edits::whole_number(value)))
}

/// The first wrong path behind a key, which may be absent.
pub fn wrong_at<C: Check>(
    alloc: Global,
    key: &str,
    value: &Value,
) -> Result<Option<Name>, OutOfMemory>
    ensures { IfOk result (λ found. found ≡ wrong_at key.now C.wrong (view value.now)) }
{
    let Some(member) = value.get(key) else {
        return Ok(None);
    };
    match C::wrong_in(alloc, member)? {
        Some(inside) => Ok(Some(paths::below_key(alloc, key, &inside)?)),
        None => Ok(None),
    }
}

/// The path of an absent key.
pub fn absent_at(alloc: Global, key: &str, value: &Value) -> Result<Option<Name>, OutOfMemory>
    ensures { IfOk result (λ found. found ≡ absent_at key.now (view value.now)) }
{
    if json::has(value, key) {
        return Ok(None);
    }
    Ok(Some(Name::new(paths::with_key(alloc, &[], key)?)))
}

fn wrong_item<C: Check>(alloc: Global, items: &[Value]) -> Result<Option<Name>, OutOfMemory>
    ensures { IfOk result (λ found. found ≡ wrong_item C.wrong 0 (items_view items.now)) }
{
    for (place, item) in items.iter().enumerate() {
        let found = C::wrong_in(alloc, item)?;
        if let Some(inside) = found {
            return Ok(Some(paths::below_place(alloc, place, &inside)?));
        }
    }
    Ok(None)
}

/// The first wrong path in a list.
pub fn wrong_list<C: Check>(alloc: Global, value: &Value) -> Result<Option<Name>, OutOfMemory>
    ensures { IfOk result (λ found. found ≡ wrong_list C.wrong (view value.now)) }
{
    match value.as_array() {
        Some(items) => wrong_item::<C>(alloc, items.as_slice()),
        None => Ok(itself_unless(alloc, false)),
    }
}

fn wrong_member<C: Check>(
    alloc: Global,
    members: &Map<String, Value>,
) -> Result<Option<Name>, OutOfMemory>
    ensures { IfOk result (λ found. found ≡ wrong_member C.wrong (members_view members.now.entries)) }
{
    for (key, member) in members.iter() {
        let found = C::wrong_in(alloc, member)?;
        if let Some(inside) = found {
            return Ok(Some(paths::below_key(alloc, key.as_str(), &inside)?));
        }
    }
    Ok(None)
}

/// The first wrong path in an object whose values are all alike.
pub fn wrong_map<C: Check>(alloc: Global, value: &Value) -> Result<Option<Name>, OutOfMemory>
    ensures { IfOk result (λ found. found ≡ wrong_map C.wrong (view value.now)) }
{
    match value.as_object() {
        Some(members) => wrong_member::<C>(alloc, members),
        None => Ok(itself_unless(alloc, false)),
    }
}
