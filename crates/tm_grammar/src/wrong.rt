//! The walk that finds the first wrong value of a grammar file.
//!
//! It goes down a value that `serde_json` has read, which nests at most 127 deep. A path is put
//! together on the way back, once a wrong value is found: in `{"patterns": [{"match": 3}]}` the walk
//! goes from the empty path over `/match` and `/0/match` to `/patterns/0/match`.
ghost use Rattle.std.specs.Prelude.{◌≡◌, IfOk};
ghost use Rattle.serde_json.specs.View.{view, items_view, members_view};
ghost use Rattle.tm_grammar.specs.Wrong.{is_ignored, first_wrong, wrong_item, wrong_member, absent_scope, wrong_in};

use crate::paths;
use crate::shapes::{self, Shape};
use serde_json::{Map, Value};
use std::alloc::Global;
use tm_defs::memory::OutOfMemory;
use tm_defs::texts::Name;

fn is_ignored(shape: Shape) -> bool
    ensures { result ≡ is_ignored shape }
{
    match shape {
        Shape::Ignored => true,
        _ => false,
    }
}

/// The path from a value to the first wrong one in it, perhaps itself.
#[cycle(walk)]
pub fn first_wrong(alloc: Global, shape: Shape, value: &Value) -> Result<Option<Name>, OutOfMemory>
    ensures { IfOk result (λ found. found ≡ first_wrong shape (view value.now)) }
{
    if is_ignored(shape) {
        return Ok(None);
    }
    if !shapes::fits(shape, value) {
        return Ok(Some(Name::new(Vec::new(alloc))));
    }
    match value {
        Value::Array(items) => wrong_item(alloc, shape, items),
        Value::Object(members) => wrong_member(alloc, shape, members),
        _ => Ok(None),
    }
}

#[cycle(walk)]
fn wrong_item(alloc: Global, shape: Shape, items: &Vec<Value>) -> Result<Option<Name>, OutOfMemory>
    ensures { IfOk result (λ found. found ≡ wrong_item shape 0 (items_view items.now.items)) }
{
    for (place, item) in items.iter().enumerate() {
        let found = first_wrong(alloc, shapes::item_shape(shape, place), item)?;
        if let Some(inside) = found {
            return Ok(Some(paths::below_place(alloc, place, &inside)?));
        }
    }
    Ok(None)
}

#[cycle(walk)]
fn wrong_member(
    alloc: Global,
    shape: Shape,
    members: &Map<String, Value>,
) -> Result<Option<Name>, OutOfMemory>
    ensures { IfOk result (λ found. found ≡ wrong_member shape (members_view members.now.entries)) }
{
    for (key, member) in members.iter() {
        let found = first_wrong(alloc, shapes::member_shape(shape, key.as_str()), member)?;
        if let Some(inside) = found {
            return Ok(Some(paths::below_key(alloc, key.as_str(), &inside)?));
        }
    }
    Ok(None)
}

/// The path of an absent scope name.
fn absent_scope(alloc: Global, value: &Value) -> Result<Option<Name>, OutOfMemory>
    ensures { IfOk result (λ found. found ≡ absent_scope (view value.now)) }
{
    match value.get("scopeName") {
        Some(_) => Ok(None),
        None => Ok(Some(Name::new(paths::with_key(alloc, &[], "scopeName")?))),
    }
}

/// The path of the first wrong value of a grammar file.
pub fn wrong_in(alloc: Global, value: &Value) -> Result<Option<Name>, OutOfMemory>
    ensures { IfOk result (λ found. found ≡ wrong_in (view value.now)) }
{
    let found = first_wrong(alloc, Shape::Grammar, value)?;
    match found {
        Some(path) => Ok(Some(path)),
        None => absent_scope(alloc, value),
    }
}
