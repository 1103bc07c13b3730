//! JSON texts and files, and looks into their values.
ghost use Rattle.std.specs.Prelude.{◌≡◌, option_map, option_and_then, unwrap_or, IfOk};
ghost use Rattle.serde_json.specs.Read.{read};
ghost use Rattle.serde_json.specs.View.{view, items_view};
ghost use Rattle.tm_forms.specs.Json.{json_in, has_key, items_at};

use crate::utf8;
use serde_json::Value;
use std::alloc::Global;
use tm_defs::memory::OutOfMemory;

/// The value of a JSON text.
pub fn parse(alloc: Global, text: &str) -> Result<Option<Value>, OutOfMemory>
    ensures { IfOk result (λ found. option_map view found ≡ read text.now) }
{
    match Value::from_str(alloc, text) {
        Ok(value) => Ok(Some(value)),
        Err(error) => {
            if error.is_memory() {
                Err(OutOfMemory)
            } else {
                Ok(None)
            }
        }
    }
}

/// The value of a JSON file.
pub fn value_of(alloc: Global, bytes: &[u8]) -> Result<Option<Value>, OutOfMemory>
    ensures { IfOk result (λ found. option_map view found ≡ json_in bytes.now) }
{
    match utf8::text_of(utf8::skip_mark(bytes)) {
        Some(text) => parse(alloc, text),
        None => Ok(None),
    }
}

/// Whether an object has a member with this key.
pub fn has(value: &Value, key: &str) -> bool
    ensures { result ≡ has_key key.now (view value.now) }
{
    value.get(key).is_some()
}

/// The items of the list at a key, and none where there is no list.
pub fn items_at<'v>(value: &'v Value, key: &str) -> &'v [Value]
    ensures { items_view result.now ≡ items_at key.now (view value.now) }
{
    match value.get(key).and_then(Value::as_array) {
        Some(items) => items.as_slice(),
        None => &[],
    }
}
