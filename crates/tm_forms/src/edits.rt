//! The step `edit` of a script.
ghost use Rattle.std.specs.Prelude.{◌≡◌, option_map, option_and_then, IfOk};
ghost use Rattle.serde_json.specs.View.{view};
ghost use Rattle.tm_forms.specs.Edits.{item_count, whole_number_of, number_at, plain_text_of, inserted_of, change_of};

use crate::text;
use serde_json::Value;
use std::alloc::Global;
use tm_defs::changes::Change;
use tm_defs::memory::OutOfMemory;
use tm_defs::texts::Name;

/// How many items a list has; 0 for another value.
pub fn length_of(value: &Value) -> usize
    ensures { result ≡ item_count (view value.now) }
{
    match value.as_array() {
        Some(items) => items.len(),
        None => 0,
    }
}

/// A whole number below 2^32.
pub fn whole_number(value: &Value) -> Option<u32>
    ensures { result ≡ whole_number_of (view value.now) }
{
    match value.as_u64() {
        Some(number) => {
            if number < 0x1_0000_0000 {
                Some(number as u32)
            } else {
                None
            }
        }
        None => None,
    }
}

fn number_in(value: &Value, place: usize) -> Option<u32>
    ensures { result ≡ number_at place (view value.now) }
{
    value.get(place).and_then(whole_number)
}

fn plain_text(text: &str) -> Option<&str>
    ensures { option_map (λ s. s.now) result ≡ plain_text_of text.now }
{
    if text::all_text(text.as_bytes()) {
        Some(text)
    } else {
        None
    }
}

/// The text that a step puts in.
fn inserted(alloc: Global, value: &Value) -> Result<Option<Name>, OutOfMemory>
    ensures { IfOk result (λ text. text ≡ inserted_of (view value.now)) }
{
    match value
        .get("text")
        .and_then(Value::as_str)
        .and_then(plain_text)
    {
        Some(text) => {
            let chars = text::chars_of(alloc, text.as_bytes())?;
            Ok(Some(Name::new(chars)))
        }
        None => Ok(None),
    }
}

/// The change of a step.
pub fn change_in(alloc: Global, value: &Value) -> Result<Option<Change>, OutOfMemory>
    ensures { IfOk result (λ change. change ≡ change_of (view value.now)) }
{
    let Some(places) = value.get("at") else {
        return Ok(None);
    };
    if length_of(places) != 4 {
        return Ok(None);
    }
    let Some(from_line) = number_in(places, 0) else {
        return Ok(None);
    };
    let Some(from_col) = number_in(places, 1) else {
        return Ok(None);
    };
    let Some(to_line) = number_in(places, 2) else {
        return Ok(None);
    };
    let Some(to_col) = number_in(places, 3) else {
        return Ok(None);
    };
    let Some(text) = inserted(alloc, value)? else {
        return Ok(None);
    };
    Ok(Some(Change {
        from_line,
        from_col,
        to_line,
        to_col,
        text,
    }))
}
