//! JSON values as a step is read from them, whichever reader made them.
//!
//! Almost every line of a script is an object of texts, small whole numbers and lists of such numbers. The tree of `json`
//! over the line's own bytes is enough for it: its room is lent, where a `Value`, which `serde_json` makes of every other
//! line, takes its own. A step is read in the same way from both.
ghost use Rattle.std.specs.Prelude.{◌≡◌, Some, None, IsTrue, if◌then◌else◌};
ghost use Rattle.std.specs.Char.{is_ascii_digit};
ghost use Rattle.std.specs.List.{list_all};
ghost use Rattle.std.specs.Str.Parse.{digits_value};
ghost use Rattle.json.specs.Value.{value_view};
ghost use Rattle.serde_json.specs.Read.{of_json};
ghost use Rattle.tm_script.specs.Values.{within_u32};
ghost use Rattle.tm_script.specs.inner.Plain.{is_whole, is_short, is_plain_item, is_plain_value, plain_data};

use serde_json::Value;

/// A JSON value.
pub trait Tree: Sized {
    ghost use Rattle.std.specs.Prelude.{◌≡◌, option_map};
    ghost use Rattle.serde_json.specs.Data.{Data};
    ghost use Rattle.serde_json.specs.Find.{get, at, as_str};
    ghost use Rattle.tm_script.specs.Values.{item_count, whole_number};

    ghost says: { Self → Data };

    /// The value at a key; the last one where the key stands twice.
    fn member<'v>(&'v self, key: &str) -> Option<&'v Self>
        ensures { option_map (λ v. says v.now) result ≡ get key.now (says self.now) };

    /// The value at a place of a list.
    fn item(&self, place: usize) -> Option<&Self>
        ensures { option_map (λ v. says v.now) result ≡ at place (says self.now) };

    /// How many items a list has; 0 for another value.
    fn count(&self) -> usize
        ensures { result ≡ item_count (says self.now) };

    fn text(&self) -> Option<&str>
        ensures { option_map (λ s. s.now) result ≡ as_str (says self.now) };

    /// A whole number below 2^32.
    fn number(&self) -> Option<u32>
        ensures { result ≡ whole_number (says self.now) };
}

impl Tree for Value {
    ghost use Rattle.serde_json.specs.View.{view};

    ghost says = { view };

    fn member<'v>(&'v self, key: &str) -> Option<&'v Self> {
        self.get(key)
    }

    fn item(&self, place: usize) -> Option<&Self> {
        self.get(place)
    }

    fn count(&self) -> usize {
        match self.as_array() {
            Some(items) => items.len(),
            None => 0,
        }
    }

    fn text(&self) -> Option<&str> {
        self.as_str()
    }

    fn number(&self) -> Option<u32> {
        match self.as_u64() {
            Some(number) => below_2_32(number),
            None => None,
        }
    }
}

impl<'a> Tree for json::Value<'a> {
    ghost use Rattle.json.specs.Value.{value_view};
    ghost use Rattle.tm_script.specs.inner.Plain.{plain_data};

    ghost says = { λ value. plain_data (value_view value) };

    fn member<'v>(&'v self, key: &str) -> Option<&'v Self> {
        self.get(key)
    }

    fn item(&self, place: usize) -> Option<&Self> {
        self.at(place)
    }

    fn count(&self) -> usize {
        match self {
            json::Value::Array(items) => items.len(),
            _ => 0,
        }
    }

    fn text(&self) -> Option<&str> {
        self.as_str()
    }

    fn number(&self) -> Option<u32> {
        match self.as_number() {
            Some(text) => whole(text),
            None => None,
        }
    }
}

fn all_digits(text: &str) -> bool
    ensures { result ≡ list_all is_ascii_digit text.now }
{
    text.as_bytes().iter().all(|byte| byte.is_ascii_digit())
}

/// Whether a number is written in digits alone.
fn is_whole(text: &str) -> bool
    ensures { result ≡ is_whole text.now }
{
    !text.is_empty() && all_digits(text)
}

fn below_2_32(number: u64) -> Option<u32>
    ensures { result ≡ within_u32 number }
{
    if number < 0x1_0000_0000 {
        Some(number as u32)
    } else {
        None
    }
}

/// The number that digits alone write, where it is below 2^32.
fn whole(text: &str) -> Option<u32>
    ensures { result ≡ (if is_whole text.now then within_u32 (digits_value 10 text.now) else None) }
{
    if !is_whole(text) {
        return None;
    }
    match fast_float::parse_u64(text.as_bytes()) {
        Ok(number) => below_2_32(number),
        Err(_) => None,
    }
}

/// Whether a number is written in so few digits that it is below 2^64.
fn is_short(text: &str) -> bool
    ensures { result ≡ is_short text.now }
{
    is_whole(text) && text.len() <= 19
}

/// A text, or a whole number below 2^64.
fn plain_item(value: &json::Value<'_>) -> bool
    ensures { result ≡ is_plain_item (value_view value.now) }
{
    match value {
        json::Value::Number(text) => is_short(text),
        json::Value::String(_) => true,
        _ => false,
    }
}

fn plain_items(items: &[json::Value<'_>]) -> bool
    ensures { result ≡ list_all (λ item. is_plain_item (value_view item)) items.now }
{
    items.iter().all(|item| plain_item(item))
}

/// One of these, or a list of them.
fn plain_value(value: &json::Value<'_>) -> bool
    ensures { result ≡ is_plain_value (value_view value.now) }
{
    match value {
        json::Value::Array(items) => plain_items(items.as_slice()),
        _ => plain_item(value),
    }
}

fn plain_members(members: &[(&str, json::Value<'_>)]) -> bool
    ensures { result ≡ list_all (λ member. is_plain_value (value_view member.1)) members.now }
{
    members.iter().all(|member| plain_value(&member.1))
}

/// Whether a value is an object of such values. Then `serde_json` reads the same.
pub fn is_plain(value: &json::Value<'_>) -> bool
    ensures { IsTrue result → of_json (value_view value.now) ≡ Some (plain_data (value_view value.now)) }
{
    match value {
        json::Value::Object(members) => plain_members(members.as_slice()),
        _ => false,
    }
}
