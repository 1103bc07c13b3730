//! Numbers and lists out of the fields of a case.

use serde_json::Value;
use tm_cases::CaseFault;

/// The number of 32 bits at this place of a list.
pub fn number_at(list: &[Value], place: usize) -> Result<u32, CaseFault> {
    let value = list.get(place).ok_or(CaseFault::NoField)?;
    number(value)
}

/// A number of 32 bits.
pub fn number(value: &Value) -> Result<u32, CaseFault> {
    match value.as_u64() {
        Some(number) => u32::try_from(number).map_err(|_| CaseFault::NoField),
        None => Err(CaseFault::NoField),
    }
}

/// The text at this place of a list.
pub fn text_at(list: &[Value], place: usize) -> Result<&str, CaseFault> {
    let value = list.get(place).ok_or(CaseFault::NoField)?;
    value.as_str().ok_or(CaseFault::NoField)
}

/// The members of a list.
pub fn list(value: &Value) -> Result<&[Value], CaseFault> {
    match value.as_array() {
        Some(items) => Ok(items.as_slice()),
        None => Err(CaseFault::NoField),
    }
}
