//! Metadata words and their parts.

use std::alloc::Global;
use tm_cases::{Case, CaseFault};
use tm_meta::fields::{Fields, pack, unpack};

/// The number at a place, as a part of a word.
fn byte(case: &Case, place: usize) -> Result<u8, CaseFault> {
    u8::try_from(case.number(place)?).map_err(|_| CaseFault::NoField)
}

/// The word of `LANGUAGE, TOKEN TYPE, BALANCED (0 or 1), FONT, FOREGROUND, BACKGROUND`.
pub fn packed(alloc: Global, case: &Case) -> Result<String, CaseFault> {
    let fields = Fields {
        language: byte(case, 0)?,
        token_type: byte(case, 1)?,
        balanced: case.number(2)? == 1,
        font: byte(case, 3)?,
        foreground: u16::try_from(case.number(4)?).map_err(|_| CaseFault::NoField)?,
        background: byte(case, 5)?,
    };
    if fields.token_type > 3 || fields.font > 15 || fields.foreground > 511 {
        return Err(CaseFault::NoField);
    }
    Ok(format!(in alloc; "{:08x}", pack(fields))?)
}

/// The parts of a word, in the same order.
pub fn unpacked(alloc: Global, case: &Case) -> Result<String, CaseFault> {
    let word = u32::try_from(case.number(0)?).map_err(|_| CaseFault::NoField)?;
    let fields = unpack(word);
    let balanced = if fields.balanced { 1 } else { 0 };
    let mut answer = format!(in alloc; "{} {} {}", fields.language, fields.token_type, balanced)?;
    answer.push_str(format!(in alloc;
        " {} {} {}",
        fields.font, fields.foreground, fields.background
    )?
    .as_str())?;
    Ok(answer)
}
