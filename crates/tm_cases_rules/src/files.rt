//! The files of cases: bytes that are no text, and parts that stand many times.

use std::alloc::{AllocError, Global};
use tm_cases::{Case, CaseFault};

/// The bytes of a text in which each character stands for one byte: U+0000 to U+00FF.
pub(crate) fn bytes(alloc: Global, case: &Case) -> Result<Vec<u8>, CaseFault> {
    let mut bytes = Vec::new(alloc);
    for c in case.text(0)?.chars() {
        bytes.push(u8::try_from(c as u32).or(Err(CaseFault::NoField))?)?;
    }
    Ok(bytes)
}

/// Adds a part so many times.
fn push_times(text: &mut String, part: &str, times: u64) -> Result<(), AllocError> {
    for _ in 0..times {
        text.push_str(part)?;
    }
    Ok(())
}

/// A front, a part so many times, a middle, another part as many times, and a back.
pub(crate) fn nested(alloc: Global, case: &Case) -> Result<String, CaseFault> {
    let mut text = String::from_str(alloc, case.text(0)?)?;
    let times = case.number(2)?;
    push_times(&mut text, case.text(1)?, times)?;
    text.push_str(case.text(3)?)?;
    push_times(&mut text, case.text(4)?, times)?;
    text.push_str(case.text(5)?)?;
    Ok(text)
}

/// A front, a part so many times, and a back.
pub(crate) fn repeated(alloc: Global, case: &Case) -> Result<String, CaseFault> {
    let mut text = String::from_str(alloc, case.text(0)?)?;
    push_times(&mut text, case.text(1)?, case.number(2)?)?;
    text.push_str(case.text(3)?)?;
    Ok(text)
}

/// A rule of a repository that includes the next one so many times.
fn push_link(
    alloc: Global,
    text: &mut String,
    number: u64,
    includes: u64,
) -> Result<(), AllocError> {
    let next = number.saturating_add(1);
    text.push_str(format!(in alloc;
        "\"r{number}\":{{\"patterns\":[{{\"include\":\"#r{next}\"}}"
    )?.as_str())?;
    let part = format!(in alloc; ",{{\"include\":\"#r{next}\"}}")?;
    push_times(text, part.as_str(), includes.saturating_sub(1))?;
    text.push_str("]},")
}

/// A grammar of so many rules of which each includes the next one so many times; the last one is given.
pub(crate) fn chained(alloc: Global, case: &Case) -> Result<String, CaseFault> {
    let (length, includes, last) = (case.number(0)?, case.number(1)?, case.text(2)?);
    let mut text = String::from_str(
        alloc,
        "{\"scopeName\":\"s\",\"patterns\":[{\"include\":\"#r0\"}],\"repository\":{",
    )?;
    for number in 0..length {
        push_link(alloc, &mut text, number, includes)?;
    }
    text.push_str(format!(in alloc; "\"r{length}\":{last}}}}}")?.as_str())?;
    Ok(text)
}
