//! The unreadable patterns of grammars.

use crate::printed::push_name;
use crate::rules;
use std::alloc::Global;
use tm_cases::CaseFault;
use tm_line_lint::unreadable;
use tm_rules::rules::Rules;

/// The unreadable patterns: the scope of a grammar, and the path of a key in its file.
fn listed(alloc: Global, rules: &Rules) -> Result<String, CaseFault> {
    let mut text = String::new(alloc);
    for unread in unreadable(alloc, rules).or(Err(CaseFault::OutOfMemory))? {
        if !text.is_empty() {
            text.push_str(", ")?;
        }
        push_name(&mut text, &unread.grammar)?;
        text.push(' ')?;
        push_name(&mut text, &unread.path)?;
    }
    Ok(text)
}

/// What is listed of grammars.
pub(crate) fn answer(alloc: Global, files: &str) -> Result<String, CaseFault> {
    match rules::build(alloc, files)? {
        Some(rules) => listed(alloc, &rules),
        None => Ok(String::from_str(alloc, "TooManyRules")?),
    }
}
