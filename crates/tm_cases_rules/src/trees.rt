//! Grammar files as trees, or why there is none.
ghost use Rattle.std.specs.Prelude.{IfSome};
ghost use Rattle.tm_grammar.specs.Answer.{IsFirstWrongOf};

use crate::printed::{bad_shape, push_name, push_number, push_text};
use std::alloc::{AllocError, Global};
use tm_cases::CaseFault;
use tm_defs::texts::Name;
use tm_grammar::fault::JsonFault;
use tm_grammar::grammar::RawGrammar;
use tm_grammar::raw::{RawCaptures, RawRule};

#[cycle(shown)]
fn push_captures(
    alloc: Global,
    text: &mut String,
    word: &str,
    captures: &Option<RawCaptures>,
) -> Result<(), AllocError> {
    if let Some(captures) = captures {
        text.push_str(word)?;
        for (number, rule) in captures.as_slice() {
            push_number(alloc, text, *number)?;
            push_rule(alloc, text, rule)?;
        }
        text.push(']')?;
    }
    Ok(())
}

#[cycle(shown)]
fn push_names(
    alloc: Global,
    text: &mut String,
    word: &str,
    rules: &[(Name, RawRule)],
) -> Result<(), AllocError> {
    if rules.len() > 0 {
        text.push_str(word)?;
        for (name, rule) in rules {
            push_name(text, name)?;
            push_rule(alloc, text, rule)?;
        }
        text.push(']')?;
    }
    Ok(())
}

fn push_texts(text: &mut String, rule: &RawRule) -> Result<(), AllocError> {
    push_text(text, " name:", &rule.name)?;
    push_text(text, " content:", &rule.content_name)?;
    push_text(text, " match:", &rule.match_text)?;
    push_text(text, " begin:", &rule.begin)?;
    push_text(text, " end:", &rule.end_text)?;
    push_text(text, " while:", &rule.while_text)?;
    push_text(text, " include:", &rule.include)
}

#[cycle(shown)]
fn push_all_captures(alloc: Global, text: &mut String, rule: &RawRule) -> Result<(), AllocError> {
    push_captures(alloc, text, " captures[", &rule.captures)?;
    push_captures(alloc, text, " beginCaptures[", &rule.begin_captures)?;
    push_captures(alloc, text, " endCaptures[", &rule.end_captures)?;
    push_captures(alloc, text, " whileCaptures[", &rule.while_captures)
}

#[cycle(shown)]
fn push_patterns(alloc: Global, text: &mut String, rule: &RawRule) -> Result<(), AllocError> {
    if let Some(rules) = &rule.patterns {
        text.push_str(" patterns[")?;
        for inner in rules.as_slice() {
            push_rule(alloc, text, inner)?;
        }
        text.push(']')?;
    }
    Ok(())
}

/// A rule as its path and what its keys give, in braces.
#[cycle(shown)]
fn push_rule(alloc: Global, text: &mut String, rule: &RawRule) -> Result<(), AllocError> {
    text.push('{')?;
    push_name(text, &rule.path)?;
    push_texts(text, rule)?;
    push_all_captures(alloc, text, rule)?;
    push_patterns(alloc, text, rule)?;
    push_names(alloc, text, " repository[", rule.repository.as_slice())?;
    if rule.end_last {
        text.push_str(" last")?;
    }
    text.push('}')
}

/// A tree: its scope, the rule of the grammar itself, its injections and its selector.
fn tree_text(alloc: Global, grammar: &RawGrammar) -> Result<String, AllocError> {
    let mut text = String::new(alloc);
    push_name(&mut text, grammar.scope_name())?;
    text.push(' ')?;
    push_rule(alloc, &mut text, grammar.root())?;
    push_names(alloc, &mut text, " injections[", grammar.injections())?;
    if let Some(selector) = grammar.injection_selector() {
        text.push_str(" selector:")?;
        push_name(&mut text, selector)?;
    }
    Ok(text)
}

/// Why a file gives no tree.
fn fault_text(alloc: Global, fault: &JsonFault) -> Result<String, CaseFault> {
    match fault {
        JsonFault::NotJson => Ok(String::from_str(alloc, "NotJson")?),
        JsonFault::BadShape(path) => Ok(bad_shape(alloc, path)?),
        JsonFault::OutOfMemory => Err(CaseFault::OutOfMemory),
    }
}

/// The tree of a file, the path of its first wrong value, or that it is no JSON.
pub(crate) fn answer(alloc: Global, bytes: &[u8]) -> Result<String, CaseFault> {
    match RawGrammar::from_slice(alloc, bytes) {
        Ok(grammar) => Ok(tree_text(alloc, &grammar)?),
        Err(fault) => fault_text(alloc, &fault),
    }
}

/// The path of the first wrong value of a file, where it has one.
fn wrong_path(alloc: Global, bytes: &[u8]) -> Option<Name>
    ensures { IfSome result (λ path. IsFirstWrongOf path bytes.now) }
{
    match RawGrammar::from_slice(alloc, bytes) {
        Err(JsonFault::BadShape(path)) => Some(path),
        _ => None,
    }
}

/// The same, but of a tree only that there is one.
pub(crate) fn kind(alloc: Global, bytes: &[u8]) -> Result<String, CaseFault> {
    if let Some(path) = wrong_path(alloc, bytes) {
        return Ok(bad_shape(alloc, &path)?);
    }
    match RawGrammar::from_slice(alloc, bytes) {
        Ok(_) => Ok(String::from_str(alloc, "a tree")?),
        Err(fault) => fault_text(alloc, &fault),
    }
}
