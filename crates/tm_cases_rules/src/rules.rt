//! Grammars as their rules by number.
ghost use Rattle.std.specs.Prelude.{◌≡◌, length, IfOk, IfSome};
ghost use Rattle.tm_rules.specs.Candidates.{flattened_candidates};
ghost use Rattle.tm_rules.specs.Rules.{plain_rules};

use crate::printed::{push_name, push_number, push_text};
use std::alloc::{AllocError, Global};
use tm_cases::CaseFault;
use tm_defs::rules::{Captures, Numbers, Rule};
use tm_defs::texts::Name;
use tm_grammar::fault::JsonFault;
use tm_grammar::grammar::RawGrammar;
use tm_rules::candidate::Candidate;
use tm_rules::grammars::{Grammars, RulesFault};
use tm_rules::rules::Rules;

/// The word that stands for a key of a path.
fn short_key(key: &str) -> &str {
    match key {
        "patterns" => "p",
        "repository" => "r",
        "injections" => "i",
        "captures" => "c",
        "beginCaptures" => "bc",
        "endCaptures" => "ec",
        "whileCaptures" => "wc",
        _ => key,
    }
}

fn push_path(alloc: Global, text: &mut String, path: &Name) -> Result<(), AllocError> {
    let mut whole = String::new(alloc);
    push_name(&mut whole, path)?;
    for key in whole.as_str().split('/').skip(1) {
        text.push('/')?;
        text.push_str(short_key(key))?;
    }
    Ok(())
}

fn push_captures(
    alloc: Global,
    text: &mut String,
    word: &str,
    captures: &Captures,
) -> Result<(), AllocError> {
    if captures.as_slice().len() == 0 {
        return Ok(());
    }
    text.push_str(word)?;
    let mut between = "{";
    for capture in captures.as_slice() {
        text.push_str(between)?;
        push_number(alloc, text, capture.group)?;
        push_text(text, "=", &capture.name)?;
        push_text(text, "/", &capture.content_name)?;
        if let Some(rule) = capture.rule {
            text.push('>')?;
            push_number(alloc, text, rule)?;
        }
        between = ",";
    }
    text.push('}')
}

fn push_patterns(alloc: Global, text: &mut String, patterns: &Numbers) -> Result<(), AllocError> {
    let mut between = " [";
    for number in patterns.as_slice() {
        text.push_str(between)?;
        push_number(alloc, text, *number)?;
        between = " ";
    }
    if patterns.as_slice().len() == 0 {
        text.push_str(between)?;
    }
    text.push(']')
}

fn push_candidates(
    alloc: Global,
    text: &mut String,
    candidates: &[Candidate],
) -> Result<(), AllocError> {
    let mut between = "";
    for candidate in candidates {
        text.push_str(between)?;
        match candidate {
            Candidate::Start(number) => push_number(alloc, text, *number)?,
            Candidate::End => text.push('e')?,
        }
        between = " ";
    }
    Ok(())
}

/// The kind of a rule, its path, its scope unless that is `s`, and its names.
fn push_head(
    alloc: Global,
    text: &mut String,
    kind: &str,
    grammar: &Name,
    path: &Name,
    names: (&Option<Name>, &Option<Name>),
) -> Result<(), AllocError> {
    text.push_str(kind)?;
    push_path(alloc, text, path)?;
    if grammar.as_slice() != ['s'].as_slice() {
        text.push_str(" @")?;
        push_name(text, grammar)?;
    }
    push_text(text, " n=", names.0)?;
    push_text(text, " c=", names.1)
}

fn push_heading(alloc: Global, text: &mut String, rule: &Rule) -> Result<(), AllocError> {
    match rule {
        Rule::Match {
            grammar,
            path,
            name,
            content_name,
            ..
        } => push_head(alloc, text, "M", grammar, path, (name, content_name)),
        Rule::BeginEnd {
            grammar,
            path,
            name,
            content_name,
            ..
        } => push_head(alloc, text, "B", grammar, path, (name, content_name)),
        Rule::BeginWhile {
            grammar,
            path,
            name,
            content_name,
            ..
        } => push_head(alloc, text, "W", grammar, path, (name, content_name)),
        Rule::Only {
            grammar,
            path,
            name,
            content_name,
            ..
        } => push_head(alloc, text, "O", grammar, path, (name, content_name)),
    }
}

fn push_required(text: &mut String, word: &str, value: &Name) -> Result<(), AllocError> {
    text.push_str(word)?;
    push_name(text, value)
}

fn push_texts(text: &mut String, rule: &Rule) -> Result<(), AllocError> {
    match rule {
        Rule::Match { match_text, .. } => push_required(text, " m=", match_text),
        Rule::BeginEnd {
            begin,
            end_text,
            end_last,
            ..
        } => {
            push_required(text, " b=", begin)?;
            push_text(text, " e=", end_text)?;
            text.push_str(if *end_last { " last" } else { "" })
        }
        Rule::BeginWhile {
            begin,
            while_text,
            ..
        } => {
            push_required(text, " b=", begin)?;
            push_required(text, " w=", while_text)
        }
        Rule::Only { .. } => Ok(()),
    }
}

fn push_parts(alloc: Global, text: &mut String, rule: &Rule) -> Result<(), AllocError> {
    match rule {
        Rule::Match { captures, .. } => push_captures(alloc, text, " C", captures),
        Rule::BeginEnd {
            begin_captures,
            end_captures,
            patterns,
            ..
        } => {
            push_captures(alloc, text, " B", begin_captures)?;
            push_captures(alloc, text, " E", end_captures)?;
            push_patterns(alloc, text, patterns)
        }
        Rule::BeginWhile {
            begin_captures,
            while_captures,
            patterns,
            ..
        } => {
            push_captures(alloc, text, " B", begin_captures)?;
            push_captures(alloc, text, " W", while_captures)?;
            push_patterns(alloc, text, patterns)
        }
        Rule::Only { patterns, .. } => push_patterns(alloc, text, patterns),
    }
}

fn push_rule(alloc: Global, text: &mut String, rule: &Rule) -> Result<(), AllocError> {
    push_heading(alloc, text, rule)?;
    push_texts(text, rule)?;
    push_parts(alloc, text, rule)
}

/// All rules in one line.
fn shown(alloc: Global, rules: &Rules) -> Result<String, AllocError> {
    let mut text = String::new(alloc);
    for number in 0..rules.len() {
        if number > 0 {
            text.push_str("; ")?;
        }
        push_number(alloc, &mut text, number)?;
        push_rule(alloc, &mut text, rules.rule(number))?;
        text.push_str(" <")?;
        push_candidates(alloc, &mut text, rules.candidates(number))?;
        text.push('|')?;
        push_candidates(alloc, &mut text, rules.included(number))?;
        text.push('>')?;
    }
    Ok(text)
}

fn read(alloc: Global, file: &str) -> Result<RawGrammar, CaseFault> {
    match RawGrammar::from_slice(alloc, file.as_bytes()) {
        Ok(grammar) => Ok(grammar),
        Err(JsonFault::OutOfMemory) => Err(CaseFault::OutOfMemory),
        Err(_) => Err(CaseFault::NoField),
    }
}

/// The root grammar, further ones behind ` ++ ` and injected ones behind ` ** `.
pub(crate) fn grammars_of(alloc: Global, files: &str) -> Result<Grammars, CaseFault> {
    let mut more = Vec::new(alloc);
    let mut injected = Vec::new(alloc);
    let mut root = read(alloc, "{\"scopeName\":\"\"}")?;
    for (place, file) in files.split(" ++ ").enumerate() {
        for (inner, part) in file.split(" ** ").enumerate() {
            let grammar = read(alloc, part)?;
            if inner > 0 {
                injected.push(grammar)?;
            } else if place > 0 {
                more.push(grammar)?;
            } else {
                root = grammar;
            }
        }
    }
    Ok(Grammars {
        root,
        more,
        injected,
    })
}

/// The rules of grammars, where there are not too many.
fn build(alloc: Global, files: &str) -> Result<Option<Rules>, CaseFault> {
    match Rules::build(alloc, &grammars_of(alloc, files)?) {
        Ok(rules) => Ok(Some(rules)),
        Err(RulesFault::TooManyRules) => Ok(None),
        Err(RulesFault::OutOfMemory) => Err(CaseFault::OutOfMemory),
    }
}

/// All rules of grammars.
pub(crate) fn answer(alloc: Global, files: &str) -> Result<String, CaseFault> {
    match build(alloc, files)? {
        Some(rules) => Ok(shown(alloc, &rules)?),
        None => Ok(String::from_str(alloc, "TooManyRules")?),
    }
}

/// The number of the root rule.
pub(crate) fn root(alloc: Global, files: &str) -> Result<String, CaseFault> {
    match build(alloc, files)? {
        Some(rules) => {
            let root = rules.root();
            Ok(format!(in alloc; "{root}")?)
        }
        None => Ok(String::from_str(alloc, "TooManyRules")?),
    }
}

/// How many candidates are tried for a rule, where there is a rule of this number.
fn tries(alloc: Global, parts: &Grammars, n: u32) -> Result<Option<usize>, RulesFault>
    ensures { IfOk result (λ tries. IfSome tries (λ count. count ≡ length (flattened_candidates (plain_rules parts.now) n))) }
{
    match Rules::build(alloc, parts) {
        Ok(rules) if n < rules.len() => Ok(Some(rules.candidates(n).len())),
        Ok(_) => Ok(None),
        Err(fault) => Err(fault),
    }
}

/// How many candidates are tried for the rule of a number.
pub(crate) fn tries_of(alloc: Global, number: u64, files: &str) -> Result<String, CaseFault> {
    let number = u32::try_from(number).or(Err(CaseFault::NoField))?;
    match tries(alloc, &grammars_of(alloc, files)?, number) {
        Ok(Some(count)) => Ok(format!(in alloc; "{count}")?),
        Ok(None) => Ok(String::from_str(alloc, "no rule")?),
        Err(RulesFault::TooManyRules) => Ok(String::from_str(alloc, "TooManyRules")?),
        Err(RulesFault::OutOfMemory) => Err(CaseFault::OutOfMemory),
    }
}

/// How many rules there are and how many candidates the root rule has.
pub(crate) fn counts(alloc: Global, files: &str) -> Result<String, CaseFault> {
    let Some(rules) = build(alloc, files)? else {
        return Ok(String::from_str(alloc, "TooManyRules")?);
    };
    let number = rules.len();
    let mut all = 0;
    if number > 0 {
        all = rules.candidates(0).len();
    }
    Ok(format!(in alloc; "{number} {all}")?)
}
