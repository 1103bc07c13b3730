//! One rule, made of its raw rule by its kind.
ghost use Rattle.std.specs.Prelude.{◌≡◌, ℕ, List, Option, Some, None, option_map, IfOk, is_some, if◌then◌else◌};
ghost use Rattle.tm_rules.specs.Rules.{captures_from, rule_by, parts_of, own_rule};
ghost use Rattle.tm_rules.specs.Tree.{keys_of, tree_of, captures_of_if};

use crate::includes::Home;
use crate::loaded::Repository;
use crate::parts::{captures_from, copy_filled, copy_if, patterns_of};
use crate::sizes::{FirstNumbers, filled};
use std::alloc::Global;
use tm_defs::memory::OutOfMemory;
use tm_defs::rules::{Captures, Rule};
use tm_defs::texts::Name;
use tm_grammar::raw::{RawCaptures, RawRule};

/// Captures where they are there, and else those of `captures`.
fn captures_or(
    alloc: Global,
    captures: &Option<RawCaptures>,
    first: u32,
    all: &Option<RawCaptures>,
    first_of_all: u32,
) -> Result<Captures, OutOfMemory>
    ensures { IfOk result (λ cs. cs ≡ (if is_some captures.now then captures_from first (captures_of_if captures.now)
        else captures_from first_of_all (captures_of_if all.now))) }
{
    if captures.is_some() {
        captures_from(alloc, captures, first)
    } else {
        captures_from(alloc, all, first_of_all)
    }
}

#[tactic(auto, using(crate::proofs::Opened::tree_of_out))]
fn match_rule(
    alloc: Global,
    home: &Home,
    raw: &RawRule,
    numbers: FirstNumbers,
    match_text: &Name,
) -> Result<Rule, OutOfMemory>
    ensures { let grammar = home.now.grammar.now in IfOk result (λ rule. (scopes : List (List (List ℕ × ℕ))) (begin while : Option (List ℕ)) →
        rule ≡ rule_by grammar.scope (keys_of (tree_of raw.now)) (parts_of home.now.loaded.now grammar scopes numbers (tree_of raw.now)) (Some match_text.now) begin while) }
{
    Ok(Rule::Match {
        grammar: home.grammar.scope.copy()?,
        path: raw.path.copy()?,
        name: copy_if(&raw.name)?,
        content_name: copy_if(&raw.content_name)?,
        match_text: match_text.copy()?,
        captures: captures_from(alloc, &raw.captures, numbers.captures)?,
    })
}

#[tactic(auto, using(crate::proofs::Opened::tree_of_out))]
fn begin_end(
    alloc: Global,
    home: &Home,
    scopes: &[Repository],
    raw: &RawRule,
    numbers: FirstNumbers,
    begin: &Name,
) -> Result<Rule, OutOfMemory>
    ensures { let grammar = home.now.grammar.now in IfOk result (λ rule.
        rule ≡ rule_by grammar.scope (keys_of (tree_of raw.now)) (parts_of home.now.loaded.now grammar scopes.now numbers (tree_of raw.now)) None (Some begin.now) None) }
{
    let begin_captures = captures_or(
        alloc,
        &raw.begin_captures,
        numbers.begin_captures,
        &raw.captures,
        numbers.captures,
    )?;
    let end_captures = captures_or(
        alloc,
        &raw.end_captures,
        numbers.end_captures,
        &raw.captures,
        numbers.captures,
    )?;
    Ok(Rule::BeginEnd {
        grammar: home.grammar.scope.copy()?,
        path: raw.path.copy()?,
        name: copy_if(&raw.name)?,
        content_name: copy_if(&raw.content_name)?,
        begin: begin.copy()?,
        end_text: copy_filled(&raw.end_text)?,
        end_last: raw.end_last,
        begin_captures,
        end_captures,
        patterns: patterns_of(alloc, home, scopes, raw, numbers.patterns)?,
    })
}

#[tactic(auto, using(crate::proofs::Opened::tree_of_out))]
fn begin_while(
    alloc: Global,
    home: &Home,
    scopes: &[Repository],
    raw: &RawRule,
    numbers: FirstNumbers,
    begin: &Name,
    while_text: &Name,
) -> Result<Rule, OutOfMemory>
    ensures { let grammar = home.now.grammar.now in IfOk result (λ rule.
        rule ≡ rule_by grammar.scope (keys_of (tree_of raw.now)) (parts_of home.now.loaded.now grammar scopes.now numbers (tree_of raw.now)) None (Some begin.now) (Some while_text.now)) }
{
    let begin_captures = captures_or(
        alloc,
        &raw.begin_captures,
        numbers.begin_captures,
        &raw.captures,
        numbers.captures,
    )?;
    let while_captures = captures_or(
        alloc,
        &raw.while_captures,
        numbers.while_captures,
        &raw.captures,
        numbers.captures,
    )?;
    Ok(Rule::BeginWhile {
        grammar: home.grammar.scope.copy()?,
        path: raw.path.copy()?,
        name: copy_if(&raw.name)?,
        content_name: copy_if(&raw.content_name)?,
        begin: begin.copy()?,
        while_text: while_text.copy()?,
        begin_captures,
        while_captures,
        patterns: patterns_of(alloc, home, scopes, raw, numbers.patterns)?,
    })
}

#[tactic(auto, using(crate::proofs::Opened::tree_of_out))]
fn only(
    alloc: Global,
    home: &Home,
    scopes: &[Repository],
    raw: &RawRule,
    numbers: FirstNumbers,
) -> Result<Rule, OutOfMemory>
    ensures { let grammar = home.now.grammar.now in IfOk result (λ rule. (while : Option (List ℕ)) →
        rule ≡ rule_by grammar.scope (keys_of (tree_of raw.now)) (parts_of home.now.loaded.now grammar scopes.now numbers (tree_of raw.now)) None None while) }
{
    Ok(Rule::Only {
        grammar: home.grammar.scope.copy()?,
        path: raw.path.copy()?,
        name: copy_if(&raw.name)?,
        content_name: copy_if(&raw.content_name)?,
        patterns: patterns_of(alloc, home, scopes, raw, numbers.patterns)?,
    })
}

/// The rule of a raw rule, by its kind.
pub fn own_rule(
    alloc: Global,
    home: &Home,
    scopes: &[Repository],
    raw: &RawRule,
    numbers: FirstNumbers,
) -> Result<Rule, OutOfMemory>
    ensures { IfOk result (λ rule. rule ≡ own_rule home.now.loaded.now home.now.grammar.now scopes.now numbers (tree_of raw.now)) }
{
    if let Some(match_text) = filled(&raw.match_text) {
        return match_rule(alloc, home, raw, numbers, match_text);
    }
    let Some(begin) = &raw.begin else {
        return only(alloc, home, scopes, raw, numbers);
    };
    match filled(&raw.while_text) {
        Some(while_text) => begin_while(alloc, home, scopes, raw, numbers, begin, while_text),
        None => begin_end(alloc, home, scopes, raw, numbers, begin),
    }
}
