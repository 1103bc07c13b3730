//! A grammar file as a raw tree, or why it is refused.
ghost use Rattle.std.specs.Prelude.{◌≡◌, ◌≢◌, ◌↔◌, ℕ, List, codes, IfOk, IfErr, None, Ok, Err, option_map};
ghost use Rattle.serde_json.specs.Data.{Data};
ghost use Rattle.serde_json.specs.View.{view};
ghost use Rattle.tm_grammar.specs.File.{GrammarTree, grammar_tree, root_in, scope_of, grammar_of, value_in};
ghost use Rattle.tm_grammar.specs.Answer.{IsTreeOf, IsCauseIn, answer_of, answer_from};
ghost use Rattle.tm_grammar.specs.declared.fault.JsonFault.TheVariants as fault;

use crate::fault::JsonFault;
use crate::raw::{RawNames, RawRule};
use crate::{tree, values, wrong};
use serde_json::Value;
use std::alloc::Global;
use std::marker::Model;
use tm_defs::memory::OutOfMemory;
use tm_defs::texts::Name;

/// A grammar as its file says it.
#[derive(Drop)]
pub struct RawGrammar {
    scope_name: Name,
    root: RawRule,
    injections: RawNames,
    injection_selector: Option<Name>,
}

impl Model for RawGrammar {
    ghost use Rattle.std.specs.Coded.{codes};
    ghost use Rattle.tm_grammar.specs.File.{GrammarTree, grammar_tree};
    ghost use Rattle.tm_grammar.specs.contracts.raw.RawRule as rule;

    ghost Value = { GrammarTree };

    ghost coded = { Prim.hlevel (codes, rule.the_row.coded) };

    ghost view = { λ a. grammar_tree a.scope_name a.root a.injections a.injection_selector };
}

/// The value of a file.
fn value_of(alloc: Global, bytes: &[u8]) -> Result<Option<Value>, OutOfMemory>
    ensures { IfOk result (λ found. option_map view found ≡ value_in bytes.now) }
{
    match Value::from_slice(alloc, bytes) {
        Ok(value) => Ok(Some(value)),
        Err(error) => {
            if error.is_memory() {
                Err(OutOfMemory)
            } else {
                Ok(None)
            }
        }
    }
}

/// The grammar's own patterns and repository, as those of one rule at the empty path.
fn root_in(alloc: Global, value: &Value) -> Result<RawRule, OutOfMemory>
    ensures { IfOk result (λ root. root ≡ root_in (view value.now)) }
{
    let patterns = tree::patterns_at(alloc, &[], value, "patterns")?;
    let repository = tree::repository_at(alloc, &[], value, "repository")?;
    let path = Name::new(Vec::new(alloc));
    Ok(RawRule::plain(path, None, None, patterns, repository))
}

fn scope_of(alloc: Global, value: &Value) -> Result<Name, OutOfMemory>
    ensures { IfOk result (λ name. name ≡ scope_of (view value.now)) }
{
    match values::text_at(alloc, value, "scopeName")? {
        Some(name) => Ok(name),
        None => Ok(Name::new(Vec::new(alloc))),
    }
}

fn grammar_of(alloc: Global, value: &Value) -> Result<RawGrammar, OutOfMemory>
    ensures { IfOk result (λ grammar. grammar ≡ grammar_of (view value.now)) }
{
    let scope_name = scope_of(alloc, value)?;
    let root = root_in(alloc, value)?;
    let injections = tree::repository_at(alloc, &[], value, "injections")?;
    let injection_selector = values::text_at(alloc, value, "injectionSelector")?;
    Ok(RawGrammar {
        scope_name,
        root,
        injections,
        injection_selector,
    })
}

/// The grammar of a value, or the path of the first wrong one in it.
fn grammar_from(alloc: Global, value: &Value) -> Result<RawGrammar, JsonFault>
    ensures { result ≢ Err fault.OutOfMemory → result ≡ answer_from (view value.now) }
{
    match wrong::wrong_in(alloc, value) {
        Ok(None) => match grammar_of(alloc, value) {
            Ok(grammar) => Ok(grammar),
            Err(_) => Err(JsonFault::OutOfMemory),
        },
        Ok(Some(path)) => Err(JsonFault::BadShape(path)),
        Err(_) => Err(JsonFault::OutOfMemory),
    }
}

impl RawGrammar {
    /// Reads a whole file. What a known key holds is kept, each rule with its path.
    pub fn from_slice(alloc: Global, bytes: &[u8]) -> Result<RawGrammar, JsonFault>
        // A tree is that of the bytes' value, in which nothing is wrong.
        ensures tree { IfOk result (λ tree. IsTreeOf tree bytes.now) }
        // `NotJson` has no value for its cause, and `BadShape` the path of the first wrong one.
        ensures cause { IfErr result (IsCauseIn bytes.now) }
        // Where memory suffices, the answer is that of the definition: each comes where it has to.
        ensures exact { result ≢ Err fault.OutOfMemory → result ≡ answer_of (value_in bytes.now) }
    {
        match value_of(alloc, bytes) {
            Ok(Some(value)) => grammar_from(alloc, &value),
            Ok(None) => Err(JsonFault::NotJson),
            Err(_) => Err(JsonFault::OutOfMemory),
        }
    }

    /// The scope of every line.
    pub fn scope_name(&self) -> &Name
        ensures { result.now ≡ self.now.scope_name }
    {
        &self.scope_name
    }

    /// The grammar's own patterns and repository, as those of one rule at the empty path.
    pub fn root(&self) -> &RawRule
        ensures { result.now ≡ self.now.root }
    {
        &self.root
    }

    /// The rules to inject, each with the text of its selector.
    pub fn injections(&self) -> &[(Name, RawRule)]
        ensures { result.now ≡ self.now.injections }
    {
        self.injections.as_slice()
    }

    /// The selector by which the grammar is injected into others.
    pub fn injection_selector(&self) -> Option<&Name>
        ensures { option_map (λ name. name.now) result ≡ self.now.injection_selector }
    {
        self.injection_selector.as_ref()
    }
}

fn crosses<T: Send + Sync>(value: &T) {
    let _value = value;
}

/// Grammars, and the rules within them, may cross and be shared between threads.
pub fn grammars_cross(grammar: &RawGrammar, rule: &RawRule) {
    crosses(grammar);
    crosses(rule);
}
