//! The grammar file, which `tm_grammar` reads as a raw tree.
ghost use Rattle.std.specs.Prelude.{◌≡◌, Ok, Err, if◌then◌else◌};
ghost use Rattle.tm_forms.specs.declared.form.Refusal.TheVariants.{NotYet};
ghost use Rattle.tm_forms.specs.Grammar.{has_later, has_later_captured, has_later_keyed, has_later_listed, is_later};

use crate::form::{Form, Refusal};
use crate::utf8;
use std::alloc::Global;
use tm_defs::memory::OutOfMemory;
use tm_defs::texts::Name;
use tm_grammar::fault::JsonFault;
use tm_grammar::grammar::RawGrammar;
use tm_grammar::raw::{RawCaptures, RawList, RawRule};

/// Whether a rule, or one inside it, has a key that is not built yet.
#[cycle(later)]
#[tactic(auto, using(crate::proofs::Later::opened))]
fn has_later(raw: &RawRule) -> bool
    ensures { result ≡ has_later raw.now }
{
    if raw.while_text.is_some() || raw.while_captures.is_some() {
        return true;
    }
    if later_captured(&raw.captures) || later_captured(&raw.begin_captures) {
        return true;
    }
    later_captured(&raw.end_captures)
        || later_listed(&raw.patterns)
        || later_named(raw.repository.as_slice())
}

#[cycle(later)]
fn later_captured(captures: &Option<RawCaptures>) -> bool
    ensures { result ≡ has_later_captured captures.now }
{
    let Some(captures) = captures else {
        return false;
    };
    let all = captures.as_slice();
    for i in 0..all.len() {
        if has_later(&all[i].1) {
            return true;
        }
    }
    false
}

#[cycle(later)]
fn later_listed(rules: &Option<RawList>) -> bool
    ensures { result ≡ has_later_listed rules.now }
{
    let Some(rules) = rules else {
        return false;
    };
    let all = rules.as_slice();
    for i in 0..all.len() {
        if has_later(&all[i]) {
            return true;
        }
    }
    false
}

#[cycle(later)]
fn later_named(rules: &[(Name, RawRule)]) -> bool
    ensures { result ≡ has_later_keyed rules.now }
{
    for i in 0..rules.len() {
        if has_later(&rules[i].1) {
            return true;
        }
    }
    false
}

/// Whether a grammar is of a form that is not built yet.
fn is_later(grammar: &RawGrammar) -> bool
    ensures { result ≡ is_later grammar.now }
{
    grammar.injections().len() > 0
        || grammar.injection_selector().is_some()
        || has_later(grammar.root())
}

fn built(grammar: RawGrammar) -> Result<RawGrammar, Refusal>
    ensures { result ≡ (if is_later grammar then Err NotYet else Ok grammar) }
{
    if is_later(&grammar) {
        Err(Refusal::NotYet)
    } else {
        Ok(grammar)
    }
}

impl Form for RawGrammar {
    ghost use Rattle.tm_grammar.specs.File.{GrammarTree};
    ghost use Rattle.tm_forms.specs.Grammar.{grammar_in};

    ghost Plain = { GrammarTree };

    ghost plain = { λ grammar. grammar };

    ghost form = { grammar_in };

    fn read(alloc: Global, bytes: &[u8]) -> Result<Result<Self, Refusal>, OutOfMemory> {
        match RawGrammar::from_slice(alloc, utf8::skip_mark(bytes)) {
            Ok(grammar) => Ok(built(grammar)),
            Err(JsonFault::NotJson) => Ok(Err(Refusal::NotJson)),
            Err(JsonFault::BadShape(path)) => Ok(Err(Refusal::BadShape(path))),
            Err(JsonFault::OutOfMemory) => Err(OutOfMemory),
        }
    }
}
