//! All rules of the loaded grammars, with their candidates.
ghost use Rattle.std.specs.Prelude.{◌≡◌, ◌<◌, ◌↔◌, length, Some, IfOk, IsErrOf, slice_get};
ghost use Rattle.tm_rules.specs.Candidates.{flattened_candidates, included_candidates};
ghost use Rattle.tm_rules.specs.Rules.{plain_rules};
ghost use Rattle.tm_rules.specs.Sizes.{rule_limit};
ghost use Rattle.tm_rules.specs.declared.grammars.RulesFault.TheVariants as fault;

use crate::candidate::Candidate;
use crate::grammars::{Grammars, RulesFault};
use crate::sizes::RULE_LIMIT;
use crate::{lists, load, walk};
use sqlite_items::Items;
use std::alloc::Global;
use std::marker::Model;
use tm_defs::memory::OutOfMemory;
use tm_defs::rules::Rule;

/// The rules of grammars by number. Contracts see the list of the rules.
#[derive(Drop)]
pub struct Rules {
    rules: Vec<Rule>,
    /// For each rule its start, which an include-only rule has not, and its own candidates.
    lists: Vec<Items<Candidate>>,
}

impl Model for Rules {
    ghost use Rattle.std.specs.Prelude.{List};
    ghost use Rattle.tm_rules.specs.inner.Lists.{AreLists};
    ghost use Rattle.tm_defs.specs.declared.rules.Rule.{Rule};

    ghost Value = { List Rule };

    ghost view = { λ a. a.rules.items };

    ghost invariant = { λ a. AreLists a.rules.items a.lists.items };
}

fn make(alloc: Global, parts: &Grammars) -> Result<Rules, OutOfMemory>
    ensures { IfOk result (λ rules. rules ≡ plain_rules parts.now) }
{
    let grammars = load::grammars_of(alloc, parts)?;
    let loaded = load::loaded_of(alloc, grammars.as_slice())?;
    let rules = walk::rules_of(alloc, grammars.as_slice(), loaded.as_slice())?;
    if rules.len() > RULE_LIMIT as usize {
        return Err(OutOfMemory);
    }
    let lists = lists::lists_of(alloc, rules.as_slice())?;
    Ok(Rules { rules, lists })
}

impl Rules {
    /// The rules of these grammars: the root grammar's first, then those of `more`, then those of
    /// `injected`. Lists of candidates that together pass 4,194,304, or take too many steps, are want of
    /// memory.
    pub fn build(alloc: Global, parts: &Grammars) -> Result<Rules, RulesFault>
        // They are those of the definition, each at the place of its number.
        ensures rules { IfOk result (λ rules. rules ≡ plain_rules parts.now) }
        // They are refused exactly where there are more than 65,535.
        ensures many { IsErrOf result fault.TooManyRules ↔ (rule_limit < length (plain_rules parts.now)) }
    {
        let Some(count) = load::count_of(parts) else {
            return Err(RulesFault::TooManyRules);
        };
        if count > RULE_LIMIT {
            return Err(RulesFault::TooManyRules);
        }
        match make(alloc, parts) {
            Ok(rules) => Ok(rules),
            Err(_) => Err(RulesFault::OutOfMemory),
        }
    }

    /// How many rules there are.
    pub fn len(&self) -> u32
        ensures { result ≡ length self.now }
    {
        self.rules.len() as u32
    }

    /// The rule of a number.
    pub fn rule(&self, n: u32) -> &Rule
        requires { n < length self.now }
        ensures { slice_get self.now n ≡ Some result.now }
    {
        &self.rules[n as usize]
    }

    /// The root rule of the root grammar.
    pub fn root(&self) -> u32
        ensures { result ≡ 0 }
    {
        let _ = &self.rules;
        0
    }

    /// The candidates of a rule, in the order in which they are tried.
    pub fn candidates(&self, n: u32) -> &[Candidate]
        requires { n < length self.now }
        ensures { result.now ≡ flattened_candidates self.now n }
    {
        let list = self.lists[n as usize].as_slice();
        match &self.rules[n as usize] {
            Rule::Only { .. } => list,
            Rule::Match { .. } => &list[1..],
            Rule::BeginEnd { .. } => &list[1..],
            Rule::BeginWhile { .. } => &list[1..],
        }
    }

    /// What an include of a rule contributes.
    pub fn included(&self, n: u32) -> &[Candidate]
        requires { n < length self.now }
        ensures { result.now ≡ included_candidates self.now n }
    {
        let list = self.lists[n as usize].as_slice();
        match &self.rules[n as usize] {
            Rule::Only { .. } => list,
            Rule::Match { .. } => &list[..1],
            Rule::BeginEnd { .. } => &list[..1],
            Rule::BeginWhile { .. } => &list[..1],
        }
    }
}

fn crosses<T: Send + Sync>(value: &T) {
    let _value = value;
}

/// Rules may cross and be shared between threads.
pub fn rules_cross(rules: &Rules) {
    crosses(rules);
}
