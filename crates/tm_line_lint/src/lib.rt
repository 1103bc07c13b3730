//! The unreadable patterns of rules.
//!
//! A grammar with a pattern that is none is used all the same: the pattern matches nowhere. Its author
//! wants to be told, so each such pattern is listed with the scope of its grammar and the path of its key.
//! An end or a while whose text refers to what the begin captured has no one pattern; it is tried as if
//! every captured text was empty.
#![tactic(auto)]

ghost use Rattle.std.specs.Prelude.{◌≡◌, ◌↔◌, ◌<◌, ◌++◌, flat_map, length, IfOk, OnOk, IsErrOf};
ghost use Rattle.tm_rules.specs.Rules.{plain_rules};
ghost use Rattle.tm_rules.specs.Sizes.{rule_limit};
ghost use Rattle.tm_rules.specs.declared.grammars.RulesFault.TheVariants as fault;
ghost use Rattle.tm_line_lint.specs.Unread.{unread_in, AreKnown};

pub mod texts;

use std::alloc::Global;
use tm_defs::memory::OutOfMemory;
use tm_defs::rules::Rule;
use tm_defs::texts::Name;
use tm_onig_atom::store::Sets;
use tm_rules::grammars::{Grammars, RulesFault};
use tm_rules::rules::Rules;

/// A pattern that is unreadable: the scope of its grammar, and the JSON Pointer of its key in the
/// grammar's file.
#[derive(Drop)]
pub struct Unread {
    pub grammar: Name,
    pub path: Name,
}

/// What a reader of a rule's patterns knows: whether the pattern that starts it is readable, and the one that ends it
/// as it stands in the grammar. A pattern that the rule has not is told unreadable.
#[derive(Clone, Copy, Debug, PartialEq, Eq)]
pub struct Reads {
    pub start: bool,
    pub end: bool,
}

/// Adds the unreadable patterns of a rule, in the order begin, end, match, while, where it is known which of its
/// patterns are readable. So what was read is not read again: only a `while`, and an end that refers to what its begin
/// captured, are read here.
pub fn add_unreadable(
    alloc: Global,
    sets: &mut Sets,
    found: &mut Vec<Unread>,
    rule: &Rule,
    reads: Reads,
) -> Result<(), OutOfMemory>
    requires { AreKnown rule.now reads }
    ensures { OnOk result (found.new.items ≡ found.old.items ++ unread_in rule.now) }
{
    texts::look_in(alloc, sets, found, rule, reads)
}

/// The unreadable patterns, by rising number of their rules, and of one rule in the order begin, end,
/// match, while. What the patterns name is in the store that is lent, from then on.
pub fn unreadable_with(
    alloc: Global,
    sets: &mut Sets,
    rules: &Rules,
) -> Result<Vec<Unread>, OutOfMemory>
    ensures { IfOk result (λ all. all.items ≡ flat_map unread_in rules.now) }
{
    let mut found = Vec::new(alloc);
    for n in 0..rules.len() {
        let rule = rules.rule(n);
        let reads = texts::reads_of(alloc, sets, rule)?;
        add_unreadable(alloc, sets, &mut found, rule, reads)?;
    }
    Ok(found)
}

/// The same with a store of its own.
pub fn unreadable(alloc: Global, rules: &Rules) -> Result<Vec<Unread>, OutOfMemory>
    ensures { IfOk result (λ all. all.items ≡ flat_map unread_in rules.now) }
{
    unreadable_with(alloc, &mut Sets::new(alloc), rules)
}

/// The unreadable patterns of grammars. No program of a pattern is made.
pub fn unreadable_of(
    alloc: Global,
    sets: &mut Sets,
    grammars: &Grammars,
) -> Result<Vec<Unread>, RulesFault>
    ensures list { IfOk result (λ all. all.items ≡ flat_map unread_in (plain_rules grammars.now)) }
    // They are refused exactly where there are more than 65,535 rules.
    ensures many { IsErrOf result fault.TooManyRules ↔ (rule_limit < length (plain_rules grammars.now)) }
{
    let rules = match Rules::build(alloc, grammars) {
        Ok(rules) => rules,
        Err(fault) => return Err(fault),
    };
    match unreadable_with(alloc, sets, &rules) {
        Ok(all) => Ok(all),
        Err(_) => Err(RulesFault::OutOfMemory),
    }
}
