//! The rules of a setting, ready to be searched. A rule is named by its number.
ghost use Rattle.std.specs.Prelude.{◌≡◌, ◌<◌, ◌^◌, ◌+◌, ◌++◌, ◌∷◌, flat_map, length, map, slice_get, Some, None, IfOk, OnOk, MatchOption};
ghost use Rattle.std.specs.Option.{option_copied};
ghost use Rattle.tm_onig_scan.specs.Winner.{trees_of};
ghost use Rattle.tm_rules.specs.Candidates.{flattened_candidates};
ghost use Rattle.tm_defs.specs.declared.rules.Rule.{Rule};
ghost use Rattle.tm_line_lint.specs.Unread.{AreKnown, unread_in};
ghost use Rattle.tm_line.specs.inner.Prepared.{AreInsides, IsInside, number_of, patterns_read};

use crate::groups::Groups;
use crate::names::fixed_scopes;
use crate::texts::{content_name_in, end_last_in, name_in};
use std::alloc::Global;
use std::marker::Model;
use tm_defs::memory::OutOfMemory;
use tm_defs::rules::Rule;
use tm_defs::texts::ScopePath;
use tm_line_lint::texts::{own_end, start_text};
use tm_line_lint::{Reads, Unread, add_unreadable};
use tm_onig_atom::store::Sets;
use tm_onig_scan::Scanner;
use tm_onig_scan::candidates::Candidates;
use tm_patcache::cache::PatCache;
use tm_rules::candidate::Candidate;
use tm_rules::rules::Rules;

/// How many programs of ends with what their begins captured are kept.
const ENDS_KEPT: u32 = 256;

/// What is searched inside a rule: its candidates by the numbers of their patterns, in their order, and whether its end
/// is the last of them or the first, where it has an end. And the names that it pushes, where they are the same for
/// every match, and what it says of groups.
#[derive(Drop)]
pub struct Inside {
    pub list: Candidates,
    pub end_last: Option<bool>,
    pub name: Option<ScopePath>,
    pub content_name: Option<ScopePath>,
    pub groups: Groups,
}

/// The rules by number, one scanner of the patterns that start them and of those that end them, what is searched
/// inside each, and the programs of ends that were made. Contracts see the list of the rules.
#[derive(Drop)]
pub struct Prepared {
    pub(crate) rules: Rules,
    pub(crate) scanner: Scanner,
    insides: Vec<Inside>,
    pub(crate) ends: PatCache,
    pub(crate) alloc: Global,
}

impl Model for Prepared {
    ghost use Rattle.std.specs.Prelude.{List, ◌≡◌};
    ghost use Rattle.tm_onig_scan.specs.Winner.{trees_of};
    ghost use Rattle.tm_line.specs.inner.Prepared.{AreInsides, patterns_read};
    ghost use Rattle.tm_defs.specs.declared.rules.Rule.{Rule};

    ghost Value = { List Rule };

    ghost view = { λ a. a.rules };

    ghost invariant = { λ a. AreInsides a.rules a.insides.items × (trees_of a.scanner ≡ patterns_read a.rules) };
}

/// The number of the pattern of a candidate of this rule, of so many rules.
fn number_of(count: u32, n: u32, candidate: Candidate) -> u32
    requires few { count < 2 ^ 31 }
    requires within { n < count }
    ensures { result ≡ number_of count n candidate }
{
    match candidate {
        Candidate::Start(m) => { if m < count { m } else { count + count } }
        Candidate::End => count + n,
    }
}

/// The numbers of the patterns of a rule's candidates, in their order.
fn numbers_of(
    alloc: Global,
    count: u32,
    n: u32,
    candidates: &[Candidate],
) -> Result<Vec<u32>, OutOfMemory>
    requires few { count < 2 ^ 31 }
    requires within { n < count }
    ensures { IfOk result (λ numbers. numbers.items ≡ map (number_of count n) candidates.now) }
{
    let mut numbers = Vec::new(alloc);
    for candidate in candidates {
        numbers.push(number_of(count, n, *candidate))?;
    }
    Ok(numbers)
}

/// The patterns of the rules.
fn scanner_of(alloc: Global, sets: &mut Sets, rules: &Rules) -> Result<Scanner, OutOfMemory>
    ensures { IfOk result (λ scanner. trees_of scanner ≡ patterns_read rules.now) }
{
    let mut scanner = Scanner::new(alloc);
    for n in 0..rules.len() {
        scanner.push_with(alloc, sets, start_text(rules.rule(n)))?;
    }
    for n in 0..rules.len() {
        scanner.push_with(alloc, sets, own_end(rules.rule(n)))?;
    }
    Ok(scanner)
}

/// What is searched inside a rule.
fn inside_of(alloc: Global, rules: &Rules, scanner: &Scanner, n: u32) -> Result<Inside, OutOfMemory>
    requires few { length rules.now < 2 ^ 31 }
    requires within { n < length rules.now }
    requires read { trees_of scanner.now ≡ patterns_read rules.now }
    ensures { IfOk result (λ inside. IsInside rules.now n inside) }
{
    let rule = rules.rule(n);
    let numbers = numbers_of(alloc, rules.len(), n, rules.candidates(n))?;
    if numbers.len() > u32::MAX as usize {
        return Err(OutOfMemory);
    }
    Ok(Inside {
        list: scanner.candidates(alloc, numbers)?,
        end_last: end_last_in(rule),
        name: fixed_scopes(alloc, name_in(rule))?,
        content_name: fixed_scopes(alloc, content_name_in(rule))?,
        groups: Groups::of(alloc, rule)?,
    })
}

/// What is searched inside each of the rules.
fn insides_of(alloc: Global, rules: &Rules, scanner: &Scanner) -> Result<Vec<Inside>, OutOfMemory>
    requires few { length rules.now < 2 ^ 31 }
    requires read { trees_of scanner.now ≡ patterns_read rules.now }
    ensures { IfOk result (λ insides. AreInsides rules.now insides.items) }
{
    let mut insides = Vec::new(alloc);
    for n in 0..rules.len() {
        insides.push(inside_of(alloc, rules, scanner, n)?)?;
    }
    Ok(insides)
}

impl Prepared {
    /// The same rules, with their patterns read, by the store of sets that is lent. 2^31 rules or more are want of
    /// memory.
    pub fn build(alloc: Global, sets: &mut Sets, rules: Rules) -> Result<Self, OutOfMemory>
        ensures { IfOk result (λ built. built ≡ rules) }
    {
        if rules.len() >= 1 << 31 {
            return Err(OutOfMemory);
        }
        let scanner = scanner_of(alloc, sets, &rules)?;
        let insides = insides_of(alloc, &rules, &scanner)?;
        let ends = PatCache::new(alloc, ENDS_KEPT)?;
        Ok(Prepared {
            rules,
            scanner,
            insides,
            ends,
            alloc,
        })
    }

    /// What is known of the patterns of the rule of a number: they have been read.
    fn reads(&self, n: u32) -> Reads
        requires { n < length self.now }
        ensures { (rule : Rule) → slice_get self.now n ≡ Some rule → AreKnown rule result }
    {
        let count = self.rules.len();
        let all = self.scanner.len();
        let start = self.scanner.readable(n);
        let end = self.scanner.readable(all - count + n);
        Reads { start, end }
    }

    /// The unreadable patterns, by rising number of their rules, and of one rule in the order begin, end, match, while.
    pub(crate) fn unreadable(
        &self,
        alloc: Global,
        sets: &mut Sets,
    ) -> Result<Vec<Unread>, OutOfMemory>
        ensures { IfOk result (λ all. all.items ≡ flat_map unread_in self.now) }
    {
        let mut found = Vec::new(alloc);
        for n in 0..self.rules.len() {
            let reads = self.reads(n);
            add_unreadable(alloc, sets, &mut found, self.rules.rule(n), reads)?;
        }
        Ok(found)
    }

    /// The rule of a number.
    pub(crate) fn rule(&self, n: u32) -> Option<&Rule>
        ensures { option_copied result ≡ slice_get self.now n }
    {
        if n < self.rules.len() {
            Some(self.rules.rule(n))
        } else {
            None
        }
    }

    /// What is searched inside the rule of a number; a number without a rule has nothing inside.
    pub(crate) fn inside(&self, n: u32) -> Option<&Inside>
        ensures { MatchOption result (slice_get self.now n ≡ None) (λ inside. IsInside self.now n inside.now) }
    {
        match self.insides.get(n as usize) {
            Some(inside) => Some(inside),
            None => None,
        }
    }
}
