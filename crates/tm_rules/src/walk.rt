//! The walk over grammars in which their rules are made, each behind those before it.
//!
//! It goes down a raw rule, which nests no deeper than its file. At each rule it counts the rules in its
//! parts, so that a name of its repository has its number before what is inside the rule is made. The
//! time is that of the rules, times how deep they nest.
ghost use Rattle.std.specs.Prelude.{◌≡◌, ◌+◌, ◌++◌, ◌∷◌, [], map, IfOk, OnOk, if◌then◌else◌};
ghost use Rattle.tm_rules.specs.Sizes.{has_patterns, inside_size};
ghost use Rattle.tm_rules.specs.Rules.{own_rule, rule_at, rules_inside, rules_in_captures, rules_in_items, rules_in_names, grammar_rules, rules_from};
ghost use Rattle.tm_rules.specs.inner.Walk.{rules_in_parts};
ghost use Rattle.tm_grammar.specs.declared.raw.RawRule.TheViews.{out-RawRule};
ghost use Rattle.tm_rules.specs.Tree.{tree_of, captures_of_if, items_of_if, names_of};

use crate::includes::Home;
use crate::loaded::{self, Loaded, Repository};
use crate::sizes::{self, FirstNumbers};
use crate::{load, made};
use std::alloc::Global;
use tm_defs::memory::OutOfMemory;
use tm_defs::rules::Rule;
use tm_defs::texts::Name;
use tm_grammar::grammar::RawGrammar;
use tm_grammar::raw::{RawCaptures, RawList, RawRule};

/// The rules so far, and the repositories around the place of the walk, the outermost first.
#[derive(Drop)]
pub struct Walk {
    pub scopes: Vec<Repository>,
    pub rules: Vec<Rule>,
}

/// Makes the rule itself, if it is one.
fn push_own(
    alloc: Global,
    home: &Home,
    walk: &mut Walk,
    raw: &RawRule,
    numbers: FirstNumbers,
    is_rule: bool,
) -> Result<(), OutOfMemory>
    ensures scopes { OnOk result (walk.new.scopes.items ≡ walk.old.scopes.items) }
    ensures rules { OnOk result (walk.new.rules.items ≡ walk.old.rules.items
        ++ (if is_rule then own_rule home.now.loaded.now home.now.grammar.now walk.old.scopes.items numbers (tree_of raw.now) ∷ [] else [])) }
{
    if is_rule {
        let rule = made::own_rule(alloc, home, walk.scopes.as_slice(), raw, numbers)?;
        walk.rules.push(rule)?;
    }
    Ok(())
}

/// Makes the rules in the parts of a rule, in their order.
#[cycle(walk)]
fn walk_parts(
    alloc: Global,
    home: &Home,
    walk: &mut Walk,
    raw: &RawRule,
    numbers: FirstNumbers,
) -> Result<(), OutOfMemory>
    ensures scopes { OnOk result (walk.new.scopes.items ≡ walk.old.scopes.items) }
    ensures rules { OnOk result (walk.new.rules.items ≡ walk.old.rules.items
        ++ rules_in_parts home.now.loaded.now home.now.grammar.now walk.old.scopes.items numbers (out-RawRule raw.now)) }
{
    walk_captures(
        alloc,
        home,
        walk,
        &raw.begin_captures,
        numbers.begin_captures,
    )?;
    walk_captures(alloc, home, walk, &raw.captures, numbers.captures)?;
    walk_captures(alloc, home, walk, &raw.end_captures, numbers.end_captures)?;
    walk_items(alloc, home, walk, &raw.patterns, numbers.patterns)?;
    walk_names(
        alloc,
        home,
        walk,
        raw.repository.as_slice(),
        numbers.repository,
    )?;
    walk_captures(
        alloc,
        home,
        walk,
        &raw.while_captures,
        numbers.while_captures,
    )
}

/// Makes the rules inside a rule, numbered from `from` on, and before them the rule itself if it is one.
#[cycle(walk)]
pub fn walk_rule(
    alloc: Global,
    home: &Home,
    walk: &mut Walk,
    raw: &RawRule,
    from: u32,
    is_rule: bool,
) -> Result<(), OutOfMemory>
    ensures scopes { OnOk result (walk.new.scopes.items ≡ walk.old.scopes.items) }
    ensures rules { let loaded = home.now.loaded.now in let grammar = home.now.grammar.now in let scopes = walk.old.scopes.items in
        OnOk result (walk.new.rules.items ≡ walk.old.rules.items
        ++ ((if is_rule then rule_at loaded grammar scopes from (tree_of raw.now) ∷ [] else []) ++ rules_inside loaded grammar scopes from (tree_of raw.now))) }
{
    let Some(numbers) = sizes::first_numbers(raw, from) else {
        return Err(OutOfMemory);
    };
    let names = loaded::entries(alloc, raw.repository.as_slice(), numbers.repository)?;
    walk.scopes.push(names)?;
    push_own(alloc, home, walk, raw, numbers, is_rule)?;
    walk_parts(alloc, home, walk, raw, numbers)?;
    let _names = walk.scopes.pop();
    Ok(())
}

/// Makes the rules of captures, numbered from `from` on.
#[cycle(walk)]
fn walk_captures(
    alloc: Global,
    home: &Home,
    walk: &mut Walk,
    captures: &Option<RawCaptures>,
    from: u32,
) -> Result<(), OutOfMemory>
    ensures scopes { OnOk result (walk.new.scopes.items ≡ walk.old.scopes.items) }
    ensures rules { OnOk result (walk.new.rules.items ≡ walk.old.rules.items
        ++ rules_in_captures home.now.loaded.now home.now.grammar.now walk.old.scopes.items from (captures_of_if captures.now)) }
{
    let Some(captures) = captures else {
        return Ok(());
    };
    let all = captures.as_slice();
    let mut number = from;
    for i in 0..all.len() {
        number = walk_capture(alloc, home, walk, &all[i].1, number)?;
    }
    Ok(())
}

/// Makes the rules of a capture, and gives the number behind them.
#[cycle(walk)]
fn walk_capture(
    alloc: Global,
    home: &Home,
    walk: &mut Walk,
    raw: &RawRule,
    from: u32,
) -> Result<u32, OutOfMemory>
    ensures scopes { OnOk result (walk.new.scopes.items ≡ walk.old.scopes.items) }
    ensures behind { IfOk result (λ behind. behind ≡ from + ((if has_patterns (tree_of raw.now) then 1 else 0) + inside_size (tree_of raw.now))) }
    ensures rules { let loaded = home.now.loaded.now in let grammar = home.now.grammar.now in let scopes = walk.old.scopes.items in
        let own = if has_patterns (tree_of raw.now) then 1 else 0 in
        OnOk result (walk.new.rules.items ≡ walk.old.rules.items
        ++ ((if has_patterns (tree_of raw.now) then rule_at loaded grammar scopes (from + own) (tree_of raw.now) ∷ [] else []) ++ rules_inside loaded grammar scopes (from + own) (tree_of raw.now))) }
{
    let Some(behind) = sizes::behind_capture(raw, from) else {
        return Err(OutOfMemory);
    };
    if sizes::has_patterns(raw) {
        let Some(inside) = sizes::next(from) else {
            return Err(OutOfMemory);
        };
        walk_rule(alloc, home, walk, raw, inside, true)?;
    } else {
        walk_rule(alloc, home, walk, raw, from, false)?;
    }
    Ok(behind)
}

/// Makes the rules of a list, numbered from `from` on.
#[cycle(walk)]
fn walk_items(
    alloc: Global,
    home: &Home,
    walk: &mut Walk,
    items: &Option<RawList>,
    from: u32,
) -> Result<(), OutOfMemory>
    ensures scopes { OnOk result (walk.new.scopes.items ≡ walk.old.scopes.items) }
    ensures rules { OnOk result (walk.new.rules.items ≡ walk.old.rules.items
        ++ rules_in_items home.now.loaded.now home.now.grammar.now walk.old.scopes.items from (items_of_if items.now)) }
{
    let Some(items) = items else {
        return Ok(());
    };
    let all = items.as_slice();
    let mut number = from;
    for i in 0..all.len() {
        if !sizes::is_include(&all[i]) {
            number = walk_own(alloc, home, walk, &all[i], number)?;
        }
    }
    Ok(())
}

/// Makes the rules of a repository, numbered from `from` on.
#[cycle(walk)]
pub fn walk_names(
    alloc: Global,
    home: &Home,
    walk: &mut Walk,
    names: &[(Name, RawRule)],
    from: u32,
) -> Result<(), OutOfMemory>
    ensures scopes { OnOk result (walk.new.scopes.items ≡ walk.old.scopes.items) }
    ensures rules { OnOk result (walk.new.rules.items ≡ walk.old.rules.items
        ++ rules_in_names home.now.loaded.now home.now.grammar.now walk.old.scopes.items from (names_of names.now)) }
{
    let mut number = from;
    for i in 0..names.len() {
        number = walk_own(alloc, home, walk, &names[i].1, number)?;
    }
    Ok(())
}

/// Makes a rule and those inside it, and gives the number behind them.
#[cycle(walk)]
fn walk_own(
    alloc: Global,
    home: &Home,
    walk: &mut Walk,
    raw: &RawRule,
    from: u32,
) -> Result<u32, OutOfMemory>
    ensures scopes { OnOk result (walk.new.scopes.items ≡ walk.old.scopes.items) }
    ensures behind { IfOk result (λ behind. behind ≡ from + (1 + inside_size (tree_of raw.now))) }
    ensures rules { let loaded = home.now.loaded.now in let grammar = home.now.grammar.now in let scopes = walk.old.scopes.items in
        OnOk result (walk.new.rules.items ≡ walk.old.rules.items
        ++ rule_at loaded grammar scopes (from + 1) (tree_of raw.now) ∷ rules_inside loaded grammar scopes (from + 1) (tree_of raw.now)) }
{
    let Some(inside) = sizes::next(from) else {
        return Err(OutOfMemory);
    };
    let Some(behind) = sizes::behind_inside(raw, inside) else {
        return Err(OutOfMemory);
    };
    walk_rule(alloc, home, walk, raw, inside, true)?;
    Ok(behind)
}

/// Makes the rules of a grammar: its root rule, those of its injections, and those inside the root rule.
fn walk_grammar(
    alloc: Global,
    home: &Home,
    walk: &mut Walk,
    raw: &RawGrammar,
) -> Result<(), OutOfMemory>
    requires { walk.old.scopes.items ≡ [] }
    ensures scopes { OnOk result (walk.new.scopes.items ≡ []) }
    ensures rules { OnOk result (walk.new.rules.items ≡ walk.old.rules.items ++ grammar_rules home.now.loaded.now home.now.grammar.now raw.now) }
{
    let root = home.grammar.root;
    let Some(inside) = load::inside_root(raw, root) else {
        return Err(OutOfMemory);
    };
    let Some(injections) = sizes::next(root) else {
        return Err(OutOfMemory);
    };
    let Some(numbers) = sizes::first_numbers(raw.root(), inside) else {
        return Err(OutOfMemory);
    };
    let names = loaded::entries(alloc, raw.root().repository.as_slice(), numbers.repository)?;
    walk.scopes.push(names)?;
    push_own(alloc, home, walk, raw.root(), numbers, true)?;
    walk_names(alloc, home, walk, raw.injections(), injections)?;
    walk.scopes.clear();
    walk_rule(alloc, home, walk, raw.root(), inside, false)?;
    Ok(())
}

/// The rules of all grammars. What includes see of them is numbered in the same order.
pub fn rules_of(
    alloc: Global,
    grammars: &[&RawGrammar],
    loaded: &[Loaded],
) -> Result<Vec<Rule>, OutOfMemory>
    ensures { IfOk result (λ rules. rules.items ≡ rules_from loaded.now loaded.now (map (λ g. g.now) grammars.now)) }
{
    let mut walk = Walk {
        scopes: Vec::new(alloc),
        rules: Vec::new(alloc),
    };
    for i in 0..grammars.len() {
        let Some(grammar) = loaded.get(i) else {
            return Err(OutOfMemory);
        };
        walk_grammar(alloc, &Home { loaded, grammar }, &mut walk, grammars[i])?;
    }
    let Walk { rules, .. } = walk;
    Ok(rules)
}
