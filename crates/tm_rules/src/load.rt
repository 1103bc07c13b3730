//! The grammars of a setting in their order, each with the number of its root rule.
ghost use Rattle.std.specs.Prelude.{◌≡◌, ◌+◌, ◌++◌, map, IfOk, OnOk};
ghost use Rattle.tm_rules.specs.Rules.{grammar_size, grammars_size, inside_root, own_entries, loaded_from, grammars_of};
ghost use Rattle.tm_rules.specs.Sizes.{Counts, names_size};
ghost use Rattle.tm_rules.specs.Tree.{tree_of, names_of};

use crate::grammars::Grammars;
use crate::loaded::{self, Loaded};
use crate::sizes;
use std::alloc::Global;
use tm_defs::memory::OutOfMemory;
use tm_grammar::grammar::RawGrammar;

/// The first number inside the root rule, which has this number: its injections come before.
pub fn inside_root(raw: &RawGrammar, root: u32) -> Option<u32>
    ensures { Counts (1 + names_size (names_of raw.now.injections)) root result }
{
    sizes::behind_names(raw.injections(), sizes::next(root)?)
}

/// Behind the rules of a grammar.
fn behind_grammar(raw: &RawGrammar, from: u32) -> Option<u32>
    ensures { Counts (grammar_size raw.now) from result }
{
    sizes::behind_inside(raw.root(), inside_root(raw, from)?)
}

fn behind_grammars(grammars: &[RawGrammar], from: u32) -> Option<u32>
    ensures { Counts (grammars_size grammars.now) from result }
{
    let mut behind = from;
    for i in 0..grammars.len() {
        behind = behind_grammar(&grammars[i], behind)?;
    }
    Some(behind)
}

/// How many rules there are, where there are not too many.
#[tactic(auto, using(crate::proofs::Sums::grammars_size_of))]
pub fn count_of(parts: &Grammars) -> Option<u32>
    ensures { Counts (grammars_size (grammars_of parts.now)) 0 result }
{
    let root = behind_grammar(&parts.root, 0)?;
    let more = behind_grammars(&parts.more, root)?;
    behind_grammars(&parts.injected, more)
}

/// All grammars in one list: the root grammar, the further ones, the injected ones.
pub fn grammars_of(alloc: Global, parts: &Grammars) -> Result<Vec<&RawGrammar>, OutOfMemory>
    ensures { IfOk result (λ all. map (λ g. g.now) all.items ≡ grammars_of parts.now) }
{
    let mut all = Vec::new(alloc);
    all.push(&parts.root)?;
    push_all(&mut all, &parts.more)?;
    push_all(&mut all, &parts.injected)?;
    Ok(all)
}

fn push_all<'a>(
    all: &mut Vec<&'a RawGrammar>,
    grammars: &'a [RawGrammar],
) -> Result<(), OutOfMemory>
    ensures { OnOk result (map (λ g. g.now) all.new.items ≡ map (λ g. g.now) all.old.items ++ grammars.now) }
{
    for grammar in grammars {
        all.push(grammar)?;
    }
    Ok(())
}

/// What includes see of a grammar whose root rule has this number.
fn load(alloc: Global, raw: &RawGrammar, root: u32) -> Result<Loaded, OutOfMemory>
    ensures { IfOk result (λ g. g ≡ record { scope = raw.now.scope_name; root = root; repository = own_entries (inside_root root raw.now) (tree_of raw.now.root) }) }
{
    let Some(inside) = inside_root(raw, root) else {
        return Err(OutOfMemory);
    };
    let Some(numbers) = sizes::first_numbers(raw.root(), inside) else {
        return Err(OutOfMemory);
    };
    let names = raw.root().repository.as_slice();
    Ok(Loaded {
        scope: raw.scope_name().copy()?,
        root,
        repository: loaded::entries(alloc, names, numbers.repository)?,
    })
}

/// What includes see of the grammars, numbered one behind the other.
pub fn loaded_of(alloc: Global, grammars: &[&RawGrammar]) -> Result<Vec<Loaded>, OutOfMemory>
    ensures { IfOk result (λ ls. ls.items ≡ loaded_from 0 (map (λ g. g.now) grammars.now)) }
{
    let mut all = Vec::new(alloc);
    let mut root = 0;
    for i in 0..grammars.len() {
        all.push(load(alloc, grammars[i], root)?)?;
        let Some(behind) = behind_grammar(grammars[i], root) else {
            return Err(OutOfMemory);
        };
        root = behind;
    }
    Ok(all)
}
