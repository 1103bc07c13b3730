//! What includes see of the loaded grammars.
ghost use Rattle.std.specs.Prelude.{◌≡◌, IfOk, OnOk};
ghost use Rattle.std.specs.BTreeMap.{insert_entry};
ghost use Rattle.std.specs.Cmp.Lexicographic.{slice_cmp};
ghost use Rattle.std.specs.Ordering.{nat_cmp};
ghost use Rattle.tm_rules.specs.inner.Keyed.{keyed};
ghost use Rattle.tm_rules.specs.Includes.{entries, named};
ghost use Rattle.tm_rules.specs.Tree.{names_of};

use crate::sizes;
use std::alloc::Global;
use std::collections::BTreeMap;
use std::marker::Model;
use tm_defs::memory::OutOfMemory;
use tm_defs::texts::Name;
use tm_grammar::raw::RawRule;

/// The names of a repository with the numbers of their rules. A look-up takes the time of comparing one
/// name for each doubling of their number.
#[derive(Drop)]
pub struct Repository {
    numbers: BTreeMap<Vec<char>, u32>,
}

impl Model for Repository {
    ghost use Rattle.std.specs.Prelude.{ℕ, List};
    ghost use Rattle.tm_rules.specs.inner.Keyed.{keyed};

    ghost Value = { List (List ℕ × ℕ) };

    ghost view = { λ a. keyed a.numbers.entries };
}

impl Repository {
    pub fn new(numbers: BTreeMap<Vec<char>, u32>) -> Repository
        ensures { result ≡ keyed numbers.entries }
    {
        Repository { numbers }
    }

    /// The number of the rule of this name.
    pub fn find(&self, name: &[char]) -> Option<u32>
        ensures { result ≡ named name.now self.now }
    {
        find_in(&self.numbers, name)
    }
}

fn find_in(numbers: &BTreeMap<Vec<char>, u32>, name: &[char]) -> Option<u32>
    ensures { result ≡ named name.now (keyed numbers.now.entries) }
{
    numbers.get(name).copied()
}

/// Gives a rule's name its number.
fn insert(
    alloc: Global,
    numbers: &mut BTreeMap<Vec<char>, u32>,
    name: &Name,
    number: u32,
) -> Result<(), OutOfMemory>
    ensures { OnOk result (keyed numbers.new.entries ≡ insert_entry (slice_cmp nat_cmp) (keyed numbers.old.entries) name.now number) }
{
    let name = Vec::from_slice(alloc, name.as_slice())?;
    numbers.insert(name, number)?;
    Ok(())
}

/// The names of a repository whose rules are numbered from `from` on.
pub fn entries(
    alloc: Global,
    names: &[(Name, RawRule)],
    from: u32,
) -> Result<Repository, OutOfMemory>
    ensures { IfOk result (λ es. es ≡ entries from (names_of names.now)) }
{
    let mut numbers = BTreeMap::new(alloc);
    let mut number = from;
    for i in 0..names.len() {
        insert(alloc, &mut numbers, &names[i].0, number)?;
        let Some(behind) = sizes::behind_rule(&names[i].1, number) else {
            return Err(OutOfMemory);
        };
        number = behind;
    }
    Ok(Repository::new(numbers))
}

/// A loaded grammar.
#[derive(Drop)]
pub struct Loaded {
    pub scope: Name,
    /// The number of its root rule.
    pub root: u32,
    /// Its top repository.
    pub repository: Repository,
}
