//! Sets that were made, by name and of whole classes.
//!
//! The patterns of a grammar name the same few sets again and again, and write the same classes. Each is made
//! once, and shared from then on by all patterns that are read with one store. A store keeps few, since it is
//! gone through from its first: what comes when it is full is made anew.
ghost use Rattle.std.specs.Prelude.{◌≡◌, ℕ, Bool, IfOk, IfSome, IsTrue};
ghost use Rattle.tm_onig_class.specs.Members.{has_char, IsChar};
ghost use Rattle.tm_onig_atom.specs.Classes.{class_has};
ghost use Rattle.tm_onig_atom.specs.Escapes.{named_has};
ghost use Rattle.tm_onig_atom.specs.Widening.{widened};

use crate::meanings::Named;
use crate::parts::{Member, Part};
use std::alloc::Global;
use std::marker::Model;
use tm_defs::memory::OutOfMemory;
use tm_onig_class::names::Known;
use tm_onig_class::sets::Set;
use ucd_script::Script;
use ucd_sets as kit;

/// How many sets by name a store keeps, and how many of classes.
const MOST: usize = 64;

/// A set by name, or its complement, widened by folding or not.
#[derive(Clone, Copy, Debug, PartialEq, Eq)]
struct Key {
    named: Named,
    fold: bool,
}

fn same_script(a: Script, b: Script) -> bool
    ensures { IsTrue result → a ≡ b }
{
    a.number() == b.number()
}

fn same_known(a: Known, b: Known) -> bool
    ensures { IsTrue result → a ≡ b }
{
    match (a, b) {
        (Known::Listed(a), Known::Listed(b)) => a == b,
        (Known::Kit(kit::Set::Category(a)), Known::Kit(kit::Set::Category(b))) => a == b,
        (Known::Kit(kit::Set::CategoryGroup(a)), Known::Kit(kit::Set::CategoryGroup(b))) => a == b,
        (Known::Kit(kit::Set::Script(a)), Known::Kit(kit::Set::Script(b))) => same_script(a, b),
        _ => false,
    }
}

fn same(a: Key, b: Key) -> bool
    ensures { IsTrue result → a ≡ b }
{
    same_known(a.named.known, b.named.known)
        && a.named.negated == b.named.negated
        && a.fold == b.fold
}

/// A set that was made. Contracts see its key.
#[derive(Drop)]
struct Entry {
    key: Key,
    set: Set,
}

impl Model for Entry {
    ghost use Rattle.std.specs.Prelude.{◌≡◌, ℕ};
    ghost use Rattle.tm_onig_class.specs.Members.{has_char, IsChar};
    ghost use Rattle.tm_onig_atom.specs.declared.store.Key.{Key};
    ghost use Rattle.tm_onig_atom.specs.Escapes.{named_has};
    ghost use Rattle.tm_onig_atom.specs.Widening.{widened};

    ghost Value = { Key };

    ghost view = { λ e. e.key };

    ghost invariant = { λ e. (c : ℕ) → IsChar c → has_char e.set c ≡ widened e.key.fold (named_has e.key.named) c };
}

impl Entry {
    fn new(key: Key, set: Set) -> Entry
        requires { (c : ℕ) → IsChar c → has_char set c ≡ widened key.fold (named_has key.named) c }
        ensures { result ≡ key }
    {
        Entry { key, set }
    }

    fn key(&self) -> Key
        ensures { result ≡ self.now }
    {
        self.key
    }

    fn copy(&self) -> Result<Set, OutOfMemory>
        ensures { IfOk result (λ s. (c : ℕ) → IsChar c → has_char s c ≡ widened self.now.fold (named_has self.now.named) c) }
    {
        self.set.copy()
    }
}

/// The set of a name, or its complement.
fn named_set(alloc: Global, named: Named) -> Result<Set, OutOfMemory>
    ensures { IfOk result (λ s. (c : ℕ) → IsChar c → has_char s c ≡ named_has named c) }
{
    let set = named.known.set(alloc)?;
    if named.negated {
        set.complement()
    } else {
        Ok(set)
    }
}

/// The set, widened by folding where that is asked.
pub fn widen(set: Set, fold: bool) -> Result<Set, OutOfMemory>
    ensures { (test : ℕ → Bool) → ((c : ℕ) → IsChar c → has_char set c ≡ test c) → IfOk result (λ s. (c : ℕ) → IsChar c → has_char s c ≡ widened fold test c) }
{
    if fold { set.folded() } else { Ok(set) }
}

fn made(alloc: Global, key: Key) -> Result<Set, OutOfMemory>
    ensures { IfOk result (λ s. (c : ℕ) → IsChar c → has_char s c ≡ widened key.fold (named_has key.named) c) }
{
    widen(named_set(alloc, key.named)?, key.fold)
}

fn same_member(a: Member, b: Member) -> bool
    ensures { IsTrue result → a ≡ b }
{
    match (a, b) {
        (Member::Range(first, last), Member::Range(from, to)) => first == from && last == to,
        (Member::Set(a), Member::Set(b)) => same_known(a.known, b.known) && a.negated == b.negated,
        _ => false,
    }
}

/// Whether the parts are the same; nested classes are not compared.
fn same_part(a: &Part, b: &Part) -> bool
    ensures { IsTrue result → a.now ≡ b.now }
{
    match (a, b) {
        (Part::Adds(a), Part::Adds(b)) => same_member(*a, *b),
        (Part::Meets, Part::Meets) => true,
        _ => false,
    }
}

fn same_parts(a: &[Part], b: &[Part]) -> bool
    ensures { IsTrue result → a.now ≡ b.now }
{
    let mut left = a;
    let mut right = b;
    loop {
        match (left, right) {
            ([x, xs @ ..], [y, ys @ ..]) => {
                if !same_part(x, y) {
                    return false;
                }
                left = xs;
                right = ys;
            }
            ([], []) => return true,
            _ => return false,
        }
    }
}

/// The part again; none where it is a nested class.
fn plain_part(part: &Part) -> Option<Part>
    ensures { IfSome result (λ copy. copy ≡ part.now) }
{
    match part {
        Part::Adds(member) => Some(Part::Adds(*member)),
        Part::Meets => Some(Part::Meets),
        Part::Inner { .. } => None,
    }
}

/// The parts again; none where a class is nested in them.
fn plain_parts(alloc: Global, parts: &[Part]) -> Result<Option<Vec<Part>>, OutOfMemory>
    ensures { IfOk result (λ plain. IfSome plain (λ copy. copy.items ≡ parts.now)) }
{
    let mut copy = Vec::new(alloc);
    for i in 0..parts.len() {
        let Some(part) = plain_part(&parts[i]) else {
            return Ok(None);
        };
        copy.push(part)?;
    }
    Ok(Some(copy))
}

/// The parts of a class, whether it is widened by folding, and whether it is negated.
#[derive(Drop)]
struct ClassKey {
    fold: bool,
    negated: bool,
    parts: Vec<Part>,
}

/// The set of a class. Contracts see its key.
#[derive(Drop)]
struct ClassEntry {
    key: ClassKey,
    set: Set,
}

impl Model for ClassEntry {
    ghost use Rattle.std.specs.Prelude.{◌≡◌, ℕ};
    ghost use Rattle.tm_onig_class.specs.Members.{has_char, IsChar};
    ghost use Rattle.tm_onig_atom.specs.declared.store.ClassKey.{ClassKey};
    ghost use Rattle.tm_onig_atom.specs.Classes.{class_has};

    ghost Value = { ClassKey };

    ghost view = { λ e. e.key };

    ghost invariant = { λ e. (c : ℕ) → IsChar c → has_char e.set c ≡ class_has e.key.fold e.key.negated e.key.parts.items c };
}

impl ClassEntry {
    fn new(key: ClassKey, set: Set) -> ClassEntry
        requires { (c : ℕ) → IsChar c → has_char set c ≡ class_has key.fold key.negated key.parts.items c }
        ensures { result ≡ key }
    {
        ClassEntry { key, set }
    }

    /// The set, where the key is this one.
    fn of(&self, fold: bool, negated: bool, parts: &[Part]) -> Result<Option<Set>, OutOfMemory>
        ensures { IfOk result (λ found. IfSome found (λ s. (c : ℕ) → IsChar c → has_char s c ≡ class_has fold negated parts.now c)) }
    {
        let key = &self.key;
        if key.fold == fold && key.negated == negated && same_parts(&key.parts, parts) {
            return Ok(Some(self.set.copy()?));
        }
        Ok(None)
    }
}

/// Sets that were made, each once.
#[derive(Drop)]
pub struct Sets {
    entries: Vec<Entry>,
    classes: Vec<ClassEntry>,
}

impl Sets {
    /// None yet.
    pub fn new(alloc: Global) -> Sets {
        Sets {
            entries: Vec::new(alloc),
            classes: Vec::new(alloc),
        }
    }

    fn find(&self, key: Key) -> Result<Option<Set>, OutOfMemory>
        ensures { IfOk result (λ found. IfSome found (λ s. (c : ℕ) → IsChar c → has_char s c ≡ widened key.fold (named_has key.named) c)) }
    {
        for entry in self.entries.iter() {
            if same(entry.key(), key) {
                return Ok(Some(entry.copy()?));
            }
        }
        Ok(None)
    }

    /// The set of a name, or its complement, widened by folding or not. It is made once.
    pub(crate) fn named(
        &mut self,
        alloc: Global,
        named: Named,
        fold: bool,
    ) -> Result<Set, OutOfMemory>
        ensures { IfOk result (λ s. (c : ℕ) → IsChar c → has_char s c ≡ widened fold (named_has named) c) }
    {
        let key = Key { named, fold };
        if let Some(set) = self.find(key)? {
            return Ok(set);
        }
        let set = made(alloc, key)?;
        let copy = set.copy()?;
        if self.entries.len() < MOST {
            self.entries.push(Entry::new(key, set))?;
        }
        Ok(copy)
    }

    /// The set of a class of these parts, if it was kept.
    pub(crate) fn class(
        &self,
        fold: bool,
        negated: bool,
        parts: &[Part],
    ) -> Result<Option<Set>, OutOfMemory>
        ensures { IfOk result (λ found. IfSome found (λ s. (c : ℕ) → IsChar c → has_char s c ≡ class_has fold negated parts.now c)) }
    {
        for entry in self.classes.iter() {
            if let Some(set) = entry.of(fold, negated, parts)? {
                return Ok(Some(set));
            }
        }
        Ok(None)
    }

    /// Keeps the set of a class of these parts, where there is room and no class is nested in it.
    pub(crate) fn keep_class(
        &mut self,
        alloc: Global,
        fold: bool,
        negated: bool,
        parts: &[Part],
        set: Set,
    ) -> Result<(), OutOfMemory>
        requires { (c : ℕ) → IsChar c → has_char set c ≡ class_has fold negated parts.now c }
    {
        if self.classes.len() >= MOST {
            return Ok(());
        }
        if let Some(parts) = plain_parts(alloc, parts)? {
            let key = ClassKey {
                fold,
                negated,
                parts,
            };
            self.classes.push(ClassEntry::new(key, set))?;
        }
        Ok(())
    }
}
