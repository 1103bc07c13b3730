//! What stands behind the lock: programs with the texts of their patterns, the most recently used first.
ghost use Rattle.std.specs.Prelude.{◌≡◌, ◌==◌, [], None, Some, IfOk, OnOk, IfSome, IsNone, option_map};
ghost use Rattle.std.specs.Cmp.Lexicographic.{pointwise};
ghost use Rattle.std.specs.Map.{lookup};
ghost use Rattle.std.specs.Arc.{arc_value};
ghost use Rattle.std.specs.NonZero.{non_zero_usize_get};
ghost use Rattle.lru.specs.LruCache.{lru_cache, promoted};
ghost use Rattle.tm_patcache.specs.Programs.{IsProgramOf, AreOfTheirTexts};

use lru::LruCache;
use std::alloc::{AllocError, Global};
use std::marker::Model;
use std::num::NonZeroUsize;
use std::sync::Arc;
use tm_defs::memory::OutOfMemory;
use tm_defs::texts::Name;
use tm_onig_vm::program::Prog;

/// The programs of texts; none for a text that is unreadable. Each is that of its own text. Contracts see the texts with the
/// patterns, and how many there may be.
#[derive(Drop)]
pub struct Programs {
    kept: LruCache<Name, Option<Arc<Prog>>>,
}

impl Model for Programs {
    ghost use Rattle.std.specs.Prelude.{ℕ, List, Option};
    ghost use Rattle.std.specs.Coded.{codes};
    ghost use Rattle.tm_onig_class.specs.declared.patterns.Pattern.{Pattern};
    ghost use Rattle.tm_onig_class.specs.contracts.patterns.Pattern as pattern;
    ghost use Rattle.tm_patcache.specs.Programs.{AreOfTheirTexts, patterns_kept};

    ghost Value = { List (List ℕ × Option Pattern) × ℕ };

    ghost coded = { Prim.hlevel (codes, pattern.the_row.coded) };

    ghost view = { λ a. (patterns_kept a.kept.entries, a.kept.cap) };

    ghost invariant = { λ a. AreOfTheirTexts a.kept.entries };
}

/// What is kept of a text.
fn seen_in(
    kept: &LruCache<Name, Option<Arc<Prog>>>,
    text: &Name,
) -> Result<Option<Option<Arc<Prog>>>, OutOfMemory>
    requires { AreOfTheirTexts kept.now.entries }
    ensures right { IfOk result (λ found. IfSome found (IsProgramOf text.now)) }
    ensures absent { IfOk result (λ found. IsNone found → lookup (pointwise ◌==◌ text.now) kept.now.entries ≡ None) }
{
    match kept.peek(text) {
        Some(Some(program)) => Ok(Some(Some(Arc::clone(program)?))),
        Some(None) => Ok(Some(None)),
        None => Ok(None),
    }
}

/// The same, and it becomes the most recently used.
fn found_in(
    kept: &mut LruCache<Name, Option<Arc<Prog>>>,
    text: &Name,
) -> Result<Option<Option<Arc<Prog>>>, OutOfMemory>
    requires { AreOfTheirTexts kept.old.entries }
    ensures kept { AreOfTheirTexts kept.new.entries }
    ensures right { IfOk result (λ found. IfSome found (IsProgramOf text.now)) }
    ensures absent { IfOk result (λ found. IsNone found → lookup (pointwise ◌==◌ text.now) kept.old.entries ≡ None) }
    ensures capacity { kept.new.cap ≡ kept.old.cap }
    ensures used { OnOk result (kept.new ≡ lru_cache (promoted (pointwise ◌==◌ text.now) kept.old.entries) kept.old.cap) }
{
    let found = seen_in(kept, text)?;
    kept.promote(text);
    Ok(found)
}

/// Keeps the program of a text. Where there is no room, the entry that was used least recently falls away.
fn put_in(
    kept: &mut LruCache<Name, Option<Arc<Prog>>>,
    text: Name,
    program: Option<Arc<Prog>>,
) -> Result<(), OutOfMemory>
    requires kept { AreOfTheirTexts kept.old.entries }
    requires program { IsProgramOf text program }
    ensures kept { AreOfTheirTexts kept.new.entries }
    ensures put { OnOk result (lookup (pointwise ◌==◌ text) kept.new.entries ≡ Some program) }
    ensures capacity { kept.new.cap ≡ kept.old.cap }
{
    kept.put(text, program)?;
    Ok(())
}

impl Programs {
    /// Room for this many texts.
    pub fn new(alloc: Global, capacity: NonZeroUsize) -> Result<Self, AllocError>
        ensures { IfOk result (λ programs. programs ≡ ([], non_zero_usize_get capacity)) }
    {
        let kept = LruCache::new(alloc, capacity)?;
        Ok(Programs { kept })
    }

    /// What is kept of a text, which becomes the most recently used.
    pub fn find(&mut self, text: &Name) -> Result<Option<Option<Arc<Prog>>>, OutOfMemory>
        ensures right { IfOk result (λ found. IfSome found (IsProgramOf text.now)) }
        ensures absent { IfOk result (λ found. IsNone found → lookup (pointwise ◌==◌ text.now) self.old.0 ≡ None) }
        ensures room { self.new.1 ≡ self.old.1 }
    {
        found_in(&mut self.kept, text)
    }

    /// Keeps the program of a text. Where there is no room, the entry that was used least recently falls away.
    pub fn keep(&mut self, text: Name, program: Option<Arc<Prog>>) -> Result<(), OutOfMemory>
        requires { IsProgramOf text program }
        ensures put { OnOk result (lookup (pointwise ◌==◌ text) self.new.0 ≡ Some (option_map arc_value program)) }
        ensures room { self.new.1 ≡ self.old.1 }
    {
        put_in(&mut self.kept, text, program)
    }
}
