//! A set of characters: what a class, a letter such as `\w`, or a named set of a pattern stands for.
//!
//! Inside, the ranges are those of `regex_class` over ranks, so that membership is a search by
//! halving, and a table of bits answers for ASCII. An operation takes the time of sorting the ranges
//! that it meets; many ranges are put together by one `from_ranges`, not by unions one by one. Equal sets
//! of many patterns share their ranges: a copy takes no memory.
ghost use Rattle.std.specs.Prelude.{◌≡◌, ℕ, Bool, ◌≤◌, ◌||◌, ◌&&◌, not, nat_le, IfOk, IsTrue};
ghost use Rattle.std.specs.Arc.{arc_value};
ghost use Rattle.regex_class.specs.Ranges.{in_ranges};
ghost use Rattle.tm_onig_class.specs.Ranks.{chars_of, AreRanks};
ghost use Rattle.tm_onig_class.specs.Members.{has_char, IsChar, ranges_rise, ranges_of};
ghost use Rattle.tm_onig_class.specs.Folding.{has_alike};

use crate::ascii::ascii_of;
use crate::folding::{add_alike, meets_alike};
use crate::ranks::{LAST_RANK, rank, rank_from, rank_to};
use regex_class::{Class, ClassRange};
use std::alloc::Global;
use std::marker::Model;
use std::sync::Arc;
use tm_defs::memory::OutOfMemory;

/// A set of characters. Contracts see its ranges, first and last character: they rise, and no two
/// overlap or touch. U+E000 comes directly after U+D7FF, so no range ends where the other begins.
#[derive(Drop)]
pub struct Set {
    class: Arc<Class>,
    ascii: u128,
}

impl Model for Set {
    ghost use Rattle.std.specs.Prelude.{List, ℕ};
    ghost use Rattle.std.specs.Arc.{arc_value};
    ghost use Rattle.tm_onig_class.specs.Ranks.{chars_of};
    ghost use Rattle.tm_onig_class.specs.Ascii.{IsTied};

    ghost Value = { List (ℕ × ℕ) };

    ghost view = { λ s. chars_of (arc_value s.class).ranges.items };

    ghost invariant = { λ s. IsTied (arc_value s.class).ranges.items s.ascii };
}

impl Set {
    fn of_class(class: Class) -> Result<Set, OutOfMemory>
        requires { AreRanks class.ranges.items }
        ensures { IfOk result (λ s. s ≡ chars_of class.ranges.items) }
    {
        let ascii = ascii_of(&class);
        let alloc = *class.ranges.allocator();
        let class = Arc::new(alloc, class)?;
        Ok(Set { class, ascii })
    }

    /// Law: the ranges of a set rise, and no two touch.
    pub fn ranges_rise(&self)
        ensures { IsTrue (ranges_rise 0 self.now) }
    {
        let _class = &self.class;
    }

    /// Law: two sets with the same members have the same ranges.
    pub fn same_members(&self, other: &Set)
        ensures { ((c : ℕ) → IsChar c → has_char self.now c ≡ has_char other.now c) → self.now ≡ other.now }
    {
        let _class = &self.class;
        let _other = &other.class;
    }

    /// Law: a set has the ranges of whatever test its members pass.
    pub fn prove_exact(&self)
        ensures { (test : ℕ → Bool) → ((c : ℕ) → IsChar c → has_char self.now c ≡ test c) → self.now ≡ ranges_of test }
    {
        let _class = &self.class;
    }

    /// Law: the ranges of a test have the characters that pass.
    pub fn ranges_have()
        ensures { (test : ℕ → Bool) (c : ℕ) → IsChar c → has_char (ranges_of test) c ≡ test c }
    {}

    /// Whether the character is a member.
    pub fn has(&self, c: char) -> bool
        ensures { result ≡ has_char self.now c }
    {
        let code = c as u32;
        if code < 128 {
            (self.ascii >> code) & 1 == 1
        } else {
            self.class.contains(rank(c))
        }
    }

    /// Whether some member matches the character without regard to case.
    pub fn fold_has(&self, c: char) -> bool
        ensures { result ≡ has_alike self.now c }
    {
        self.has(c) || meets_alike(&self.class, ucd_case::fold_pairs(), c as u32)
    }

    /// The characters from `first` to `last`.
    pub fn range(alloc: Global, first: char, last: char) -> Result<Set, OutOfMemory>
        requires { first ≤ last }
        ensures { IfOk result (λ s. (c : ℕ) → IsChar c → has_char s c ≡ (nat_le first c && nat_le c last)) }
    {
        let class = Class::from_ranges(alloc, &[(rank(first), rank(last))])?;
        let set = Set::of_class(class)?;
        Ok(set)
    }

    /// The characters of the ranges, which come in any order. A range downwards is empty.
    pub fn from_ranges(alloc: Global, ranges: &[(char, char)]) -> Result<Set, OutOfMemory>
        ensures { IfOk result (λ s. (c : ℕ) → IsChar c → has_char s c ≡ in_ranges ranges.now c) }
    {
        let mut codes = Vec::new(alloc);
        for i in 0..ranges.len() {
            let range = ranges[i];
            codes.push((range.0 as u32, range.1 as u32))?;
        }
        Set::from_codes(alloc, &codes)
    }

    /// The characters among the code points of the ranges.
    pub(crate) fn from_codes(alloc: Global, ranges: &[ClassRange]) -> Result<Set, OutOfMemory>
        ensures { IfOk result (λ s. (c : ℕ) → IsChar c → has_char s c ≡ in_ranges ranges.now c) }
    {
        let mut ranks = Vec::new(alloc);
        for i in 0..ranges.len() {
            let range = ranges[i];
            ranks.push((rank_from(range.0), rank_to(range.1)))?;
        }
        let class = Class::new(ranks)?;
        let set = Set::of_class(class)?;
        Ok(set)
    }

    /// The members of either.
    pub fn union(&self, other: &Set) -> Result<Set, OutOfMemory>
        ensures { IfOk result (λ s. (c : ℕ) → IsChar c → has_char s c ≡ (has_char self.now c || has_char other.now c)) }
    {
        let class = self.class.union(&other.class)?;
        let set = Set::of_class(class)?;
        Ok(set)
    }

    /// The members of both.
    pub fn meet(&self, other: &Set) -> Result<Set, OutOfMemory>
        ensures { IfOk result (λ s. (c : ℕ) → IsChar c → has_char s c ≡ (has_char self.now c && has_char other.now c)) }
    {
        let class = self.class.intersection(&other.class)?;
        let set = Set::of_class(class)?;
        Ok(set)
    }

    /// The characters that are no members.
    pub fn complement(&self) -> Result<Set, OutOfMemory>
        ensures { IfOk result (λ s. (c : ℕ) → IsChar c → has_char s c ≡ not (has_char self.now c)) }
    {
        let class = self.class.negate(LAST_RANK)?;
        let set = Set::of_class(class)?;
        Ok(set)
    }

    /// The same set again, which shares its ranges.
    pub fn copy(&self) -> Result<Set, OutOfMemory>
        ensures { IfOk result (λ s. s ≡ self.now) }
    {
        let class = Arc::clone(&self.class)?;
        let ascii = self.ascii;
        Ok(Set { class, ascii })
    }

    /// The characters that match members without regard to case.
    pub fn folded(&self) -> Result<Set, OutOfMemory>
        ensures { IfOk result (λ s. (c : ℕ) → IsChar c → has_char s c ≡ has_alike self.now c) }
    {
        let old: &Class = &self.class;
        let mut ranges = Vec::from_slice(*old.ranges.allocator(), &old.ranges)?;
        add_alike(old, ucd_case::fold_pairs(), &mut ranges)?;
        let class = Class::new(ranges)?;
        let set = Set::of_class(class)?;
        Ok(set)
    }
}
