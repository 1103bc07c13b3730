//! Values by number: equal values have one number, and a number keeps its value for good.
//!
//! The set stands on `indexmap`, so a look-up hashes the value and compares it with few others. A new
//! value gets the count of the numbers that are taken as its number, and nothing is ever taken out.
ghost use Rattle.std.specs.Prelude.{◌≡◌, ◌↔◌, ◌<◌, ◌≤◌, ◌+◌, ◌-◌, ◌^◌, [], ◌∷◌, ◌++◌, Err, IfOk, OnOk, OnErr, IfErr, IsTrue, true, MatchOption, Contains};
ghost use Rattle.tm_defs.specs.Tables.{NoneTwice};
ghost use Rattle.tm_defs.specs.declared.tables.TableFault.TheVariants.{TableFull};
ghost use Rattle.tm_scope.specs.Numbered.{taken, HasNumber, TakesIn, IsFullAt, KeepsLimit};

use indexmap::IndexSet;
use std::alloc::Global;
use std::hash::Hash;
use std::marker::Model;
use tm_defs::memory::OutOfMemory;
use tm_defs::tables::TableFault;

/// Values that `==` calls equal only where they are one value.
pub trait Exact: Eq + Hash + Drop {
    ghost one_value: { (x y : Self) → Self.eq x y ≡ true → x ≡ y };
}

/// Values by number, from `first` on. The numbers below `first` are taken by entries that the set does
/// not hold.
#[derive(Drop)]
pub struct NumberedSet<T: Exact> {
    values: IndexSet<T>,
    first: u32,
}

impl<T: Exact> Model for NumberedSet<T> {
    ghost use Rattle.std.specs.Prelude.{length, ◌<◌, ◌+◌, ◌^◌};
    ghost use Rattle.tm_scope.specs.Numbered.{NumberedValues};

    ghost Value = { NumberedValues T };

    ghost view = { λ a. record { first = a.first; values = a.values.keys } };

    ghost invariant = { λ a. a.first + length a.values.keys < 2 ^ 32 };
}

impl<T: Exact> NumberedSet<T> {
    /// A set without values, with its first room.
    pub fn new(alloc: Global, first: u32) -> Result<Self, OutOfMemory>
        ensures { IfOk result (λ set. set ≡ record { first = first; values = [] }) }
    {
        let values = IndexSet::with_capacity(alloc, 1)?;
        Ok(NumberedSet { values, first })
    }

    /// Says that no value has two numbers: it does nothing.
    pub fn prove_known(&self)
        ensures once { NoneTwice self.now.values }
        ensures small { taken self.now < 2 ^ 32 }
    {
        let _count = self.values.len();
    }

    /// Where the set takes its memory.
    pub fn allocator(&self) -> Global {
        *self.values.allocator()
    }

    /// How many numbers are taken, those below the first among them.
    pub fn taken(&self) -> u32
        ensures { result ≡ taken self.now }
    {
        self.first + self.values.len() as u32
    }

    /// Whether `limit` numbers or more are taken.
    pub fn is_full(&self, limit: u32) -> bool
        ensures { IsTrue result ↔ (limit ≤ taken self.now) }
    {
        self.values.len() + self.first as usize >= limit as usize
    }

    /// The number of a value, if it has one.
    pub fn find(&self, value: &T) -> Option<u32>
        ensures { MatchOption result (¬ Contains self.now.values value.now) (λ n. HasNumber self.now n value.now) }
    {
        match self.values.get_index_of(value) {
            Some(index) => Some(self.first + index as u32),
            None => None,
        }
    }

    /// The value of a number. It takes no memory.
    pub fn value(&self, number: u32) -> &T
        requires from { self.now.first ≤ number }
        requires to { number < taken self.now }
        ensures { HasNumber self.now number result.now }
    {
        &self.values.as_slice()[(number - self.first) as usize]
    }

    /// Gives the next number to a value that has none.
    pub fn add(&mut self, value: T) -> Result<u32, OutOfMemory>
        requires absent { ¬ Contains self.old.values value }
        requires room { taken self.old + 1 < 2 ^ 32 }
        ensures number { IfOk result (λ n. n ≡ taken self.old) }
        ensures first { self.new.first ≡ self.old.first }
        ensures values { OnOk result (self.new.values ≡ self.old.values ++ value ∷ []) }
        ensures err { OnErr result (self.new ≡ self.old) }
    {
        let (index, _new) = self.values.insert_full(value)?;
        Ok(self.first + index as u32)
    }

    /// The number of a value, which is given the next one where it has none and fewer than `limit`
    /// numbers are taken. A value that has a number is never refused. After a refusal the set is as
    /// it was.
    pub fn intern(&mut self, value: T, limit: u32) -> Result<u32, TableFault>
        ensures ok { IfOk result (λ n. HasNumber self.new n value) }
        ensures first { self.new.first ≡ self.old.first }
        ensures values { OnOk result (TakesIn value self.old.values self.new.values) }
        ensures limit { KeepsLimit limit (taken self.old) (taken self.new) }
        ensures err { OnErr result (self.new ≡ self.old) }
        ensures absent { OnErr result (¬ Contains self.old.values value) }
        ensures full { IfErr result (IsFullAt limit (taken self.old)) }
        ensures at_limit { limit ≤ taken self.old → ¬ Contains self.old.values value → result ≡ Err (TableFull limit) }
    {
        if let Some(number) = self.find(&value) {
            return Ok(number);
        }
        if self.is_full(limit) {
            return Err(TableFault::TableFull(limit));
        }
        Ok(self.add(value)?)
    }
}
