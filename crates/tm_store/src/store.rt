//! Entries of lines, with the ranges of those that are not good.
ghost use Rattle.std.specs.Prelude.{◌≡◌, ◌<◌, ◌≤◌, ◌^◌, ◌+◌, ◌-◌, IfOk, OnOk, OnErr, Bool, true, false, Some, None, length, slice_get, vec_len, vec_capacity, replicate, nat_lt, if◌then◌else◌, [], ◌∷◌};
ghost use Rattle.tm_machine.specs.Entries.{front, put, block, blank, blanks, end_at, replaced};
ghost use Rattle.tm_store.specs.Spans.{fixed, marked};
ghost use Rattle.tm_store.specs.Stores.{is_same, guess};

use crate::spans::{Span, fix, insert_span, mark, renewed_spans};
use std::alloc::Global;
use std::marker::Model;
use tm_defs::changes::LineEffect;
use tm_defs::memory::OutOfMemory;
use tm_defs::tokens::Tokens;
use tm_machine::entries::Entry;
use tm_splice::replace_range;

/// What is kept of each line of a text, in line order. `S` is a state, or the number of one.
///
/// Contracts see the entries, and the spare room for ranges of entries that are not good: each call that may split
/// a range needs some, so that none of them takes memory.
#[derive(Drop)]
pub struct Store<S> {
    entries: Vec<Entry<S>>,
    bad: Vec<Span>,
}

impl<S> Model for Store<S> {
    ghost use Rattle.std.specs.Prelude.{◌≡◌, ◌<◌, ◌^◌, ◌-◌, vec_len, vec_capacity};
    ghost use Rattle.tm_store.specs.Spans.{runs};
    ghost use Rattle.tm_store.specs.Stores.{Stored};

    ghost Value = { Stored S };

    ghost view = { λ a. record { entries = a.entries.items; spare = vec_capacity a.bad - vec_len a.bad } };

    ghost invariant = { λ a. (a.bad.items ≡ runs 0 a.entries.items) × (vec_len a.entries < 2 ^ 31) × (0 < vec_len a.entries) × (0 < vec_capacity a.bad) };
}

/// Whether an end is the same as before.
fn is_same_end<S: Copy + Eq>(old: Option<S>, end: S) -> bool
    ensures { result ≡ is_same S.eq old end }
{
    match old {
        Some(e) => e == end,
        None => false,
    }
}

/// The end that is stored of a line.
fn end_of<S: Copy>(entries: &[Entry<S>], i: usize) -> Option<S>
    requires { i < length entries.now }
    ensures { result ≡ end_at entries.now i }
{
    entries[i].end
}

/// Marks an entry as blocked.
fn block_entry<S: Copy>(entries: &mut Vec<Entry<S>>, i: usize)
    requires { i < vec_len entries.old }
    ensures { entries.new.items ≡ block entries.old.items i }
{
    entries[i].blocked = true;
}

/// Stores tokens and end. The next entry is not good any more where the end is not the same.
fn put_entry<S: Copy>(entries: &mut Vec<Entry<S>>, i: usize, tokens: Tokens, end: S, same: bool)
    requires { i < vec_len entries.old }
    ensures { entries.new.items ≡ put entries.old.items i tokens end same }
{
    let entry = &mut entries[i];
    entry.tokens = Some(tokens);
    entry.end = Some(end);
    entry.good = true;
    entry.blocked = false;
    if !same && i + 1 < entries.len() {
        let next = &mut entries[i + 1];
        next.good = false;
        next.blocked = false;
    }
}

/// Stores guessed tokens and a guessed end. The next entry is not good any more where the end is not the same.
fn guess_entry<S: Copy>(entries: &mut Vec<Entry<S>>, i: usize, tokens: Tokens, end: S, same: bool)
    requires { i < vec_len entries.old }
    ensures { entries.new.items ≡ guess entries.old.items i tokens end same }
{
    let entry = &mut entries[i];
    entry.tokens = Some(tokens);
    entry.end = Some(end);
    if !same && i + 1 < entries.len() {
        let next = &mut entries[i + 1];
        next.good = false;
        next.blocked = false;
    }
}

/// Whether the next entry is not good any more.
fn has_next(same: bool, i: usize, len: usize) -> bool
    requires { i < len }
    ensures { result ≡ (if same then false else nat_lt (i + 1) len) }
{
    if same { false } else { i + 1 < len }
}

/// An entry of which nothing is known but the end of a line that stood there, if that.
fn blank_entry<S: Copy>(end: Option<S>) -> Entry<S>
    ensures { result ≡ blank end }
{
    Entry {
        tokens: None,
        end,
        good: false,
        blocked: false,
    }
}

/// Entries of which nothing is known.
fn blank_entries<S: Copy>(alloc: Global, count: usize) -> Result<Vec<Entry<S>>, OutOfMemory>
    ensures { IfOk result (λ entries. entries.items ≡ replicate count (blank None)) }
{
    let mut entries = Vec::new(alloc);
    for i in 0..count {
        entries.push(blank_entry(None))?;
    }
    Ok(entries)
}

/// Blank entries, the last of them with an end.
fn blanks_with_end<S: Copy>(
    alloc: Global,
    count: usize,
    end: Option<S>,
) -> Result<Vec<Entry<S>>, OutOfMemory>
    requires { 0 < count }
    ensures { IfOk result (λ entries. entries.items ≡ blanks count end) }
{
    let mut entries = blank_entries(alloc, count - 1)?;
    entries.push(blank_entry(end))?;
    Ok(entries)
}

/// Makes every entry blank.
fn clear_entries<S: Copy>(entries: &mut Vec<Entry<S>>)
    ensures { entries.new.items ≡ replicate (vec_len entries.old) (blank None) }
{
    for i in 0..entries.len() {
        entries[i] = blank_entry(None);
    }
}

/// All entries from the first to the last are in one run.
fn one_run(bad: &mut Vec<Span>, len: u32)
    requires { 0 < vec_capacity bad.old }
    ensures items { bad.new.items ≡ record { first = 0; end = len } ∷ [] }
    ensures room { vec_capacity bad.new ≡ vec_capacity bad.old }
{
    bad.clear();
    insert_span(bad, 0, Span { first: 0, end: len });
}

/// The next entry is not good any more, if it is asked for.
fn mark_next(bad: &mut Vec<Span>, i: u32, next: bool)
    requires room { vec_len bad.old < vec_capacity bad.old }
    requires small { i < 2 ^ 31 }
    ensures items { bad.new.items ≡ (if next then marked (i + 1) bad.old.items else bad.old.items) }
    ensures len { vec_len bad.new ≤ vec_len bad.old + 1 }
    ensures room { vec_capacity bad.new ≡ vec_capacity bad.old }
{
    if next {
        mark(bad, i + 1);
    }
}

/// One entry is good now, and the next one is not, if it is asked for.
fn put_runs(bad: &mut Vec<Span>, i: u32, next: bool)
    requires room { vec_len bad.old + 2 ≤ vec_capacity bad.old }
    requires small { i < 2 ^ 31 }
    ensures items { bad.new.items ≡ (if next then marked (i + 1) (fixed i bad.old.items) else fixed i bad.old.items) }
    ensures len { vec_len bad.new ≤ vec_len bad.old + 2 }
    ensures room { vec_capacity bad.new ≡ vec_capacity bad.old }
{
    fix(bad, i);
    mark_next(bad, i, next);
}

impl<S: Copy + Eq> Store<S> {
    /// That many entries of which nothing is known.
    pub fn new(alloc: Global, lines: u32) -> Result<Self, OutOfMemory>
        requires some { 0 < lines }
        requires small { lines < 2 ^ 31 }
        ensures { IfOk result (λ s. s.entries ≡ replicate lines (blank None)) }
    {
        let entries = blank_entries(alloc, lines as usize)?;
        let mut bad = Vec::with_capacity(alloc, 1)?;
        one_run(&mut bad, lines);
        Ok(Store { entries, bad })
    }

    /// How many entries there are.
    pub fn len(&self) -> u32
        ensures { result ≡ length self.now.entries }
    {
        self.entries.len() as u32
    }

    /// The entry of a line.
    pub fn entry(&self, i: u32) -> &Entry<S>
        requires { i < length self.now.entries }
        ensures { slice_get self.now.entries i ≡ Some result.now }
    {
        &self.entries[i as usize]
    }

    /// The first entry that is not good, and none where all are. It looks at one range, however many lines there are.
    pub fn front(&self) -> Option<u32>
        ensures { result ≡ front self.now.entries }
    {
        if self.bad.len() == 0 {
            None
        } else {
            Some(self.bad[0].first)
        }
    }

    /// Takes room for `n` more ranges.
    pub fn reserve(&mut self, n: u32) -> Result<(), OutOfMemory>
        ensures entries { self.new.entries ≡ self.old.entries }
        ensures spare { OnOk result (n ≤ self.new.spare) }
        ensures no_less { self.old.spare ≤ self.new.spare }
    {
        self.bad.reserve(n as usize)?;
        Ok(())
    }

    /// Stores tokens and end, and the entry is good and not blocked. Where the end is not the same as before, also where
    /// there was none, the next entry is neither good nor blocked any more. It takes no memory.
    pub fn put(&mut self, i: u32, tokens: Tokens, end: S)
        requires within { i < length self.old.entries }
        requires spare { 2 ≤ self.old.spare }
        ensures entries { self.new.entries ≡ put self.old.entries i tokens end (is_same S.eq (end_at self.old.entries i) end) }
        ensures spare { self.old.spare ≤ self.new.spare + 2 }
    {
        let at = i as usize;
        let same = is_same_end(end_of(self.entries.as_slice(), at), end);
        let next = has_next(same, at, self.entries.len());
        put_entry(&mut self.entries, at, tokens, end, same);
        put_runs(&mut self.bad, i, next);
    }

    /// Stores guessed tokens and a guessed end: the entry stays as good and as blocked as it was. The next entry changes
    /// as in `put`. It takes no memory.
    pub fn guess(&mut self, i: u32, tokens: Tokens, end: S)
        requires within { i < length self.old.entries }
        requires spare { 2 ≤ self.old.spare }
        ensures entries { self.new.entries ≡ guess self.old.entries i tokens end (is_same S.eq (end_at self.old.entries i) end) }
        ensures spare { self.old.spare ≤ self.new.spare + 2 }
    {
        let at = i as usize;
        let same = is_same_end(end_of(self.entries.as_slice(), at), end);
        let next = has_next(same, at, self.entries.len());
        guess_entry(&mut self.entries, at, tokens, end, same);
        mark_next(&mut self.bad, i, next);
    }

    /// Marks an entry as blocked. It takes no memory.
    pub fn block(&mut self, i: u32)
        requires within { i < length self.old.entries }
        ensures entries { self.new.entries ≡ block self.old.entries i }
        ensures spare { self.new.spare ≡ self.old.spare }
    {
        block_entry(&mut self.entries, i as usize);
    }

    /// Replaces the entries of an effect by blank ones, of which the last has the end of the last replaced one. After want
    /// of memory nothing has changed.
    pub fn replace(&mut self, effect: LineEffect) -> Result<(), OutOfMemory>
        requires within { effect.first + effect.old ≤ length self.old.entries }
        requires old { 0 < effect.old }
        requires new { 0 < effect.new }
        requires small { length self.old.entries + effect.new < 2 ^ 31 + effect.old }
        ensures ok { OnOk result (self.new.entries ≡ replaced effect self.old.entries) }
        ensures err { OnErr result (self.new ≡ self.old) }
    {
        let alloc = *self.entries.allocator();
        let first = effect.first as usize;
        let behind = first + effect.old as usize;
        let end = end_of(self.entries.as_slice(), behind - 1);
        let mut added = blanks_with_end(alloc, effect.new as usize, end)?;
        let bad = renewed_spans(alloc, self.bad.as_slice(), effect)?;
        self.entries.reserve(added.len())?;
        replace_range(&mut self.entries, first, effect.old as usize, &mut added);
        self.bad = bad;
        Ok(())
    }

    /// Makes every entry blank. It takes no memory.
    pub fn clear(&mut self)
        ensures entries { self.new.entries ≡ replicate (length self.old.entries) (blank None) }
        ensures spare { self.old.spare ≤ self.new.spare + 1 }
    {
        let len = self.entries.len() as u32;
        clear_entries(&mut self.entries);
        one_run(&mut self.bad, len);
    }
}
