//! Which lines are fresh: they were done, and not posted since.
//!
//! Fresh lines are kept as sorted ranges: a worker does line after line, so there are few, and a turn, a change and a
//! post cost what these take, however long the text is.
ghost use Rattle.std.specs.Prelude.{◌≡◌, ◌+◌, ◌*◌, ◌<◌, ◌≤◌, ◌++◌, ◌^◌, false, IfOk, OnOk, List, [], length, replicate, vec_len, vec_capacity};
ghost use Rattle.std.specs.List.{AllByRecursion};
ghost use Rattle.tm_machine.specs.Changes.{spliced};
ghost use Rattle.tm_machine.specs.Machine.{marked};
ghost use Rattle.tm_store.specs.declared.spans.Span.{Span};
ghost use Rattle.tm_store.specs.Spans.{AreFrom};
ghost use Rattle.tm_worker.specs.Fresh.{cut_range, cut_ranges, marks_of};

use std::alloc::Global;
use std::marker::Model;
use tm_defs::changes::LineEffect;
use tm_defs::memory::OutOfMemory;
use tm_store::spans::{Span, insert_span, mark};

/// A mark for each line of a text. Contracts see the marks as a list.
#[derive(Drop)]
pub struct FreshLines {
    spans: Vec<Span>,
    lines: u32,
}

impl Model for FreshLines {
    ghost use Rattle.std.specs.Prelude.{◌≤◌, ◌<◌, ◌^◌, ◌-◌, vec_len, vec_capacity};
    ghost use Rattle.std.specs.List.{AllByRecursion};
    ghost use Rattle.tm_store.specs.Spans.{AreFrom};
    ghost use Rattle.tm_worker.specs.Fresh.{Fresh, marks_of};

    ghost Value = { Fresh };

    ghost view = { λ a. record { marks = marks_of a.lines a.spans.items; ranges = vec_len a.spans; spare = vec_capacity a.spans - vec_len a.spans } };

    ghost invariant = { λ a. AreFrom 0 a.spans.items × AllByRecursion (λ r. r.end ≤ a.lines) a.spans.items × (a.lines < 2 ^ 31) };
}

/// Adds what is left of a range where lines were replaced, in room that is there.
fn push_cut(next: &mut Vec<Span>, span: Span, effect: LineEffect)
    requires room { vec_len next.old + 2 ≤ vec_capacity next.old }
    requires range { effect.first + effect.old < 2 ^ 31 }
    requires new { effect.new < 2 ^ 31 }
    requires span { (span.first < span.end) × (span.end < 2 ^ 31) }
    ensures items { (rest : List Span) → next.new.items ++ rest ≡ next.old.items ++ cut_range effect.first effect.old effect.new span rest }
    ensures len { vec_len next.new ≤ vec_len next.old + 2 }
    ensures room { vec_capacity next.new ≡ vec_capacity next.old }
{
    let edge = effect.first + effect.old;
    if span.first < effect.first {
        let end = span.end.min(effect.first);
        let at = next.len();
        insert_span(
            next,
            at,
            Span {
                first: span.first,
                end,
            },
        );
    }
    if edge < span.end {
        let first = span.first.max(edge);
        let at = next.len();
        insert_span(
            next,
            at,
            Span {
                first: first + effect.new - effect.old,
                end: span.end + effect.new - effect.old,
            },
        );
    }
}

impl FreshLines {
    /// No line is fresh. It takes no memory.
    pub fn new(alloc: Global, lines: u32) -> Self
        requires { lines < 2 ^ 31 }
        ensures { result.marks ≡ replicate lines false }
    {
        FreshLines {
            spans: Vec::new(alloc),
            lines,
        }
    }

    /// The ranges of fresh lines, by rising lines.
    pub fn spans(&self) -> &[Span]
        ensures marks { self.now.marks ≡ marks_of (length self.now.marks) result.now }
        ensures apart { AreFrom 0 result.now }
        ensures within { AllByRecursion (λ r. r.end ≤ length self.now.marks) result.now }
    {
        self.spans.as_slice()
    }

    /// Where the marks take their memory.
    pub fn allocator(&self) -> Global {
        *self.spans.allocator()
    }

    /// Takes room for one more range.
    pub fn reserve(&mut self) -> Result<(), OutOfMemory>
        ensures marks { self.new.marks ≡ self.old.marks }
        ensures spare { OnOk result (0 < self.new.spare) }
    {
        self.spans.reserve(1)?;
        Ok(())
    }

    /// Marks a line. It takes no memory.
    pub fn mark(&mut self, i: u32)
        requires within { i < length self.old.marks }
        requires spare { 0 < self.old.spare }
        ensures { self.new.marks ≡ marked self.old.marks i }
    {
        mark(&mut self.spans, i);
    }

    /// Room for the ranges behind a change, each of which may become two.
    pub fn room(&self) -> Result<Vec<Span>, OutOfMemory>
        ensures empty { IfOk result (λ room. room.items ≡ []) }
        ensures enough { IfOk result (λ room. 2 * self.now.ranges ≤ vec_capacity room) }
    {
        let alloc = *self.spans.allocator();
        Ok(Vec::with_capacity(alloc, 2 * self.spans.len())?)
    }

    /// The lines of an effect are replaced by lines that are not fresh. It takes no memory but the room.
    pub fn replace(&mut self, effect: LineEffect, room: Vec<Span>)
        requires range { effect.first + effect.old ≤ length self.old.marks }
        requires new { length self.old.marks + effect.new < 2 ^ 31 + effect.old }
        requires old { 0 < effect.old }
        requires some { 0 < effect.new }
        requires empty { room.items ≡ [] }
        requires enough { 2 * self.old.ranges ≤ vec_capacity room }
        ensures { self.new.marks ≡ spliced effect.first effect.old (replicate effect.new false) self.old.marks }
    {
        let mut next = room;
        for span in self.spans.as_slice() {
            push_cut(&mut next, *span, effect);
        }
        self.spans = next;
        self.lines = self.lines + effect.new - effect.old;
    }

    /// No line is fresh any more. It takes no memory.
    pub fn clear(&mut self)
        ensures { self.new.marks ≡ replicate (length self.old.marks) false }
    {
        self.spans.clear();
    }
}
