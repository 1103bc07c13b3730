//! The ranges of entries that are not good, in a sorted vector.
//!
//! A range is the numbers from `first` to the one before `end`, no range is empty, and none touches the next.
//! `fix` takes one number out and `mark` adds one, each by a look for its place and one change there;
//! `renewed_spans` makes the ranges behind a change of lines.
ghost use Rattle.std.specs.Prelude.{◌≡◌, ◌<◌, ◌≤◌, ◌^◌, ◌+◌, ◌-◌, ◌++◌, suc, All, IfOk, OnOk, nat_lt, nat_le, take, drop, slice_index_or, vec_len, vec_capacity, length, position, insert};
ghost use Rattle.tm_store.specs.declared.spans.Span.{Span};
ghost use Rattle.tm_store.specs.Spans.{AreFrom, fixed, joined, marked, moved_by, passed, renewed, start_in};

use std::alloc::Global;
use tm_defs::changes::LineEffect;
use tm_defs::memory::OutOfMemory;

/// The numbers from `first` to the one before `end`.
#[derive(Clone, Copy, Debug, PartialEq, Eq)]
pub struct Span {
    pub first: u32,
    pub end: u32,
}

/// The first run that does not lie below a number.
fn first_from(spans: &[Span], i: u32) -> Option<usize>
    ensures { result ≡ position (λ r. nat_lt i r.end) spans.now }
{
    spans.iter().position(|r| i < r.end)
}

/// How many runs lie below a number.
fn place_of(spans: &[Span], i: u32) -> usize
    ensures place { result ≡ passed (λ r. nat_lt i r.end) spans.now }
    ensures within { result ≤ length spans.now }
{
    match first_from(spans, i) {
        Some(k) => k,
        None => spans.len(),
    }
}

/// The first run that does not end below a number.
fn first_touching(spans: &[Span], i: u32) -> Option<usize>
    ensures { result ≡ position (λ r. nat_le i r.end) spans.now }
{
    spans.iter().position(|r| i <= r.end)
}

/// How many runs end below a number.
fn place_touching(spans: &[Span], i: u32) -> usize
    ensures place { result ≡ passed (λ r. nat_le i r.end) spans.now }
    ensures within { result ≤ length spans.now }
{
    match first_touching(spans, i) {
        Some(k) => k,
        None => spans.len(),
    }
}

/// Puts a run at a place, in room that is there.
pub fn insert_span(spans: &mut Vec<Span>, k: usize, span: Span)
    requires room { vec_len spans.old < vec_capacity spans.old }
    requires within { k ≤ vec_len spans.old }
    ensures items { spans.new.items ≡ insert spans.old.items k span }
    ensures len { vec_len spans.new ≡ vec_len spans.old + 1 }
    ensures room { vec_capacity spans.new ≡ vec_capacity spans.old }
{
    if spans.insert(k, span).is_err() {
        unreachable!()
    }
}

/// Takes a number out of its run. A run that is split takes room for one more.
pub fn fix(spans: &mut Vec<Span>, i: u32)
    requires small { i + 1 < 2 ^ 32 }
    requires room { vec_len spans.old < vec_capacity spans.old }
    ensures items { spans.new.items ≡ fixed i spans.old.items }
    ensures len { vec_len spans.new ≤ vec_len spans.old + 1 }
    ensures room { vec_capacity spans.new ≡ vec_capacity spans.old }
{
    let k = place_of(spans.as_slice(), i);
    if k < spans.len() {
        let r = spans[k];
        if r.first <= i {
            if r.first < i {
                spans[k] = Span {
                    first: r.first,
                    end: i,
                };
                if i + 1 < r.end {
                    insert_span(
                        spans,
                        k + 1,
                        Span {
                            first: i + 1,
                            end: r.end,
                        },
                    );
                }
            } else if i + 1 < r.end {
                spans[k] = Span {
                    first: i + 1,
                    end: r.end,
                };
            } else {
                let _ = spans.remove(k);
            }
        }
    }
}

/// A run that ends at a number takes it in, and with it the next run, where that begins behind the number.
fn grow(spans: &mut Vec<Span>, k: usize, i: u32)
    requires small { i + 1 < 2 ^ 32 }
    requires within { k < vec_len spans.old }
    ensures items { (d : Span) → spans.new.items ≡ take k spans.old.items ++ joined (slice_index_or spans.old.items k d).first (suc i) (drop (suc k) spans.old.items) }
    ensures len { vec_len spans.new ≤ vec_len spans.old }
    ensures room { vec_capacity spans.new ≡ vec_capacity spans.old }
{
    let first = spans[k].first;
    if k + 1 < spans.len() {
        let next = spans[k + 1];
        if next.first == i + 1 {
            let _ = spans.remove(k + 1);
            spans[k] = Span {
                first,
                end: next.end,
            };
            return;
        }
    }
    spans[k] = Span { first, end: i + 1 };
}

/// Adds a number. One that touches no run takes room for one more.
pub fn mark(spans: &mut Vec<Span>, i: u32)
    requires small { i + 1 < 2 ^ 32 }
    requires room { vec_len spans.old < vec_capacity spans.old }
    ensures items { spans.new.items ≡ marked i spans.old.items }
    ensures len { vec_len spans.new ≤ vec_len spans.old + 1 }
    ensures room { vec_capacity spans.new ≡ vec_capacity spans.old }
{
    let k = place_touching(spans.as_slice(), i);
    if k < spans.len() {
        let r = spans[k];
        if r.end == i {
            grow(spans, k, i);
        } else if r.first == i + 1 {
            spans[k] = Span {
                first: i,
                end: r.end,
            };
        } else if i < r.first {
            insert_span(
                spans,
                k,
                Span {
                    first: i,
                    end: i + 1,
                },
            );
        }
    } else {
        insert_span(
            spans,
            k,
            Span {
                first: i,
                end: i + 1,
            },
        );
    }
}

/// Where the run of new lines begins: with a run that reaches them, if the first of these runs does.
fn start_of(spans: &[Span], before: usize, first: u32) -> u32
    requires { before ≤ length spans.now }
    ensures { result ≡ start_in first (drop before spans.now) }
{
    if before >= spans.len() {
        return first;
    }
    let reaching = spans[before].first;
    if reaching < first { reaching } else { first }
}

/// Adds runs behind the replaced lines, moved by what the change did to line numbers.
fn push_moved(next: &mut Vec<Span>, spans: &[Span], effect: LineEffect) -> Result<(), OutOfMemory>
    requires new { effect.new < 2 ^ 31 }
    requires behind { All (λ r. (effect.old ≤ r.first) × (r.first < r.end) × (r.end < 2 ^ 31)) spans.now }
    ensures items { OnOk result (next.new.items ≡ next.old.items ++ moved_by (λ x. x + effect.new - effect.old) spans.now) }
{
    for r in spans {
        next.push(Span {
            first: r.first + effect.new - effect.old,
            end: r.end + effect.new - effect.old,
        })?;
    }
    Ok(())
}

/// The runs behind a change of lines: the new lines are in one run, with the runs that touch them.
pub fn renewed_spans(
    alloc: Global,
    spans: &[Span],
    effect: LineEffect,
) -> Result<Vec<Span>, OutOfMemory>
    requires apart { AreFrom 0 spans.now }
    requires within { All (λ r. r.end < 2 ^ 31) spans.now }
    requires old { effect.first + effect.old < 2 ^ 31 }
    requires new { effect.new < 2 ^ 31 }
    ensures items { IfOk result (λ next. next.items ≡ renewed effect.first effect.old effect.new spans.now) }
    ensures room { IfOk result (λ next. 0 < vec_capacity next) }
{
    let before = place_touching(spans, effect.first);
    let edge = effect.first + effect.old;
    let behind = place_of(spans, edge);
    let first = start_of(spans, before, effect.first);
    let mut next = Vec::with_capacity(alloc, spans.len() + 1)?;
    next.extend_from_slice(&spans[..before])?;
    if behind < spans.len() {
        let r = spans[behind];
        if r.first <= edge {
            next.push(Span {
                first,
                end: r.end + effect.new - effect.old,
            })?;
            push_moved(&mut next, &spans[behind + 1..], effect)?;
            return Ok(next);
        }
    }
    next.push(Span {
        first,
        end: effect.first + effect.new,
    })?;
    push_moved(&mut next, &spans[behind..], effect)?;
    Ok(next)
}
