//! Lists of patterns by number, and before which characters each of them may start.
//!
//! A list is searched again and again, so what its patterns may start before is found out once: for each class
//! of what stands around a start there is a row of the patterns that may start there. A start where none may
//! is passed over by one look.
ghost use Rattle.std.specs.Option.{option_copied};
ghost use Rattle.std.specs.Prelude.{◌≡◌, ◌<◌, ◌^◌, ℕ, List, Option, length, option_map, slice_get, Some, IfOk, OnOk, IsFalse, IsTrue};
ghost use Rattle.tm_onig_class.specs.Tree.{Tree, tree_of};
ghost use Rattle.tm_onig_vm.specs.First.{next_class};
ghost use Rattle.tm_onig_scan.specs.Winner.{trees_of, pattern_at, patterns_at};
ghost use Rattle.tm_onig_scan.specs.Rows.{AreCandidates, AreRows, IsRow, NeverStartsIf, Keeps, AreKeptRows, places_of};

use crate::programs::program_of_place;
use crate::steady::listed_steady;
use std::alloc::Global;
use tm_defs::memory::OutOfMemory;
use tm_onig_vm::program::Prog;
use tm_onig_vm::starts::CLASSES;

/// The places in a list of the patterns that may start a match.
#[derive(Drop)]
pub struct Row {
    pub places: Vec<u32>,
}

/// The numbers of patterns, in the order in which they are tried, and for each class of a next character the
/// row of those that may start before it, by its number among the rows: where nothing is known of the character
/// before, behind a word's character, and behind any other. Classes with equal rows share one. The list is `steady`
/// where neither `\A` nor `\G` stands in one of its patterns.
#[derive(Drop)]
pub struct Candidates {
    pub numbers: Vec<u32>,
    pub steady: bool,
    pub rows: Vec<Row>,
    pub unknown: Vec<u32>,
    pub word: Vec<u32>,
    pub other: Vec<u32>,
}

/// Whether a pattern may start there.
fn may_start(program: Option<&Prog>, behind: Option<bool>, class: u32) -> bool
    ensures { IsFalse result → (next : Option ℕ) → next_class next ≡ class → NeverStartsIf (option_map tree_of (option_copied program.entry)) behind next }
{
    match program {
        None => false,
        Some(program) => program.may_start(behind, class),
    }
}

/// Fills in the places of the patterns that may start behind such a character and before one of this class.
fn fill_row(
    programs: &[Option<Prog>],
    numbers: &[u32],
    behind: Option<bool>,
    class: u32,
    places: &mut Vec<u32>,
) -> Result<(), OutOfMemory>
    requires few { length numbers.now < 2 ^ 32 }
    ensures { OnOk result ((next : Option ℕ) → next_class next ≡ class →
        IsRow behind next 0 (patterns_at (trees_of programs.now) numbers.now) places.new.items) }
{
    places.clear();
    for place in 0..numbers.len() {
        let program = program_of_place(programs, numbers, place as u32);
        if may_start(program, behind, class) {
            places.push(place as u32)?;
        }
    }
    Ok(())
}

fn are_same(a: &[u32], b: &[u32]) -> bool
    ensures { IsTrue result → a.now ≡ b.now }
{
    a == b
}

/// Whether the row of a number has these places.
fn is_row(rows: &[Row], number: usize, places: &[u32]) -> bool
    ensures { IsTrue result → (number < length rows.now) × (places_of (slice_get rows.now number) ≡ places.now) }
{
    match rows.get(number) {
        Some(row) => are_same(row.places.as_slice(), places),
        None => false,
    }
}

/// The number of a row: of the one that it is likely to be equal to, of another that it is equal to, or of itself
/// behind the others.
#[tactic(auto, using(crate::proofs::Rows::keeps_same, crate::proofs::Rows::keeps_more, crate::proofs::Rows::number_new))]
fn number_of(rows: &mut Vec<Row>, likely: u32, places: &Vec<u32>) -> Result<u32, OutOfMemory>
    ensures kept { Keeps rows.old.items rows.new.items }
    ensures number { IfOk result (λ number. (number < length rows.new.items) × (places_of (slice_get rows.new.items number) ≡ places.now.items)) }
{
    if is_row(rows.as_slice(), likely as usize, places.as_slice()) {
        return Ok(likely);
    }
    let count = rows.len();
    if count >= u32::MAX as usize {
        return Err(OutOfMemory);
    }
    for number in 0..count {
        if is_row(rows.as_slice(), number, places.as_slice()) {
            return Ok(number as u32);
        }
    }
    let row = Row {
        places: places.clone()?,
    };
    rows.push(row)?;
    Ok(count as u32)
}

/// The numbers of the rows behind such a character, by class; none where there are no patterns. A class is likely
/// to have the row that it has among `likely`, or that of the class before it.
fn made_rows(
    alloc: Global,
    programs: &[Option<Prog>],
    numbers: &[u32],
    behind: Option<bool>,
    likely: &[u32],
    rows: &mut Vec<Row>,
) -> Result<Vec<u32>, OutOfMemory>
    requires few { length numbers.now < 2 ^ 32 }
    ensures kept { Keeps rows.old.items rows.new.items }
    ensures right { IfOk result (λ made. AreKeptRows (patterns_at (trees_of programs.now) numbers.now) behind rows.new.items made.items) }
{
    let mut made = Vec::new(alloc);
    if numbers.is_empty() {
        return Ok(made);
    }
    let mut places = Vec::new(alloc);
    let mut last = 0;
    for class in 0..CLASSES {
        fill_row(programs, numbers, behind, class, &mut places)?;
        last = number_of(rows, number_at(likely, class).unwrap_or(last), &places)?;
        made.push(last)?;
    }
    Ok(made)
}

/// The list of these numbers.
pub(crate) fn candidates_of(
    alloc: Global,
    programs: &[Option<Prog>],
    numbers: Vec<u32>,
) -> Result<Candidates, OutOfMemory>
    requires few { length numbers.items < 2 ^ 32 }
    ensures numbers { IfOk result (λ made. made.numbers.items ≡ numbers.items) }
    ensures right { IfOk result (λ made. AreCandidates (trees_of programs.now) made) }
{
    let steady = listed_steady(programs, &numbers);
    let mut rows = Vec::new(alloc);
    let unknown = made_rows(alloc, programs, &numbers, None, &[], &mut rows)?;
    let word = made_rows(alloc, programs, &numbers, Some(true), &unknown, &mut rows)?;
    let other = made_rows(alloc, programs, &numbers, Some(false), &unknown, &mut rows)?;
    Ok(Candidates {
        numbers,
        steady,
        rows,
        unknown,
        word,
        other,
    })
}

/// The numbers of the rows behind such a character.
fn rows_behind(candidates: &Candidates, behind: Option<bool>) -> &[u32]
    ensures { (patterns : List (Option Tree)) → AreCandidates patterns candidates.now →
        AreRows (patterns_at patterns candidates.now.numbers.items) behind candidates.now.rows.items result.now }
{
    match behind {
        None => &candidates.unknown,
        Some(word) => {
            if word {
                &candidates.word
            } else {
                &candidates.other
            }
        }
    }
}

/// The number at a place, if there is one.
fn number_at(numbers: &[u32], place: u32) -> Option<u32>
    ensures { result ≡ slice_get numbers.now place }
{
    numbers.get(place as usize).copied()
}

/// The places of the row of a number.
fn places_at(rows: &[Row], number: u32) -> &[u32]
    ensures { result.now ≡ places_of (slice_get rows.now number) }
{
    match rows.get(number as usize) {
        Some(row) => row.places.as_slice(),
        None => &[],
    }
}

/// The row of what stands around a start.
pub(crate) fn row_of(candidates: &Candidates, behind: Option<bool>, class: u32) -> &[u32]
    ensures { (patterns : List (Option Tree)) (next : Option ℕ) → AreCandidates patterns candidates.now → next_class next ≡ class →
        IsRow behind next 0 (patterns_at patterns candidates.now.numbers.items) result.now }
{
    match number_at(rows_behind(candidates, behind), class) {
        Some(number) => places_at(candidates.rows.as_slice(), number),
        None => &[],
    }
}
