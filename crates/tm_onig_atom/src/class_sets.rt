//! The set of a class.
//!
//! The ranges between two `&&` are made into a set at once, and widened at once: so a class of many
//! items takes no more than linear time but for sorting its ranges. Sets by name and nested classes
//! are added one by one.
ghost use Rattle.std.specs.Prelude.{◌≡◌, ℕ, Bool, false, ◌||◌, ◌&&◌, IfOk};
ghost use Rattle.regex_class.specs.Ranges.{in_ranges};
ghost use Rattle.tm_onig_class.specs.Members.{has_char, IsChar};
ghost use Rattle.tm_onig_atom.specs.Widening.{widened};
ghost use Rattle.tm_onig_atom.specs.Classes.{member_has, side_has, later_have, class_has};
ghost use Rattle.tm_onig_atom.specs.inner.Sides.{met_has, side_now, met_after, side_after};

use crate::parts::{Member, Part};
use crate::store::{Sets, widen};
use std::alloc::Global;
use tm_defs::memory::OutOfMemory;
use tm_onig_class::sets::Set;

/// What was gathered of a class: the characters on all sides before the last `&&`, if there was one,
/// and of the side behind it the ranges, which are still to be widened, and the others.
#[derive(Drop)]
pub(crate) struct Gathered {
    met: Option<Set>,
    ranges: Vec<(char, char)>,
    set: Set,
}

/// The set of a side.
fn side_set(
    alloc: Global,
    fold: bool,
    ranges: &[(char, char)],
    set: &Set,
) -> Result<Set, OutOfMemory>
    ensures { IfOk result (λ s. (c : ℕ) → IsChar c → has_char s c ≡ (widened fold (in_ranges ranges.now) c || has_char set.now c)) }
{
    widen(Set::from_ranges(alloc, ranges)?, fold)?.union(set)
}

/// The characters on all sides.
fn met_set(met: Option<Set>, side: Set) -> Result<Set, OutOfMemory>
    ensures { IfOk result (λ s. (c : ℕ) → IsChar c → has_char s c ≡ (met_has met c && has_char side c)) }
{
    match met {
        Some(met) => met.meet(&side),
        None => Ok(side),
    }
}

/// The characters on all sides, where the present one ends.
fn ended(alloc: Global, fold: bool, gathered: Gathered) -> Result<Set, OutOfMemory>
    ensures { IfOk result (λ s. (c : ℕ) → IsChar c → has_char s c ≡ (met_has gathered.met c && side_now fold gathered c)) }
{
    let side = side_set(alloc, fold, &gathered.ranges, &gathered.set)?;
    met_set(gathered.met, side)
}

/// Nothing yet, behind sides.
fn fresh(alloc: Global, met: Option<Set>) -> Result<Gathered, OutOfMemory>
    ensures { IfOk result (λ g. (fold : Bool) (c : ℕ) → IsChar c → (met_has g.met c ≡ met_has met c) × (side_now fold g c ≡ false)) }
{
    let set = Set::from_ranges(alloc, &[])?;
    let ranges = Vec::new(alloc);
    Ok(Gathered { met, ranges, set })
}

/// One member more on the present side.
fn add_member(
    alloc: Global,
    sets: &mut Sets,
    fold: bool,
    member: Member,
    gathered: Gathered,
) -> Result<Gathered, OutOfMemory>
    ensures { IfOk result (λ g. (c : ℕ) → IsChar c → (met_has g.met c ≡ met_has gathered.met c) × (side_now fold g c ≡ (side_now fold gathered c || widened fold (member_has member) c))) }
{
    let mut more = gathered;
    match member {
        Member::Range(first, last) => {
            more.ranges.push((first, last))?;
            Ok(more)
        }
        Member::Set(named) => {
            more.set = more.set.union(&sets.named(alloc, named, fold)?)?;
            Ok(more)
        }
    }
}

/// One nested class more on the present side.
fn add_class(set: &Set, gathered: Gathered) -> Result<Gathered, OutOfMemory>
    ensures { IfOk result (λ g. (fold : Bool) (c : ℕ) → IsChar c → (met_has g.met c ≡ met_has gathered.met c) × (side_now fold g c ≡ (side_now fold gathered c || has_char set.now c))) }
{
    let mut more = gathered;
    more.set = more.set.union(set)?;
    Ok(more)
}

/// One part more.
fn add(
    alloc: Global,
    sets: &mut Sets,
    fold: bool,
    part: &Part,
    gathered: Gathered,
) -> Result<Gathered, OutOfMemory>
    ensures { IfOk result (λ g. (c : ℕ) → IsChar c → (met_has g.met c ≡ met_after part.now (met_has gathered.met c) (side_now fold gathered c)) × (side_now fold g c ≡ side_after fold part.now (side_now fold gathered c) c)) }
{
    match part {
        Part::Adds(member) => add_member(alloc, sets, fold, *member, gathered),
        Part::Inner { set, .. } => add_class(set, gathered),
        Part::Meets => fresh(alloc, Some(ended(alloc, fold, gathered)?)),
    }
}

fn members(alloc: Global, sets: &mut Sets, fold: bool, parts: &[Part]) -> Result<Set, OutOfMemory>
    ensures { IfOk result (λ s. (c : ℕ) → IsChar c → has_char s c ≡ (side_has fold parts.now c && later_have fold parts.now c)) }
{
    let mut gathered = fresh(alloc, None)?;
    'parts: for i in 0..parts.len() {
        gathered = add(alloc, sets, fold, &parts[i], gathered)?;
    }
    ended(alloc, fold, gathered)
}

/// The set that the parts of a class make, made anew.
fn made(
    alloc: Global,
    sets: &mut Sets,
    fold: bool,
    negated: bool,
    parts: &[Part],
) -> Result<Set, OutOfMemory>
    ensures { IfOk result (λ s. (c : ℕ) → IsChar c → has_char s c ≡ class_has fold negated parts.now c) }
{
    let set = members(alloc, sets, fold, parts)?;
    if negated { set.complement() } else { Ok(set) }
}

/// The set that the parts of a class make. It is made once.
pub(crate) fn class_set(
    alloc: Global,
    sets: &mut Sets,
    fold: bool,
    negated: bool,
    parts: &[Part],
) -> Result<Set, OutOfMemory>
    ensures { IfOk result (λ s. (c : ℕ) → IsChar c → has_char s c ≡ class_has fold negated parts.now c) }
{
    if let Some(set) = sets.class(fold, negated, parts)? {
        return Ok(set);
    }
    let set = made(alloc, sets, fold, negated, parts)?;
    let copy = set.copy()?;
    sets.keep_class(alloc, fold, negated, parts, set)?;
    Ok(copy)
}
