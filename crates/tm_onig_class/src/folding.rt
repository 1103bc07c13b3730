//! Characters that match without regard to case: those whose simple foldings are one. The kit lists
//! each ordered pair of two such characters, by the first.
ghost use Rattle.std.specs.Prelude.{◌≡◌, ℕ, ◌||◌, ◌&&◌, ◌==◌, ◌↔◌, OnOk, IsTrue};
ghost use Rattle.regex_class.specs.Ranges.{in_ranges, KeysRise, IsLowerBound};
ghost use Rattle.tm_onig_class.specs.Ranks.{rank_of};
ghost use Rattle.tm_onig_class.specs.Folding.{LeadsTo, any_alike};

use crate::ranks::rank_of_code;
use regex_class::{Class, ClassRange};
use tm_defs::memory::OutOfMemory;

/// Adds the character that the pair leads to, where it leads from a member.
fn push_other(class: &Class, pair: (u32, u32), out: &mut Vec<ClassRange>) -> Result<(), OutOfMemory>
    ensures { OnOk result ((r : ℕ) → in_ranges out.new.items r ≡ (in_ranges out.old.items r || (in_ranges class.now.ranges.items (rank_of pair.0) && (rank_of pair.1 == r)))) }
{
    if class.contains(rank_of_code(pair.0)) {
        let other = rank_of_code(pair.1);
        out.push((other, other))?;
    }
    Ok(())
}

/// Adds the characters that pairs lead to from members.
pub(crate) fn add_alike(
    class: &Class,
    pairs: &[(u32, u32)],
    out: &mut Vec<ClassRange>,
) -> Result<(), OutOfMemory>
    ensures { OnOk result ((r : ℕ) → in_ranges out.new.items r ≡ (in_ranges out.old.items r || any_alike pairs.now class.now.ranges.items r)) }
{
    for i in 0..pairs.len() {
        push_other(class, pairs[i], out)?;
    }
    Ok(())
}

/// The first place whose key is at least the code.
fn first_place(pairs: &[(u32, u32)], code: u32) -> usize
    requires { KeysRise pairs.now }
    ensures { IsLowerBound pairs.now code result }
{
    let mut low = 0;
    let mut high = pairs.len();
    while low < high {
        let middle = low + (high - low) / 2;
        if pairs[middle].0 < code {
            low = middle + 1;
        } else {
            high = middle;
        }
    }
    low
}

/// Whether a pair leads from the character with the code to a member.
pub(crate) fn meets_alike(class: &Class, pairs: &[(u32, u32)], code: u32) -> bool
    requires { KeysRise pairs.now }
    ensures { IsTrue result ↔ LeadsTo pairs.now class.now.ranges.items code }
{
    for i in first_place(pairs, code)..pairs.len() {
        let pair = pairs[i];
        if pair.0 != code {
            return false;
        }
        if class.contains(rank_of_code(pair.1)) {
            return true;
        }
    }
    false
}
