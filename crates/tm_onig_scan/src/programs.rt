//! The programs of patterns by number.
ghost use Rattle.std.specs.Option.{option_copied};
ghost use Rattle.std.specs.Prelude.{◌≡◌, option_map};
ghost use Rattle.tm_onig_class.specs.Tree.{tree_of};
ghost use Rattle.tm_onig_scan.specs.Winner.{trees_of, pattern_at, patterns_at};

use tm_onig_vm::program::Prog;

/// The program of a number, if it has one; a number beyond the list has none.
pub(crate) fn program_at(programs: &[Option<Prog>], number: u32) -> Option<&Prog>
    ensures { option_map tree_of (option_copied result) ≡ pattern_at (trees_of programs.now) number }
{
    match programs.get(number as usize) {
        Some(Some(program)) => Some(program),
        _ => None,
    }
}

/// The program of the number at a place.
#[tactic(auto, using(crate::proofs::Rows::pattern_of_place))]
pub(crate) fn program_of_place<'a>(
    programs: &'a [Option<Prog>],
    numbers: &[u32],
    place: u32,
) -> Option<&'a Prog>
    ensures { option_map tree_of (option_copied result) ≡ pattern_at (patterns_at (trees_of programs.now) numbers.now) place }
{
    match numbers.get(place as usize) {
        Some(number) => program_at(programs, *number),
        None => None,
    }
}
