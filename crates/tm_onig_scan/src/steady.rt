//! Which patterns match at a start alike wherever the search began: those without `\A` and `\G`.
ghost use Rattle.std.specs.Option.{option_copied};
ghost use Rattle.std.specs.Prelude.{◌≡◌, ◌<◌, ◌^◌, List, Option, length, map, option_map, true};
ghost use Rattle.tm_onig_class.specs.Tree.{Tree, tree_of, trees};
ghost use Rattle.tm_onig_scan.specs.Asked.{put_in};
ghost use Rattle.tm_onig_scan.specs.Steady.{all_steady, are_steady, is_of_text, is_steady, steady_if};
ghost use Rattle.tm_onig_scan.specs.Winner.{patterns_at, trees_of};

use crate::asked::Instead;
use crate::programs::{program_at, program_of_place};
use tm_onig_class::patterns::{Pattern, Position};
use tm_onig_vm::program::Prog;

/// Whether the text alone decides that the place is there.
fn is_of_text(place: Position) -> bool
    ensures { result ≡ is_of_text place }
{
    match place {
        Position::TextStart | Position::SearchStart => false,
        _ => true,
    }
}

/// Whether neither `\A` nor `\G` stands in the pattern.
#[cycle(is_steady)]
#[tactic(auto, using(tm_onig_class::proofs::Trees::nodes), unfolding(crate::specs::Steady::is_steady))]
fn is_steady(pattern: &Pattern) -> bool
    ensures { result ≡ is_steady (tree_of pattern.now) }
{
    match pattern {
        Pattern::Empty => true,
        Pattern::Char { .. } => true,
        Pattern::Any { .. } => true,
        Pattern::Set { .. } => true,
        Pattern::Cat(parts) => are_steady(parts.as_slice()),
        Pattern::Alt(parts) => are_steady(parts.as_slice()),
        Pattern::Group { body, .. } => is_steady(body),
        Pattern::Atomic(body) => is_steady(body),
        Pattern::Repeat { body, .. } => is_steady(body),
        Pattern::Look { body, .. } => is_steady(body),
        Pattern::Back { .. } => true,
        Pattern::Position(place) => is_of_text(*place),
    }
}

#[cycle(is_steady)]
fn are_steady(parts: &[Pattern]) -> bool
    ensures { result ≡ are_steady (trees (map tree_of parts.now)) }
{
    let mut steady = true;
    for i in (0..parts.len()).rev() {
        steady = is_steady(&parts[i]) & steady;
    }
    steady
}

/// The same where there may be no pattern.
pub(crate) fn steady_if(program: Option<&Prog>) -> bool
    ensures { result ≡ steady_if (option_map tree_of (option_copied program.entry)) }
{
    match program {
        None => true,
        Some(program) => is_steady(program.pattern()),
    }
}

/// Whether all patterns are steady.
pub(crate) fn all_steady(programs: &[Option<Prog>]) -> bool
    requires few { length programs.now < 2 ^ 32 }
    ensures { result ≡ all_steady (trees_of programs.now) }
{
    let mut steady = true;
    for number in (0..programs.len()).rev() {
        steady = steady_if(program_at(programs, number as u32)) & steady;
    }
    steady
}

/// Whether all patterns of these numbers are steady.
pub(crate) fn listed_steady(programs: &[Option<Prog>], numbers: &[u32]) -> bool
    requires few { length numbers.now < 2 ^ 32 }
    ensures { result ≡ all_steady (patterns_at (trees_of programs.now) numbers.now) }
{
    let mut steady = true;
    for place in (0..numbers.len()).rev() {
        steady = steady_if(program_of_place(programs, numbers, place as u32)) & steady;
    }
    steady
}

/// Whether what stands in place of another pattern is steady.
pub(crate) fn steady_put(instead: Option<Instead>) -> bool
    ensures { result ≡ true → (patterns : List (Option Tree)) → all_steady patterns ≡ true → all_steady (put_in patterns instead.entry) ≡ true }
{
    match instead {
        None => true,
        Some(instead) => steady_if(instead.program),
    }
}
