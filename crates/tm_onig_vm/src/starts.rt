//! Where a search stands: what is known of the character before a start, and the class of the next one.
//!
//! Programs say by these alone whether a match may start (`program::Prog::may_start`), so that a caller can
//! find it out once for each class.
ghost use Rattle.std.specs.Prelude.{◌≡◌, ◌<◌, slice_get};
ghost use Rattle.tm_onig_search.specs.Starts.{Sits};
ghost use Rattle.tm_onig_vm.specs.inner.Anchors.{subject_of};
ghost use Rattle.tm_onig_vm.specs.First.{next_class};

use crate::words::is_word;

/// Where a search for a match began, and whether `\A` may match at 0 and `\G` where it began.
#[derive(Clone, Copy)]
pub struct Anchors {
    pub first: usize,
    pub allow_a: bool,
    pub allow_g: bool,
}

/// How many classes of next characters there are.
pub const CLASSES: u32 = 130;

/// The class of the character at a start: its code in ASCII, 128 for any other, and 129 at the text's end.
pub fn class_of(line: &[char], start: usize) -> u32
    ensures class { result ≡ next_class (slice_get line.now start) }
    ensures few { result < 130 }
{
    match line.get(start) {
        None => 129,
        Some(c) => {
            let code = *c as u32;
            if code < 128 { code } else { 128 }
        }
    }
}

/// What is known of the character before a start, whether it is a word's character; none at position 0,
/// where the search began, and behind a line break.
#[tactic(auto, using(crate::proofs::Known::behind_is))]
pub fn known_behind(line: &[char], anchors: Anchors, start: usize) -> Option<bool>
    ensures { Sits (subject_of line.now anchors) result start }
{
    if start == 0 || start == anchors.first {
        return None;
    }
    match line.get(start - 1) {
        None => None,
        Some(c) => { if *c == '\n' { None } else { Some(is_word(*c)) } }
    }
}
