//! What a search is asked: a text and where it begins, and what stands in a list for this search alone.
use tm_onig_vm::program::Prog;
use tm_onig_vm::starts::Anchors;

/// A text, where the search for a match begins in it, in characters, and whether `\A` may match at 0 and `\G`
/// where it begins.
#[derive(Clone, Copy)]
pub struct Asked<'a> {
    pub text: &'a [char],
    pub anchors: Anchors,
}

/// What stands at a place of a list in one search, in place of the list's own pattern; with no program nothing
/// matches there. A place beyond the list is none.
#[derive(Clone, Copy)]
pub struct Instead<'a> {
    pub place: u32,
    pub program: Option<&'a Prog>,
}
