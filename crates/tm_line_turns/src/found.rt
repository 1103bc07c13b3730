//! What is found in a line, and where a rule was opened.

use tm_defs::caps::Caps;

/// The position, in characters, and the anchor at which a line opened a rule.
#[derive(Clone, Copy, Debug, PartialEq, Eq)]
pub struct Entry {
    pub at: usize,
    pub anchor: Option<usize>,
}

/// What was found: where it starts and ends, in characters, and start and end of each group that is set, the
/// whole match first.
#[derive(Drop)]
pub struct Match {
    pub start: usize,
    pub end: usize,
    pub groups: Caps,
}

/// What is found first: nothing, the end of the innermost rule, the begin of the rule of a number, or the match
/// of one.
#[derive(Drop)]
pub enum Winner {
    Nothing,
    Ends(Match),
    Begins(u32, Match),
    Matches(u32, Match),
}

/// Which pattern of a rule was found, so which of its captures are meant.
#[derive(Clone, Copy, Debug, PartialEq, Eq)]
pub enum Whose {
    AtBegin,
    AtEnd,
    AtMatch,
    AtWhile,
}
