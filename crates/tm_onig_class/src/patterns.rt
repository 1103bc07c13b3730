//! The tree of a pattern, as the reader makes it and the compiler of programs walks over it.
use crate::sets::Set;
use sqlite_items::Items;

/// The parts of a row, or alternatives, in their order. `Items::from_vec` makes one, and contracts
/// see the list.
pub type Patterns = Items<Pattern>;

/// Numbers of groups, rising.
pub type Groups = Items<u32>;

/// A place that matches without taking a character.
#[derive(Clone, Copy, Debug, PartialEq, Eq)]
pub enum Position {
    /// `^`: at the text's first position, and after a line break that isn't the last character.
    LineStart,
    /// `$`: before a line break, and at the end.
    LineEnd,
    /// `\A`: at the text's first position, where the search allows it.
    TextStart,
    /// `\G`: at the search's first position, where the search allows it.
    SearchStart,
    /// `\Z`: at the end, and before a line break that ends the text.
    BeforeFinal,
    /// `\z`: at the end.
    TextEnd,
    /// `\b`: where exactly one neighbour is in `word`.
    Word,
    /// `\B`: where both neighbours are in `word` or neither is.
    NotWord,
}

/// A pattern. `fold` says that characters match without regard to case.
#[derive(Drop)]
pub enum Pattern {
    /// Matches the empty text.
    Empty,
    /// One character.
    Char {
        c: char,
        fold: bool,
    },
    /// Any character, a line break only if `newline`.
    Any {
        newline: bool,
    },
    /// One member.
    Set {
        set: Set,
        fold: bool,
    },
    /// The parts in a row, two or more.
    Cat(Patterns),
    /// Alternatives, tried in their order, two or more.
    Alt(Patterns),
    /// A capturing group. Numbers count from 1, in the order of opening.
    Group {
        number: u32,
        body: Box<Pattern>,
    },
    /// Matches as its body does first, and is not entered again.
    Atomic(Box<Pattern>),
    /// The body from `least` to `greatest` times, without limit where that is `None`. Greedy tries
    /// one more iteration before it goes on.
    Repeat {
        body: Box<Pattern>,
        least: u32,
        greatest: Option<u32>,
        greedy: bool,
    },
    /// Tries its body from the position on, or before it unless `ahead`, and takes no character.
    Look {
        body: Box<Pattern>,
        ahead: bool,
        negative: bool,
    },
    /// The text of the last of the groups that is set.
    Back {
        groups: Groups,
        fold: bool,
    },
    /// A place.
    Position(Position),
}

fn crosses<T: Send + Sync>(value: &T) {
    let _value = value;
}

/// Patterns, and the sets within them, may cross and be shared between threads.
pub fn patterns_cross(pattern: &Pattern, set: &Set) {
    crosses(pattern);
    crosses(set);
}
