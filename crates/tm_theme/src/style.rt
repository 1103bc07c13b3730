//! What the rules of a theme set.
use tm_defs::texts::ScopePath;

/// The font and the colours of a scope. A font is the sum of 1 italic, 2 bold, 4 underline, 8 strikethrough; a colour
/// is its number in the theme.
#[derive(Clone, Copy, Debug, PartialEq, Eq)]
pub struct Look {
    pub font: u16,
    pub foreground: u16,
    pub background: u16,
}

/// What a rule sets.
#[derive(Clone, Copy, Debug, PartialEq, Eq)]
pub struct Style {
    pub font: Option<u16>,
    pub foreground: Option<u16>,
    pub background: Option<u16>,
}

/// One alternative of a rule's scope, with what the rule sets.
#[derive(Drop)]
pub struct Alternative {
    /// Its words, the last one first: the scope, and then what has to stand above, from the nearest outward.
    pub words: ScopePath,
    pub style: Style,
}
