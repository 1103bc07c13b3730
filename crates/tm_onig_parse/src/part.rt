//! A part of a pattern while it is read.
ghost use Rattle.std.specs.Prelude.{◌≤◌};

use tm_onig_class::patterns::Pattern;

/// How deep groups, classes and repeated quantifiers stand within one another at most: a tree is let
/// go by a call for each level, so none that is deeper is made.
pub const DEEPEST: u32 = 200;

/// A pattern, with how deep its text is nested, and whether it is a repetition.
#[derive(Drop)]
pub struct Part {
    pub pattern: Pattern,
    pub height: u32,
    pub repeated: bool,
    pub ghost low: { height ≤ 200 },
}
