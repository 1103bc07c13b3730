//! What escapes stand for.

use tm_onig_class::names::Known;

/// A set that has a name, or its complement.
#[derive(Clone, Copy, Debug, PartialEq, Eq)]
pub struct Named {
    pub known: Known,
    pub negated: bool,
}

/// What an escape stands for.
#[derive(Clone, Copy, Debug, PartialEq, Eq)]
pub enum Meant {
    Character(char),
    Members(Named),
}
