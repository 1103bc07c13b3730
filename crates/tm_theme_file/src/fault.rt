//! What is first wrong in a theme's file.

use tm_defs::texts::Name;

/// The first value of a theme that is wrong, by its path.
#[derive(Drop)]
pub enum Wrong {
    /// It is not what it ought to be.
    Shape(Name),
    /// It is a text, but no colour.
    Colour(Name),
}
