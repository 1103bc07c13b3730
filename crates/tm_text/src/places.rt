//! What is wrong with the places of a change.
ghost use Rattle.std.specs.Prelude.{◌≡◌, ◌<◌, ◌-◌, ◌^◌, All, length, map};
ghost use Rattle.std.specs.Arc.{arc_value};
ghost use Rattle.tm_machine.specs.Places.{column_fault, place_fault, bad_place};

use std::sync::Arc;
use tm_defs::changes::{Change, Place};
use tm_defs::texts::Line;

/// What is wrong with a column of a line.
fn fault_of_column(line: u32, col: u32, characters: &Line) -> Option<Place>
    requires { length characters.now < 2 ^ 31 - 1 }
    ensures { result ≡ column_fault line col characters.now }
{
    let len = characters.as_slice().len() as u32;
    if col <= len {
        None
    } else {
        Some(Place::NoCol { line, col, len })
    }
}

/// What is wrong with a place.
fn fault_of_place(lines: &[Arc<Line>], line: u32, col: u32) -> Option<Place>
    requires count { length lines.now < 2 ^ 31 }
    requires short { All (λ line. length line < 2 ^ 31 - 1) (map arc_value lines.now) }
    ensures { result ≡ place_fault (map arc_value lines.now) line col }
{
    if line as usize >= lines.len() {
        return Some(Place::NoLine {
            line,
            lines: lines.len() as u32,
        });
    }
    fault_of_column(line, col, &lines[line as usize])
}

/// The first that is wrong with the places of a change: the first place, the second place, their
/// order.
pub fn fault_of_places(lines: &[Arc<Line>], change: &Change) -> Option<Place>
    requires count { length lines.now < 2 ^ 31 }
    requires short { All (λ line. length line < 2 ^ 31 - 1) (map arc_value lines.now) }
    ensures { result ≡ bad_place (map arc_value lines.now) change.now }
{
    if let Some(place) = fault_of_place(lines, change.from_line, change.from_col) {
        return Some(place);
    }
    if let Some(place) = fault_of_place(lines, change.to_line, change.to_col) {
        return Some(place);
    }
    let one_line = change.from_line == change.to_line;
    if change.to_line < change.from_line || (one_line && change.to_col < change.from_col) {
        return Some(Place::Reversed);
    }
    None
}
