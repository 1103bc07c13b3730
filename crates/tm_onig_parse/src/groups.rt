//! A group that is open.
ghost use Rattle.std.specs.Prelude.{◌≡◌, Some};
ghost use Rattle.tm_onig_parse.specs.inner.Reading.{fresh, level_built, next_row};
ghost use Rattle.tm_onig_parse.specs.inner.Views.{Gives, Steps, built_of, level_of_frame};

use crate::ParseFault;
use crate::part::Part;
use crate::parts::{alternatives_of, push, row_of};
use std::alloc::Global;
use std::mem;
use tm_onig_atom::options::Options;

/// How a group is opened.
#[derive(Clone, Copy, Debug, PartialEq, Eq)]
pub enum Opener {
    /// `(`: what it matched is kept.
    Captures,
    /// `(?:`
    Groups,
    /// Options that are set to the end of the group around: `a(?i)b` is `a(?i:b)`.
    Sets,
    /// `(?>`: only its first success counts.
    Keeps,
    /// `(?=`, `(?!`, `(?<=`, `(?<!`: it takes no character.
    Looks { ahead: bool, negative: bool },
}

/// A group that is open, or the whole pattern.
#[derive(Drop)]
pub struct Frame {
    pub opener: Opener,
    /// The number of the last group that captures when it was opened, itself too.
    pub number: u32,
    pub options: Options,
    /// The alternatives before the last.
    pub done: Vec<Part>,
    /// The parts of the last.
    pub row: Vec<Part>,
}

pub fn fresh(alloc: Global, opener: Opener, number: u32, options: Options) -> Frame
    ensures { level_of_frame result ≡ fresh opener number options }
{
    Frame {
        opener,
        number,
        options,
        done: Vec::new(alloc),
        row: Vec::new(alloc),
    }
}

/// Ends the row at a `|`.
pub fn end_row(alloc: Global, frame: &mut Frame) -> Result<(), ParseFault>
    ensures { Steps result (level_of_frame frame.new) (Some (next_row (level_of_frame frame.old))) }
{
    let row = mem::replace(&mut frame.row, Vec::new(alloc));
    match row_of(alloc, row) {
        Ok(part) => push(&mut frame.done, part),
        Err(fault) => Err(fault),
    }
}

/// What the group holds, once it ends.
pub fn whole(alloc: Global, frame: Frame) -> Result<Part, ParseFault>
    ensures { Gives built_of result (Some (level_built (level_of_frame frame))) }
{
    let Frame {
        opener: _,
        number: _,
        options: _,
        mut done,
        row,
    } = frame;
    let last = match row_of(alloc, row) {
        Ok(part) => part,
        Err(fault) => return Err(fault),
    };
    match push(&mut done, last) {
        Ok(()) => alternatives_of(alloc, done),
        Err(fault) => Err(fault),
    }
}
