//! Classes: their text from the `[` to the `]` that ends them, with the classes nested in them.
ghost use Rattle.std.specs.Prelude.{◌≡◌, true};
ghost use Rattle.tm_onig_atom.specs.Escapes.{begins};
ghost use Rattle.tm_onig_atom.specs.inner.ClassReading.{items_of, part_at, parts_on, closes_at, part_height, highest, body_at};
ghost use Rattle.tm_onig_atom.specs.inner.Views.{Gives};

use crate::class_sets::class_set;
use crate::fault::AtomFault;
use crate::fronts::front;
use crate::parts::{Front, Part};
use crate::slices::tail;
use crate::store::Sets;
use std::alloc::Global;
use tm_onig_class::sets::Set;

/// A class, with how many are open at once in it, itself counted.
#[derive(Drop)]
pub(crate) struct Body {
    pub(crate) set: Set,
    pub(crate) height: u32,
}

/// Whether the class ends here.
fn closes(first: bool, text: &[char]) -> bool
    ensures { result ≡ closes_at first text.now }
{
    match text {
        [c, ..] => *c == ']' && !first,
        _ => false,
    }
}

fn height_of(part: &Part) -> u32
    ensures { result ≡ part_height part.now }
{
    match part {
        Part::Inner { height, .. } => *height,
        _ => 0,
    }
}

fn highest(parts: &[Part]) -> u32
    ensures { result ≡ highest parts.now }
{
    let mut high = 0;
    for part in parts.iter() {
        high = high.max(height_of(part));
    }
    high
}

/// One part, where `depth` classes may be open within this one.
#[cycle(nested)]
fn part<'a>(
    alloc: Global,
    sets: &mut Sets,
    fold: bool,
    depth: u32,
    first: bool,
    text: &'a [char],
) -> Result<(Part, &'a [char]), AtomFault>
    ensures { Gives (λ x. (x.0, x.1.now)) result (part_at (body_at depth fold) first text.now) }
{
    match front(alloc, first, text) {
        Ok((Front::Adds(member), rest)) => Ok((Part::Adds(member), rest)),
        Ok((Front::Meets, rest)) => Ok((Part::Meets, rest)),
        Ok((Front::Opens, rest)) => match class_body(alloc, sets, fold, depth, rest) {
            Ok((body, after)) => Ok((
                Part::Inner {
                    set: body.set,
                    height: body.height,
                },
                after,
            )),
            Err(fault) => Err(fault),
        },
        Err(fault) => Err(fault),
    }
}

/// The parts up to `]`.
#[cycle(nested)]
fn parts<'a>(
    alloc: Global,
    sets: &mut Sets,
    fold: bool,
    depth: u32,
    text: &'a [char],
) -> Result<(Vec<Part>, &'a [char]), AtomFault>
    ensures { Gives (λ x. (x.0.items, x.1.now)) result (parts_on (body_at depth fold) true text.now) }
{
    let mut parts = Vec::new(alloc);
    let mut rest = text;
    let mut first = true;
    while !closes(first, rest) {
        match part(alloc, sets, fold, depth, first, rest) {
            Ok((part, after)) => {
                let Ok(()) = parts.push(part) else {
                    return Err(AtomFault::OutOfMemory);
                };
                first = false;
                rest = after;
            }
            Err(fault) => return Err(fault),
        }
    }
    Ok((parts, tail(rest)))
}

/// Whether a `^` negates the class, and what follows it.
fn sign(text: &[char]) -> (bool, &[char])
    ensures negated { result.0 ≡ begins 94 text.now }
    ensures items { result.1.now ≡ items_of text.now }
{
    match text {
        ['^', items @ ..] => (true, items),
        _ => (false, text),
    }
}

/// What follows a `[`, where `depth` classes may be open from here on.
#[cycle(nested)]
pub(crate) fn class_body<'a>(
    alloc: Global,
    sets: &mut Sets,
    fold: bool,
    depth: u32,
    text: &'a [char],
) -> Result<(Body, &'a [char]), AtomFault>
    ensures { Gives (λ x. ((x.0.set, x.0.height), x.1.now)) result (body_at depth fold text.now) }
{
    if depth == 0 {
        return Err(AtomFault::Unreadable);
    }
    let (negated, items) = sign(text);
    match parts(alloc, sets, fold, depth - 1, items) {
        Ok((parts, rest)) => {
            let Ok(set) = class_set(alloc, sets, fold, negated, &parts) else {
                return Err(AtomFault::OutOfMemory);
            };
            set.prove_exact();
            let height = highest(&parts) + 1;
            Ok((Body { set, height }, rest))
        }
        Err(fault) => Err(fault),
    }
}
