//! What is made of parts: rows, alternatives, groups and repetitions.
ghost use Rattle.std.specs.Prelude.{◌≡◌, ◌≤◌, ◌+◌, if◌then◌else◌, Some, ◌++◌, ◌∷◌, [], map};
ghost use Rattle.tm_onig_class.specs.Tree.{tree_of};
ghost use Rattle.tm_onig_parse.specs.Meaning.{nested, leaf, row_built, alts_built, enclosed, repeated, highest, tree_in};
ghost use Rattle.tm_onig_parse.specs.inner.Reading.{within};
ghost use Rattle.tm_onig_parse.specs.inner.Views.{Gives, Steps, built_of};

use crate::ParseFault;
use crate::groups::Opener;
use crate::part::{DEEPEST, Part};
use sqlite_items::Items;
use std::alloc::Global;
use tm_onig_class::patterns::Pattern;

/// A part that is no repetition.
pub fn nested(pattern: Pattern, height: u32) -> Part
    requires { height ≤ 200 }
    ensures { built_of result ≡ nested (tree_of pattern) height }
{
    Part {
        pattern,
        height,
        repeated: false,
    }
}

/// A part that has no parts.
pub fn leaf(pattern: Pattern) -> Part
    ensures { built_of result ≡ leaf (tree_of pattern) }
{
    nested(pattern, 0)
}

fn patterns(alloc: Global, parts: Vec<Part>) -> Result<Vec<Pattern>, ParseFault>
    ensures { Gives (λ v. map tree_of v.items) result (Some (map tree_in (map built_of parts.items))) }
{
    let mut patterns = Vec::new(alloc);
    for part in parts {
        let Part { pattern, .. } = part;
        let Ok(()) = patterns.push(pattern) else {
            return Err(ParseFault::OutOfMemory);
        };
    }
    Ok(patterns)
}

fn highest_of(parts: &[Part]) -> u32
    ensures value { result ≡ highest (map built_of parts.now) }
    ensures low { result ≤ 200 }
{
    let mut high = 0;
    for part in parts {
        high = high.max(part.height);
    }
    high
}

/// The part itself, as the only one of a row or of a group.
fn alone(part: Part) -> Part
    ensures { built_of result ≡ row_built (built_of part ∷ []) }
{
    let Part {
        pattern,
        height,
        repeated: _,
    } = part;
    nested(pattern, height)
}

/// The parts in a row.
#[tactic(auto, using(tm_onig_class::proofs::Trees::nodes))]
pub fn row_of(alloc: Global, mut parts: Vec<Part>) -> Result<Part, ParseFault>
    ensures { Gives built_of result (Some (row_built (map built_of parts.items))) }
{
    if parts.len() > 1 {
        let height = highest_of(&parts);
        return match patterns(alloc, parts) {
            Ok(parts) => Ok(nested(Pattern::Cat(Items::from_vec(parts)), height)),
            Err(fault) => Err(fault),
        };
    }
    match parts.pop() {
        Some(part) => Ok(alone(part)),
        None => Ok(leaf(Pattern::Empty)),
    }
}

/// The parts as alternatives.
#[tactic(auto, using(tm_onig_class::proofs::Trees::nodes))]
pub fn alternatives_of(alloc: Global, mut parts: Vec<Part>) -> Result<Part, ParseFault>
    ensures { Gives built_of result (Some (alts_built (map built_of parts.items))) }
{
    if parts.len() > 1 {
        let height = highest_of(&parts);
        return match patterns(alloc, parts) {
            Ok(parts) => Ok(nested(Pattern::Alt(Items::from_vec(parts)), height)),
            Err(fault) => Err(fault),
        };
    }
    match parts.pop() {
        Some(part) => Ok(alone(part)),
        None => Ok(leaf(Pattern::Empty)),
    }
}

pub fn push(parts: &mut Vec<Part>, part: Part) -> Result<(), ParseFault>
    ensures { Steps result (map built_of parts.new.items) (Some (map built_of parts.old.items ++ built_of part ∷ [])) }
{
    let Ok(()) = parts.push(part) else {
        return Err(ParseFault::OutOfMemory);
    };
    Ok(())
}

/// A group around a part. The number is that of a group that captures.
#[tactic(auto, using(tm_onig_class::proofs::Trees::nodes))]
pub fn group(alloc: Global, opener: Opener, number: u32, body: Part) -> Result<Part, ParseFault>
    ensures { Gives built_of result (within (enclosed opener number (built_of body))) }
{
    let Part {
        pattern,
        height,
        repeated: _,
    } = body;
    if height >= DEEPEST {
        return Err(ParseFault::Unreadable);
    }
    let height = height + 1;
    match opener {
        Opener::Captures => {
            let Ok(body) = Box::new(alloc, pattern) else {
                return Err(ParseFault::OutOfMemory);
            };
            Ok(nested(Pattern::Group { number, body }, height))
        }
        Opener::Groups | Opener::Sets => Ok(nested(pattern, height)),
        Opener::Keeps => {
            let Ok(body) = Box::new(alloc, pattern) else {
                return Err(ParseFault::OutOfMemory);
            };
            Ok(nested(Pattern::Atomic(body), height))
        }
        Opener::Looks { ahead, negative } => {
            let Ok(body) = Box::new(alloc, pattern) else {
                return Err(ParseFault::OutOfMemory);
            };
            let pattern = Pattern::Look {
                body,
                ahead,
                negative,
            };
            Ok(nested(pattern, height))
        }
    }
}

/// How deep the text of a repetition is nested: one deeper around a repetition.
fn height_of_repeat(height: u32, repeated: bool) -> u32
    requires { height ≤ 200 }
    ensures { result ≡ (if repeated then height + 1 else height) }
{
    if repeated { height + 1 } else { height }
}

/// A repetition of a part.
#[tactic(auto, using(tm_onig_class::proofs::Trees::nodes))]
pub fn repeat(
    alloc: Global,
    part: Part,
    least: u32,
    greatest: Option<u32>,
    greedy: bool,
) -> Result<Part, ParseFault>
    ensures { Gives built_of result (within (repeated least greatest greedy (built_of part))) }
{
    let Part {
        pattern,
        height,
        repeated,
    } = part;
    let height = height_of_repeat(height, repeated);
    if height > DEEPEST {
        return Err(ParseFault::Unreadable);
    }
    let Ok(body) = Box::new(alloc, pattern) else {
        return Err(ParseFault::OutOfMemory);
    };
    Ok(Part {
        pattern: Pattern::Repeat {
            body,
            least,
            greatest,
            greedy,
        },
        height,
        repeated: true,
    })
}
