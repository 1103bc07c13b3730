//! Quantifiers, which say how often a part matches.
ghost use Rattle.std.specs.Prelude.{◌≡◌, Some};
ghost use Rattle.tm_onig_parse.specs.Meaning.{is_greedy, kept, around};
ghost use Rattle.tm_onig_parse.specs.inner.Reading.{within, more_times};
ghost use Rattle.tm_onig_parse.specs.inner.Views.{Gives, built_of};

use crate::ParseFault;
use crate::part::Part;
use crate::parts::repeat;
use std::alloc::Global;
use tm_onig_class::patterns::Pattern;

/// How a quantifier repeats.
#[derive(Clone, Copy, Debug, PartialEq, Eq)]
pub enum Manner {
    /// One time more is tried before going on.
    Greedy,
    /// Going on is tried before one time more.
    Lazy,
    /// `?+ *+ ++`: greedy, and its first success alone counts.
    Possessive,
    /// `{n}?`: greedy, and the whole may be left out.
    Optional,
}

fn greedy(manner: Manner) -> bool
    ensures { result ≡ is_greedy manner }
{
    match manner {
        Manner::Lazy => false,
        Manner::Greedy | Manner::Possessive | Manner::Optional => true,
    }
}

/// A repetition of which the first success alone counts.
#[tactic(auto, using(tm_onig_class::proofs::Trees::nodes))]
fn keep(alloc: Global, part: Part) -> Result<Part, ParseFault>
    ensures { Gives built_of result (Some (kept (built_of part))) }
{
    let Part {
        pattern,
        height,
        repeated: _,
    } = part;
    let Ok(body) = Box::new(alloc, pattern) else {
        return Err(ParseFault::OutOfMemory);
    };
    Ok(Part {
        pattern: Pattern::Atomic(body),
        height,
        repeated: true,
    })
}

/// What the manner makes of a repetition.
fn wrap(alloc: Global, part: Part, manner: Manner) -> Result<Part, ParseFault>
    ensures { Gives built_of result (within (around manner (built_of part))) }
{
    match manner {
        Manner::Greedy | Manner::Lazy => Ok(part),
        Manner::Possessive => keep(alloc, part),
        Manner::Optional => repeat(alloc, part, 0, Some(1), true),
    }
}

/// A part with a quantifier behind it.
pub fn quantify(
    alloc: Global,
    part: Part,
    least: u32,
    greatest: Option<u32>,
    manner: Manner,
) -> Result<Part, ParseFault>
    ensures { Gives built_of result (more_times least greatest manner (built_of part)) }
{
    match repeat(alloc, part, least, greatest, greedy(manner)) {
        Ok(once) => wrap(alloc, once, manner),
        Err(fault) => Err(fault),
    }
}
