//! An equal pattern of one's own, for a program that outlives the pattern that it was made from.
ghost use Rattle.std.specs.Prelude.{◌≡◌, map, IfOk};
ghost use Rattle.tm_onig_class.specs.Tree.{tree_of};

use sqlite_items::Items;
use std::alloc::Global;
use tm_defs::memory::OutOfMemory;
use tm_onig_class::patterns::Pattern;

/// An equal pattern.
#[cycle(copy)]
#[tactic(auto, using(tm_onig_class::proofs::Trees::nodes))]
pub(crate) fn copy(alloc: Global, pattern: &Pattern) -> Result<Pattern, OutOfMemory>
    ensures { IfOk result (λ copy. tree_of copy ≡ tree_of pattern.now) }
{
    match pattern {
        Pattern::Empty => Ok(Pattern::Empty),
        Pattern::Char { c, fold } => Ok(Pattern::Char { c: *c, fold: *fold }),
        Pattern::Any { newline } => Ok(Pattern::Any { newline: *newline }),
        Pattern::Set { set, fold } => Ok(Pattern::Set {
            set: set.copy()?,
            fold: *fold,
        }),
        Pattern::Cat(parts) => Ok(Pattern::Cat(copy_all(alloc, parts.as_slice())?)),
        Pattern::Alt(parts) => Ok(Pattern::Alt(copy_all(alloc, parts.as_slice())?)),
        Pattern::Group { number, body } => {
            let own = copy(alloc, body)?;
            Ok(Pattern::Group {
                number: *number,
                body: Box::new(alloc, own)?,
            })
        }
        Pattern::Atomic(body) => {
            let own = copy(alloc, body)?;
            Ok(Pattern::Atomic(Box::new(alloc, own)?))
        }
        Pattern::Repeat {
            body,
            least,
            greatest,
            greedy,
        } => {
            let own = copy(alloc, body)?;
            Ok(Pattern::Repeat {
                body: Box::new(alloc, own)?,
                least: *least,
                greatest: *greatest,
                greedy: *greedy,
            })
        }
        Pattern::Look {
            body,
            ahead,
            negative,
        } => {
            let own = copy(alloc, body)?;
            Ok(Pattern::Look {
                body: Box::new(alloc, own)?,
                ahead: *ahead,
                negative: *negative,
            })
        }
        Pattern::Back { groups, fold } => Ok(Pattern::Back {
            groups: Items::from_vec(Vec::from_slice(alloc, groups.as_slice())?),
            fold: *fold,
        }),
        Pattern::Position(place) => Ok(Pattern::Position(*place)),
    }
}

#[cycle(copy)]
fn copy_all(alloc: Global, parts: &[Pattern]) -> Result<Items<Pattern>, OutOfMemory>
    ensures { IfOk result (λ copy. map tree_of copy ≡ map tree_of parts.now) }
{
    let mut copies = Vec::new(alloc);
    for i in 0..parts.len() {
        copies.push(copy(alloc, &parts[i])?)?;
    }
    Ok(Items::from_vec(copies))
}
