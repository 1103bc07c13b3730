//! Escapes and classes as patterns.
ghost use Rattle.std.specs.Prelude.{◌≡◌, ℕ, ◌≤◌, List, IfOk, Some};
ghost use Rattle.tm_onig_class.specs.Tree.{IsOne, Tree, tree_of};
ghost use Rattle.tm_onig_atom.specs.declared.meanings.Meant.TheVariants.{Members};
ghost use Rattle.tm_onig_atom.specs.Escapes.{Escape, BeginsEscape, meant_tree, escape_tree};
ghost use Rattle.tm_onig_atom.specs.Classes.{Class, BeginsClass, class_height, class_tree};
ghost use Rattle.tm_onig_atom.specs.inner.ClassReading.{class_at};
ghost use Rattle.tm_onig_atom.specs.inner.Reading.{escape_at};
ghost use Rattle.tm_onig_atom.specs.inner.Views.{Gives};

use crate::classes::class_body;
use crate::escapes::read_escape;
use crate::fault::AtomFault;
use crate::meanings::{Meant, Named};
use crate::options::Options;
use crate::store::Sets;
use std::alloc::Global;
use tm_onig_class::patterns::Pattern;

/// A set outside classes: whether it is widened is said by the node.
#[tactic(auto, using(tm_onig_class::proofs::Trees::nodes))]
fn members(
    alloc: Global,
    sets: &mut Sets,
    options: Options,
    named: Named,
) -> Result<Pattern, AtomFault>
    ensures { Gives tree_of result (Some (meant_tree options (Members named))) }
{
    let Ok(set) = sets.named(alloc, named, false) else {
        return Err(AtomFault::OutOfMemory);
    };
    set.prove_exact();
    let fold = options.fold;
    Ok(Pattern::Set { set, fold })
}

#[tactic(auto, using(tm_onig_class::proofs::Trees::nodes))]
fn pattern(
    alloc: Global,
    sets: &mut Sets,
    options: Options,
    meant: Meant,
) -> Result<Pattern, AtomFault>
    ensures { Gives tree_of result (Some (meant_tree options meant)) }
{
    let fold = options.fold;
    match meant {
        Meant::Character(c) => Ok(Pattern::Char { c, fold }),
        Meant::Members(named) => members(alloc, sets, options, named),
    }
}

fn read_atom<'a>(
    alloc: Global,
    sets: &mut Sets,
    options: Options,
    text: &'a [char],
) -> Result<(Pattern, &'a [char]), AtomFault>
    ensures { Gives (λ x. (tree_of x.0, x.1.now)) result (escape_at options text.now) }
{
    match read_escape(alloc, text) {
        Ok((meant, rest)) => match pattern(alloc, sets, options, meant) {
            Ok(pattern) => Ok((pattern, rest)),
            Err(fault) => Err(fault),
        },
        Err(fault) => Err(fault),
    }
}

/// What stands behind a backslash outside classes, as a pattern, and the text behind it. Positions and
/// references begin with a backslash too: whoever reads them takes them before. `Unreadable` comes
/// exactly where no escape stands there.
pub fn escape<'a>(
    alloc: Global,
    sets: &mut Sets,
    options: Options,
    text: &'a [char],
) -> Result<(Pattern, &'a [char]), AtomFault>
    // What is read is an escape, spelled so, and means this tree.
    ensures found { IfOk result (λ x. (e : Escape) × BeginsEscape text.now e x.1.now × (tree_of x.0 ≡ escape_tree options e)) }
    // An escape that stands there is read, unless memory runs out.
    ensures only { (e : Escape) (rest : List ℕ) → BeginsEscape text.now e rest → Gives {Y = Tree × List ℕ} (λ x. (tree_of x.0, x.1.now)) result (Some (escape_tree options e, rest)) }
    // Each match takes one character.
    ensures wide { IfOk result (λ x. IsOne (tree_of x.0)) }
    // The same as a function of the text.
    ensures read { Gives (λ x. (tree_of x.0, x.1.now)) result (escape_at options text.now) }
{
    read_atom(alloc, sets, options, text)
}

#[tactic(auto, using(tm_onig_class::proofs::Trees::nodes))]
fn read_class<'a>(
    alloc: Global,
    sets: &mut Sets,
    options: Options,
    depth: u32,
    text: &'a [char],
) -> Result<((Pattern, u32), &'a [char]), AtomFault>
    ensures { Gives (λ x. ((tree_of x.0.0, x.0.1), x.1.now)) result (class_at depth options text.now) }
{
    match class_body(alloc, sets, options.fold, depth, text) {
        Ok((body, rest)) => {
            let set = body.set;
            Ok(((Pattern::Set { set, fold: false }, body.height), rest))
        }
        Err(fault) => Err(fault),
    }
}

/// What stands behind a `[`, as a pattern with how many classes are open at once in it, itself
/// counted, and the text behind its `]`. So many may be `depth` at most: as many calls are nested.
/// `Unreadable` comes exactly where no class stands there, or one that is nested deeper.
pub fn class<'a>(
    alloc: Global,
    sets: &mut Sets,
    options: Options,
    depth: u32,
    text: &'a [char],
) -> Result<((Pattern, u32), &'a [char]), AtomFault>
    // What is read is a class, spelled so, and means this tree.
    ensures found { IfOk result (λ x. (k : Class) × BeginsClass text.now k x.1.now × (tree_of x.0.0 ≡ class_tree options k) × (x.0.1 ≡ class_height k) × (class_height k ≤ depth)) }
    // A class that stands there, and is not nested deeper, is read, unless memory runs out.
    ensures only { (k : Class) (rest : List ℕ) → BeginsClass text.now k rest → class_height k ≤ depth → Gives {Y = (Tree × ℕ) × List ℕ} (λ x. ((tree_of x.0.0, x.0.1), x.1.now)) result (Some ((class_tree options k, class_height k), rest)) }
    // It is nested no deeper.
    ensures low { IfOk result (λ x. x.0.1 ≤ depth) }
    // Each match takes one character.
    ensures wide { IfOk result (λ x. IsOne (tree_of x.0.0)) }
    // The same as a function of the text.
    ensures read { Gives (λ x. ((tree_of x.0.0, x.0.1), x.1.now)) result (class_at depth options text.now) }
{
    read_class(alloc, sets, options, depth, text)
}
