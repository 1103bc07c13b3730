//! The reader of patterns.
//!
//! A pattern's text is read from left to right, with the groups that are open on a stack of its own: no
//! call is nested as deep as the text, and what is made is at most 200 deep, so that it can be let go. A
//! first pass finds the groups and their names, to which a reference may refer before they are opened. The
//! grammar is a definition apart (`specs/Grammar.antt`, `specs/Meaning.antt`).
#![tactic(auto)]

ghost use Rattle.std.specs.Prelude.{◌≡◌, ℕ, List, IfOk, Some};
ghost use Rattle.tm_onig_class.specs.Groups.{IsNumbered};
ghost use Rattle.tm_onig_class.specs.Limits.{AreLimitsInOrder};
ghost use Rattle.tm_onig_class.specs.Tree.{Tree, tree_of};
ghost use Rattle.tm_onig_parse.specs.Grammar.{Body};
ghost use Rattle.tm_onig_parse.specs.Meaning.{Spells, meaning};
ghost use Rattle.tm_onig_parse.specs.Parsed.{parsed};
ghost use Rattle.tm_onig_parse.specs.inner.Views.{FaultOf, Gives};

mod groups;
mod intervals;
mod letters;
mod names;
mod openings;
mod outlines;
mod part;
mod parts;
mod quantifiers;
mod reader;
mod references;
mod tokens;

use std::alloc::Global;
use tm_defs::texts::Name;
use tm_onig_atom::AtomFault;
use tm_onig_atom::store::Sets;
use tm_onig_class::patterns::Pattern;

/// Why there is no pattern.
#[derive(Clone, Copy, Debug, PartialEq, Eq)]
pub enum ParseFault {
    /// The text is not in the grammar. Only then.
    Unreadable,
    OutOfMemory,
}

/// The same fault of a whole pattern.
fn fault_of(fault: AtomFault) -> ParseFault
    ensures { FaultOf fault result }
{
    match fault {
        AtomFault::Unreadable => ParseFault::Unreadable,
        AtomFault::OutOfMemory => ParseFault::OutOfMemory,
    }
}

/// The pattern that a text spells, after Oniguruma's syntax for Ruby. `Unreadable` comes exactly
/// where the text is not in the grammar, or beyond its limits: 65,536 characters, 1,000 groups that
/// capture, 200 groups, looks, classes and repeated quantifiers within one another.
pub fn parse(alloc: Global, text: &Name) -> Result<Pattern, ParseFault>
    // What is read is spelled so, and means this tree.
    ensures found { IfOk result (λ pattern. (body : Body) × Spells text.now body × (tree_of pattern ≡ meaning body)) }
    // What is spelled so is read, unless memory runs out.
    ensures only { (body : Body) → Spells text.now body → Gives tree_of result (Some (meaning body)) }
    // Its groups are numbered from 1 in the order of their opening.
    ensures numbered { IfOk result (λ pattern. IsNumbered (tree_of pattern)) }
    // The limits of its loops are in order.
    ensures ordered { IfOk result (λ pattern. AreLimitsInOrder (tree_of pattern)) }
    // The same as a function of the text.
    ensures read { Gives tree_of result (parsed text.now) }
{
    parse_with(alloc, &mut Sets::new(alloc), text)
}

/// As `parse`, with the sets of a store that is lent: the patterns that are read with one store share the sets that
/// they name, and their classes. Nothing that is read depends on what the store has.
pub fn parse_with(alloc: Global, sets: &mut Sets, text: &Name) -> Result<Pattern, ParseFault>
    // What is read is spelled so, and means this tree.
    ensures found { IfOk result (λ pattern. (body : Body) × Spells text.now body × (tree_of pattern ≡ meaning body)) }
    // What is spelled so is read, unless memory runs out.
    ensures only { (body : Body) → Spells text.now body → Gives tree_of result (Some (meaning body)) }
    // Its groups are numbered from 1 in the order of their opening.
    ensures numbered { IfOk result (λ pattern. IsNumbered (tree_of pattern)) }
    // The limits of its loops are in order.
    ensures ordered { IfOk result (λ pattern. AreLimitsInOrder (tree_of pattern)) }
    // The same as a function of the text.
    ensures read { Gives tree_of result (parsed text.now) }
{
    reader::read(alloc, sets, text.as_slice())
}

/// What is read of a text, as a function, is what the grammar says: the tree that the text means where
/// it is a pattern, and none where it is not.
pub fn reading_is_by_the_grammar()
    ensures found { (text : List ℕ) (tree : Tree) → parsed text ≡ Some tree → (body : Body) × Spells text body × (tree ≡ meaning body) }
    ensures only { (text : List ℕ) (body : Body) → Spells text body → parsed text ≡ Some (meaning body) }
{}
