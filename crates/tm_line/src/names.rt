//! What a match gives for the names and the end of its rule.
ghost use Rattle.std.specs.Prelude.{◌≡◌, length, IfOk};
ghost use Rattle.std.specs.Option.{option_copied};
ghost use Rattle.tm_line_turns.specs.Laws.{IsMatchWithin};
ghost use Rattle.tm_line.specs.Grammar.{end_made_of, scopes_of};
ghost use Rattle.tm_line.specs.inner.Prepared.{AreNamesOf};

use std::alloc::Global;
use tm_defs::memory::OutOfMemory;
use tm_defs::texts::{Name, ScopePath};
use tm_line_turns::found::Match;
use tm_template::ends::{has_references, resolve};
use tm_template::names::{fixed_names, name_of};

/// The scopes that a name gives over a match; none without a name.
pub fn scopes_of(
    alloc: Global,
    name: Option<&Name>,
    text: &[char],
    m: &Match,
) -> Result<ScopePath, OutOfMemory>
    requires { IsMatchWithin (length text.now) m.now }
    ensures { IfOk result (λ scopes. scopes ≡ scopes_of text.now m.now (option_copied name.entry)) }
{
    match name {
        Some(name) => name_of(alloc, name, text, &m.groups),
        None => Ok(ScopePath::new(Vec::new(alloc))),
    }
}

/// The scopes of a name where they are the same over every match.
pub fn fixed_scopes(alloc: Global, name: Option<&Name>) -> Result<Option<ScopePath>, OutOfMemory>
    ensures { IfOk result (AreNamesOf (option_copied name.entry)) }
{
    match name {
        Some(name) => fixed_names(alloc, name),
        None => Ok(Some(ScopePath::new(Vec::new(alloc)))),
    }
}

/// The text that ends a rule, where the end in its grammar refers to what the begin captured.
pub fn end_made_of(
    alloc: Global,
    end: Option<&Name>,
    text: &[char],
    m: &Match,
) -> Result<Option<Name>, OutOfMemory>
    requires { IsMatchWithin (length text.now) m.now }
    ensures { IfOk result (λ made. made ≡ end_made_of text.now m.now (option_copied end.entry)) }
{
    match end {
        Some(end) => {
            if has_references(end) {
                Ok(Some(resolve(alloc, end, text, &m.groups)?))
            } else {
                Ok(None)
            }
        }
        None => Ok(None),
    }
}
