//! Callers that the READMEs of the crates of themes show, proved.
ghost use Rattle.std.specs.Prelude.{◌≡◌, ◌↔◌, IsTrue, Some, negsuc, true};
ghost use Rattle.tm_selector.specs.Selector.{priority_of};
ghost use Rattle.tm_theme.specs.Style.{IsSmall};
ghost use Rattle.tm_theme.specs.Theme.{pushed, word_of};

use serde_json::Value;
use std::alloc::Global;
use tm_defs::memory::OutOfMemory;
use tm_defs::texts::{Name, ScopePath};
use tm_selector::names::Scopes;
use tm_selector::selector::Selector;
use tm_theme::rules::MetaRules;
use tm_theme::theme::{Parts, Theme, word_of};
use tm_theme_file::read::{WrittenRule, rules_in};
use tm_theme_file::wrong::wrong_in;

/// Whether a rule for this selector is tried at this path before those of the grammar.
pub fn comes_first(selector: &Selector, path: &ScopePath) -> bool
    ensures { IsTrue result ↔ (priority_of selector.now path.now ≡ Some (negsuc 0)) }
{
    selector.matches(path) == Some(-1)
}

/// The word of a scope below others, where the parts of the scope above are known and no selector is unbalanced.
pub fn word_below<S: Scopes>(
    theme: &Theme,
    rules: &MetaRules,
    above: &S,
    scope: &Name,
    parts: Parts,
) -> u32
    requires { IsSmall parts.look }
    ensures { result ≡ word_of (pushed theme.now.alternatives rules.now.languages.items (S.names above.now) scope.now parts) true }
{
    word_of(theme.pushed(rules, above, scope, parts), true)
}

/// The rules of a value, where nothing is wrong in it.
pub fn right_rules(alloc: Global, value: &Value) -> Result<Option<Vec<WrittenRule>>, OutOfMemory> {
    match wrong_in(alloc, value)? {
        None => Ok(Some(rules_in(alloc, value)?)),
        Some(_) => Ok(None),
    }
}
