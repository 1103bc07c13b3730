//! The texts of a rule, whatever its kind.
ghost use Rattle.std.specs.Prelude.{◌≡◌, Some};
ghost use Rattle.std.specs.Option.{option_copied};
ghost use Rattle.tm_rules.specs.Readers.{content_name_in, end_last_in, name_in};

use tm_defs::rules::Rule;
use tm_defs::texts::Name;

/// Whether its end is tried behind its patterns, where it has an end.
pub fn end_last_in(rule: &Rule) -> Option<bool>
    ensures { result ≡ end_last_in (Some rule.now) }
{
    match rule {
        Rule::BeginEnd { end_last, .. } => Some(*end_last),
        Rule::Match { .. } => None,
        Rule::BeginWhile { .. } => None,
        Rule::Only { .. } => None,
    }
}

/// The name of a rule that matches or begins.
pub fn name_in(rule: &Rule) -> Option<&Name>
    ensures { option_copied result ≡ name_in (Some rule.now) }
{
    match rule {
        Rule::Match { name, .. } => name.as_ref(),
        Rule::BeginEnd { name, .. } => name.as_ref(),
        Rule::BeginWhile { name, .. } => name.as_ref(),
        Rule::Only { .. } => None,
    }
}

/// The name of what is inside a rule that begins.
pub fn content_name_in(rule: &Rule) -> Option<&Name>
    ensures { option_copied result ≡ content_name_in (Some rule.now) }
{
    match rule {
        Rule::Match { .. } => None,
        Rule::BeginEnd { content_name, .. } => content_name.as_ref(),
        Rule::BeginWhile { content_name, .. } => content_name.as_ref(),
        Rule::Only { .. } => None,
    }
}
