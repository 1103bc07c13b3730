//! What rules say of the groups of their patterns, made ready with the setting.
ghost use Rattle.std.specs.Prelude.{◌≡◌, Option, Some, map, option_map, IfOk};
ghost use Rattle.tm_defs.specs.declared.rules.Rule.{Rule};
ghost use Rattle.tm_line.specs.Groups.{captures_of, group_name, group_rule, groups_of};
ghost use Rattle.tm_line.specs.inner.Grouped.{AreGroups};
ghost use Rattle.tm_rules.specs.Readers.{captures_at_begin, captures_at_end, captures_at_match, captures_at_while};

use std::alloc::Global;
use tm_defs::memory::OutOfMemory;
use tm_defs::rules::{Capture, Rule};
use tm_defs::texts::Name;
use tm_line_turns::captures::{GroupName, GroupRule};
use tm_line_turns::found::Whose;
use tm_template::names::{has_name_references, words};

/// What a rule says of the groups of each of its patterns.
#[derive(Drop)]
pub struct Groups {
    at_begin: Vec<GroupRule>,
    at_end: Vec<GroupRule>,
    at_match: Vec<GroupRule>,
    at_while: Vec<GroupRule>,
}

/// The captures of its begin.
fn captures_at_begin(rule: &Rule) -> &[Capture]
    ensures { result.now ≡ captures_at_begin (Some rule.now) }
{
    match rule {
        Rule::BeginEnd { begin_captures, .. } => begin_captures.as_slice(),
        Rule::BeginWhile { begin_captures, .. } => begin_captures.as_slice(),
        Rule::Match { .. } => &[],
        Rule::Only { .. } => &[],
    }
}

/// Those of its end.
fn captures_at_end(rule: &Rule) -> &[Capture]
    ensures { result.now ≡ captures_at_end (Some rule.now) }
{
    match rule {
        Rule::BeginEnd { end_captures, .. } => end_captures.as_slice(),
        Rule::Match { .. } => &[],
        Rule::BeginWhile { .. } => &[],
        Rule::Only { .. } => &[],
    }
}

/// Those of its match.
fn captures_at_match(rule: &Rule) -> &[Capture]
    ensures { result.now ≡ captures_at_match (Some rule.now) }
{
    match rule {
        Rule::Match { captures, .. } => captures.as_slice(),
        Rule::BeginEnd { .. } => &[],
        Rule::BeginWhile { .. } => &[],
        Rule::Only { .. } => &[],
    }
}

/// Those of its while.
fn captures_at_while(rule: &Rule) -> &[Capture]
    ensures { result.now ≡ captures_at_while (Some rule.now) }
{
    match rule {
        Rule::BeginWhile { while_captures, .. } => while_captures.as_slice(),
        Rule::Match { .. } => &[],
        Rule::BeginEnd { .. } => &[],
        Rule::Only { .. } => &[],
    }
}

/// The name of a group, whose words are found once where no match changes them.
fn group_name(alloc: Global, template: &Name) -> Result<GroupName, OutOfMemory>
    ensures { IfOk result (λ name. name ≡ group_name template.now) }
{
    if has_name_references(template) {
        Ok(GroupName::Filled(template.copy()?))
    } else {
        Ok(GroupName::Fixed(words(alloc, template)?))
    }
}

/// The same where there is a name.
fn group_name_if(alloc: Global, template: &Option<Name>) -> Result<Option<GroupName>, OutOfMemory>
    ensures { IfOk result (λ name. name ≡ option_map group_name template.now) }
{
    match template {
        Some(template) => Ok(Some(group_name(alloc, template)?)),
        None => Ok(None),
    }
}

/// What a capture says of its group.
fn group_rule(alloc: Global, capture: &Capture) -> Result<GroupRule, OutOfMemory>
    ensures { IfOk result (λ rule. rule ≡ group_rule capture.now) }
{
    Ok(GroupRule {
        group: capture.group,
        name: group_name_if(alloc, &capture.name)?,
        content_name: group_name_if(alloc, &capture.content_name)?,
        rule: capture.rule,
    })
}

/// What captures say of their groups, in their order.
fn group_rules(alloc: Global, captures: &[Capture]) -> Result<Vec<GroupRule>, OutOfMemory>
    ensures { IfOk result (λ rules. rules.items ≡ map group_rule captures.now) }
{
    let mut rules = Vec::new(alloc);
    for capture in captures {
        rules.push(group_rule(alloc, capture)?)?;
    }
    Ok(rules)
}

impl Groups {
    /// What a rule says.
    pub fn of(alloc: Global, rule: &Rule) -> Result<Self, OutOfMemory>
        ensures { IfOk result (AreGroups (Some rule.now)) }
    {
        Ok(Groups {
            at_begin: group_rules(alloc, captures_at_begin(rule))?,
            at_end: group_rules(alloc, captures_at_end(rule))?,
            at_match: group_rules(alloc, captures_at_match(rule))?,
            at_while: group_rules(alloc, captures_at_while(rule))?,
        })
    }

    /// What is said of the groups of one of its patterns.
    pub fn at(&self, whose: Whose) -> &[GroupRule]
        ensures { (rule : Option Rule) → AreGroups rule self.now → result.now ≡ groups_of whose rule }
    {
        match whose {
            Whose::AtBegin => self.at_begin.as_slice(),
            Whose::AtEnd => self.at_end.as_slice(),
            Whose::AtMatch => self.at_match.as_slice(),
            Whose::AtWhile => self.at_while.as_slice(),
        }
    }
}
