//! What a match is covered with, and where its groups lie.
ghost use Rattle.std.specs.Prelude.{◌≡◌, ◌<◌, ◌++◌, ◌&&◌, ◌==◌, length, IfOk};
ghost use Rattle.tm_defs.specs.Tables.{path_at};
ghost use Rattle.tm_line_turns.specs.Captures.{group_of, group_place, pushed};
ghost use Rattle.tm_line_turns.specs.Laws.{IsMatchWithin};
ghost use Rattle.tm_line_turns.specs.LineRun.{joined, makes, names_made};
ghost use Rattle.tm_line_parts.specs.declared.rules.Out.{Out};
ghost use Rattle.tm_line_parts.specs.Did.{Enters};
ghost use Rattle.tm_line_parts.specs.Stacks.{IsStack, stack_at};

use crate::parts::push_optional;
use crate::rules::{Level, LineRules};
use crate::stack::{Stack, Way, inside};
use tm_defs::frames::ScopeList;
use tm_defs::tables::States;
use tm_defs::tokenizer::LineFault;
use tm_line_turns::captures::GroupRule;
use tm_line_turns::found::{Match, Whose};

/// What a match is covered with: which pattern of which rule matched, the scopes up to the match and those over
/// it, and whether `\A` may match in its groups.
#[derive(Clone, Copy, Debug, PartialEq, Eq)]
pub struct Cover {
    pub whose: Whose,
    pub rule: u32,
    pub outer: ScopeList,
    pub inner: ScopeList,
    pub first: bool,
}

/// The open rules around the groups of a match, the match, and what it is covered with.
#[derive(Drop)]
pub struct Over<'a> {
    pub stack: &'a Stack,
    pub m: &'a Match,
    pub cover: Cover,
}

/// Start and end of a group, in characters.
#[derive(Clone, Copy, Debug, PartialEq, Eq)]
pub struct Span {
    pub start: usize,
    pub end: usize,
}

/// Start and end of a group, where it is set.
pub fn span_of(m: &Match, group: u32) -> Option<(usize, usize)>
    ensures { result ≡ group_of m.now.groups group }
{
    let Some(Some((start, end))) = m.groups.as_slice().get(group as usize) else {
        return None;
    };
    Some((*start as usize, *end as usize))
}

/// Whether `\A` may match in a group that starts here.
fn is_first(first: bool, start: usize) -> bool
    ensures { result ≡ (first && (start == 0)) }
{
    first && start == 0
}

/// The way into the text of a group: its rule is open there, with its names on the scopes over the match.
pub fn inner_way<S: States, R: LineRules>(
    level: &Level<R>,
    table: &mut S,
    over: &Over,
    group: &GroupRule,
    rule: u32,
    start: usize,
) -> Result<Way, LineFault>
    requires stack { IsStack (S.tables table.old) over.now.stack.now }
    requires within { IsMatchWithin (length level.now.text.now) over.now.m.now }
    requires inner { over.now.cover.inner.0 < length (S.tables table.old).paths }
    ensures at { IfOk result (λ way. way.at ≡ start) }
    ensures enters { let t = S.tables table.old in
        let l = R.language level.now.rules.now in
        let filled = l.filled level.now.text.now over.now.m.now in
        let base = path_at t over.now.cover.inner in
        let names = base ++ pushed filled group.now.name in
        let contents = names ++ pushed filled group.now.content_name in
        let made = joined (makes (names_made base (pushed filled group.now.name))) (makes (names_made names (pushed filled group.now.content_name))) in
        (o : Out) → Enters l.meta made (group_place over.now.cover.first (stack_at t over.now.stack.now) rule names contents start) t (S.tables table.new) o result }
{
    let names = match push_optional(level, table, over.cover.inner, &group.name, over.m) {
        Ok(names) => names,
        Err(fault) => return Err(fault),
    };
    let contents = match push_optional(level, table, names, &group.content_name, over.m) {
        Ok(contents) => contents,
        Err(fault) => return Err(fault),
    };
    let Ok(stack) = inside(over.stack, rule, names, contents, start) else {
        return Err(LineFault::OutOfMemory);
    };
    Ok(Way {
        stack,
        at: start,
        anchor: None,
        first: is_first(over.cover.first, start),
    })
}
