//! Where a line stops.
ghost use Rattle.std.specs.Prelude.{◌≡◌, ◌<◌, length, IfOk};
ghost use Rattle.tm_defs.specs.Tables.{path_at};
ghost use Rattle.tm_line_turns.specs.LineRun.{paint, popped, popped_contents, rests};
ghost use Rattle.tm_line_parts.specs.Adds.{Adds};
ghost use Rattle.tm_line_parts.specs.Did.{Does};
ghost use Rattle.tm_line_parts.specs.declared.stops.Next.TheVariants as next;
ghost use Rattle.tm_line_parts.specs.Stacks.{IsStack, below_at, open_at, place_at, stack_at};

use crate::parts::paint;
use crate::rules::{Level, LineRules, Out};
use crate::stack::{Way, has_below, leave};
use tm_defs::frames::ScopeList;
use tm_defs::tables::States;
use tm_defs::tokenizer::LineFault;

/// What follows a turn.
#[derive(Clone, Copy, Debug, PartialEq, Eq)]
pub enum Next {
    Stops,
    GoesOn,
}

/// The rest of the text is painted, and the line stops.
pub fn stops<S: States, R: LineRules>(
    level: &Level<R>,
    table: &S,
    out: &mut Out,
    list: ScopeList,
) -> Result<Next, LineFault>
    requires { list.0 < length (S.tables table.now).paths }
    ensures adds { let t = S.tables table.now in
        Adds (R.language level.now.rules.now).meta (paint (length level.now.text.now) (path_at t list)) t t out.old out.new result }
    ensures stops { IfOk result (λ n. n ≡ next.Stops) }
{
    match paint(level, table, out, list, level.text.len()) {
        Ok(()) => Ok(Next::Stops),
        Err(fault) => Err(fault),
    }
}

/// Nothing is found.
pub fn rests<S: States, R: LineRules>(
    level: &Level<R>,
    table: &S,
    out: &mut Out,
    way: &Way,
) -> Result<Next, LineFault>
    requires stack { IsStack (S.tables table.now) way.now.stack }
    ensures { let t = S.tables table.now in
        Does (R.language level.now.rules.now).meta (rests (length level.now.text.now) (place_at t way.now)) t t out.old out.new way.now result }
{
    stops(level, table, out, way.stack.top.frame.contents)
}

/// A match that is stuck: the line stops without the innermost rule, if there is one around it.
pub fn stops_popped<S: States, R: LineRules>(
    level: &Level<R>,
    table: &S,
    out: &mut Out,
    way: &mut Way,
) -> Result<Next, LineFault>
    requires { IsStack (S.tables table.now) way.old.stack }
    ensures adds { let t = S.tables table.now in
        let top = open_at t way.old.stack.top in
        Adds (R.language level.now.rules.now).meta (paint (length level.now.text.now) (popped_contents top (below_at t way.old.stack))) t t out.old out.new result }
    ensures stops { IfOk result (λ n. n ≡ next.Stops) }
    ensures stack { IsStack (S.tables table.now) way.new.stack }
    ensures is { let t = S.tables table.now in
        stack_at t way.new.stack ≡ popped (open_at t way.old.stack.top) (below_at t way.old.stack) }
{
    if !has_below(table, &way.stack) {
        return stops(level, table, out, way.stack.top.frame.contents);
    }
    leave(table, &mut way.stack);
    stops(level, table, out, way.stack.top.frame.contents)
}
