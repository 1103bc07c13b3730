//! The turns of a line, and the groups that are tokenized again within them.
//!
//! A turn asks the rules what is found first (`turn`), and does one of the four cases of the line relation:
//! nothing is found, the innermost rule ends, a rule begins, a rule matches. Each covers its match in the same way
//! (`covers`): the groups of it are walked one by one (`take`), and have names or are tokenized again (`apply`), which
//! runs these turns on the text up to the group's end, one level deeper (`tokenize`). So these functions are a cycle,
//! which ends since the depth falls.
ghost use Rattle.std.specs.Prelude.{◌≡◌, ◌≤◌, ◌<◌, ◌-◌, ◌^◌, length, IfOk};
ghost use Rattle.tm_defs.specs.Tables.{path_at};
ghost use Rattle.tm_line_turns.specs.Captures.{again, applied, group_of, stepped, tokenized};
ghost use Rattle.tm_line_turns.specs.Language.{grammar_at, inner_at};
ghost use Rattle.tm_line_turns.specs.Laws.{IsMatchWithin, IsWinnerWithin};
ghost use Rattle.tm_line_turns.specs.LineRun.{begun, by_winner, covered, ended, entered, line_run, matched, turn as turn_at};
ghost use Rattle.tm_line_parts.specs.Adds.{Adds};
ghost use Rattle.tm_line_parts.specs.Did.{Does, Ran};
ghost use Rattle.tm_line_parts.specs.Layers.{AreLayers, Steps, Takes, layers_at};
ghost use Rattle.tm_line_parts.specs.Stacks.{IsStack, place_at, stack_at};

use crate::groups::{Cover, Over, Span, inner_way, span_of};
use crate::layers::{Layer, close, finish, innermost, name};
use crate::parts::{inside_of, paint, push_names};
use crate::rules::{Level, LineRules, Out, Question};
use crate::stack::{
    OpenFrame, Stack, Way, advance, anchor_of, has_below, is_anchored, is_full, is_stuck_begin,
    is_stuck_end, leave, open,
};
use crate::stops::{Next, rests, stops, stops_popped};
use tm_defs::frames::Frame;
use tm_defs::tables::States;
use tm_defs::tokenizer::LineFault;
use tm_line_turns::captures::GroupRule;
use tm_line_turns::found::{Entry, Match, Whose, Winner};

/// A text from a way on, turn by turn until it stops.
#[cycle(turns)]
pub fn run<S: States, R: LineRules>(
    level: &Level<R>,
    room: &mut R::Room,
    table: &mut S,
    out: &mut Out,
    way: &mut Way,
) -> Result<(), LineFault>
    requires stack { IsStack (S.tables table.old) way.old.stack }
    requires within { way.old.at ≤ length level.now.text.now }
    requires small { length level.now.text.now < 2 ^ 31 }
    requires room { R.Fits level.now.rules.now (S.tables table.old) level.now.text.now room.old }
    ensures ran { let l = R.language level.now.rules.now in
        Ran l.meta (line_run (grammar_at l level.now.depth level.now.text.now) (place_at (S.tables table.old) way.old))
        (S.tables table.old) (S.tables table.new) out.old out.new way.new result }
    ensures room { R.Fits level.now.rules.now (S.tables table.new) level.now.text.now room.new }
{
    loop {
        match turn(level, room, table, out, way) {
            Ok(Next::GoesOn) => {}
            Ok(Next::Stops) => return Ok(()),
            Err(fault) => return Err(fault),
        }
    }
}

/// One turn.
#[cycle(turns)]
fn turn<S: States, R: LineRules>(
    level: &Level<R>,
    room: &mut R::Room,
    table: &mut S,
    out: &mut Out,
    way: &mut Way,
) -> Result<Next, LineFault>
    requires stack { IsStack (S.tables table.old) way.old.stack }
    requires within { way.old.at ≤ length level.now.text.now }
    requires small { length level.now.text.now < 2 ^ 31 }
    requires room { R.Fits level.now.rules.now (S.tables table.old) level.now.text.now room.old }
    ensures does { let l = R.language level.now.rules.now in
        Does l.meta (turn_at (grammar_at l level.now.depth level.now.text.now) (place_at (S.tables table.old) way.old))
        (S.tables table.old) (S.tables table.new) out.old out.new way.new result }
    ensures room { R.Fits level.now.rules.now (S.tables table.new) level.now.text.now room.new }
{
    let has_end = has_below(table, &way.stack);
    let anchored = is_anchored(way);
    let asked = Question {
        frame: way.stack.top.frame,
        has_end,
        at: way.at,
        first: way.first,
        anchored,
    };
    match level
        .rules
        .winner(room, table, level.text, asked, &mut out.budget)
    {
        Ok(winner) => takes(level, table, out, way, &winner),
        Err(fault) => Err(fault),
    }
}

/// What is found is done.
#[cycle(turns)]
fn takes<S: States, R: LineRules>(
    level: &Level<R>,
    table: &mut S,
    out: &mut Out,
    way: &mut Way,
    winner: &Winner,
) -> Result<Next, LineFault>
    requires stack { IsStack (S.tables table.old) way.old.stack }
    requires small { length level.now.text.now < 2 ^ 31 }
    requires within { let l = R.language level.now.rules.now in
        IsWinnerWithin l.rules (length level.now.text.now) winner.now }
    ensures { let l = R.language level.now.rules.now in
        Does l.meta (by_winner (grammar_at l level.now.depth level.now.text.now) (place_at (S.tables table.old) way.old) winner.now)
        (S.tables table.old) (S.tables table.new) out.old out.new way.new result }
{
    match winner {
        Winner::Nothing => rests(level, table, out, way),
        Winner::Ends(m) => ends(level, table, out, way, m),
        Winner::Begins(rule, m) => begins(level, table, out, way, *rule, m),
        Winner::Matches(rule, m) => matches(level, table, out, way, *rule, m),
    }
}

/// The innermost rule ends.
#[cycle(turns)]
fn ends<S: States, R: LineRules>(
    level: &Level<R>,
    table: &mut S,
    out: &mut Out,
    way: &mut Way,
    m: &Match,
) -> Result<Next, LineFault>
    requires stack { IsStack (S.tables table.old) way.old.stack }
    requires small { length level.now.text.now < 2 ^ 31 }
    requires within { IsMatchWithin (length level.now.text.now) m.now }
    ensures { let l = R.language level.now.rules.now in
        let p = place_at (S.tables table.old) way.old in
        Does l.meta (ended (grammar_at l level.now.depth level.now.text.now) p m.now p.below)
        (S.tables table.old) (S.tables table.new) out.old out.new way.new result }
{
    if !has_below(table, &way.stack) {
        return rests(level, table, out, way);
    }
    let frame = way.stack.top.frame;
    way.stack.top.frame.contents = frame.names;
    let cover = Cover {
        whose: Whose::AtEnd,
        rule: frame.rule,
        outer: frame.contents,
        inner: frame.names,
        first: way.first,
    };
    if let Err(fault) = covers(level, table, out, &way.stack, m, cover) {
        return Err(fault);
    }
    if is_stuck_end(way, m.end) {
        return stops(level, table, out, frame.names);
    }
    way.anchor = anchor_of(way.stack.top.entry);
    leave(table, &mut way.stack);
    advance(way, m.end);
    Ok(Next::GoesOn)
}

/// A rule begins.
#[cycle(turns)]
fn begins<S: States, R: LineRules>(
    level: &Level<R>,
    table: &mut S,
    out: &mut Out,
    way: &mut Way,
    rule: u32,
    m: &Match,
) -> Result<Next, LineFault>
    requires stack { IsStack (S.tables table.old) way.old.stack }
    requires small { length level.now.text.now < 2 ^ 31 }
    requires within { IsMatchWithin (length level.now.text.now) m.now }
    ensures { let l = R.language level.now.rules.now in
        let text = level.now.text.now in
        Does l.meta (begun (grammar_at l level.now.depth text) (place_at (S.tables table.old) way.old) rule m.now (l.end_text text rule m.now) (l.names text rule m.now) (l.content_names text rule m.now))
        (S.tables table.old) (S.tables table.new) out.old out.new way.new result }
{
    if is_full(&way.stack) {
        return rests(level, table, out, way);
    }
    enters(level, table, out, way, rule, m)
}

/// A rule begins where there is room for it. Its frame has no content names and no end of its own while the
/// begin is covered.
#[cycle(turns)]
fn enters<S: States, R: LineRules>(
    level: &Level<R>,
    table: &mut S,
    out: &mut Out,
    way: &mut Way,
    rule: u32,
    m: &Match,
) -> Result<Next, LineFault>
    requires stack { IsStack (S.tables table.old) way.old.stack }
    requires small { length level.now.text.now < 2 ^ 31 }
    requires within { IsMatchWithin (length level.now.text.now) m.now }
    ensures { let l = R.language level.now.rules.now in
        let text = level.now.text.now in
        Does l.meta (entered (grammar_at l level.now.depth text) (place_at (S.tables table.old) way.old) rule m.now (l.end_text text rule m.now) (l.names text rule m.now) (l.content_names text rule m.now))
        (S.tables table.old) (S.tables table.new) out.old out.new way.new result }
{
    let outer = way.stack.top.frame.contents;
    let scopes = match push_names(level, table, outer, rule, m) {
        Ok(scopes) => scopes,
        Err(fault) => return Err(fault),
    };
    let is_stuck = is_stuck_begin(way, rule, m.end);
    let Ok(()) = open(
        &mut way.stack,
        OpenFrame {
            frame: Frame {
                rule,
                end: None,
                names: scopes,
                contents: scopes,
                at_eol: m.end == level.text.len(),
            },
            entry: Some(Entry {
                at: way.at,
                anchor: way.anchor,
            }),
        },
    ) else {
        return Err(LineFault::OutOfMemory);
    };
    let cover = Cover {
        whose: Whose::AtBegin,
        rule,
        outer,
        inner: scopes,
        first: way.first,
    };
    if let Err(fault) = covers(level, table, out, &way.stack, m, cover) {
        return Err(fault);
    }
    if is_stuck {
        leave(table, &mut way.stack);
        return stops(level, table, out, outer);
    }
    let (contents, end) = match inside_of(level, table, scopes, rule, m) {
        Ok(inside) => inside,
        Err(fault) => return Err(fault),
    };
    way.stack.top.frame.contents = contents;
    way.stack.top.frame.end = end;
    way.anchor = Some(m.end);
    advance(way, m.end);
    Ok(Next::GoesOn)
}

/// A rule matches.
#[cycle(turns)]
fn matches<S: States, R: LineRules>(
    level: &Level<R>,
    table: &mut S,
    out: &mut Out,
    way: &mut Way,
    rule: u32,
    m: &Match,
) -> Result<Next, LineFault>
    requires stack { IsStack (S.tables table.old) way.old.stack }
    requires small { length level.now.text.now < 2 ^ 31 }
    requires within { IsMatchWithin (length level.now.text.now) m.now }
    ensures { let l = R.language level.now.rules.now in
        let text = level.now.text.now in
        Does l.meta (matched (grammar_at l level.now.depth text) (place_at (S.tables table.old) way.old) rule m.now (l.names text rule m.now))
        (S.tables table.old) (S.tables table.new) out.old out.new way.new result }
{
    let outer = way.stack.top.frame.contents;
    let scopes = match push_names(level, table, outer, rule, m) {
        Ok(scopes) => scopes,
        Err(fault) => return Err(fault),
    };
    let cover = Cover {
        whose: Whose::AtMatch,
        rule,
        outer,
        inner: scopes,
        first: way.first,
    };
    if let Err(fault) = covers(level, table, out, &way.stack, m, cover) {
        return Err(fault);
    }
    if m.end > way.at {
        advance(way, m.end);
        return Ok(Next::GoesOn);
    }
    stops_popped(level, table, out, way)
}

/// The scopes up to a match are painted, then its groups, and the scopes over it up to its end.
#[cycle(turns)]
pub fn covers<S: States, R: LineRules>(
    level: &Level<R>,
    table: &mut S,
    out: &mut Out,
    stack: &Stack,
    m: &Match,
    cover: Cover,
) -> Result<(), LineFault>
    requires stack { IsStack (S.tables table.old) stack.now }
    requires within { IsMatchWithin (length level.now.text.now) m.now }
    requires small { length level.now.text.now < 2 ^ 31 }
    requires outer { cover.outer.0 < length (S.tables table.old).paths }
    requires inner { cover.inner.0 < length (S.tables table.old).paths }
    ensures { let l = R.language level.now.rules.now in
        let t = S.tables table.old in
        Adds l.meta (covered (grammar_at l level.now.depth level.now.text.now) cover.whose cover.rule m.now (stack_at t stack.now) (path_at t cover.outer) (path_at t cover.inner) cover.first)
        t (S.tables table.new) out.old out.new result }
{
    if let Err(fault) = paint(level, table, out, cover.outer, m.start) {
        return Err(fault);
    }
    let mut layers = Vec::new(level.alloc);
    let over = Over { stack, m, cover };
    let groups = level.rules.captures(cover.whose, cover.rule);
    for group in groups {
        match take(level, table, out, &over, &mut layers, group) {
            Ok(true) => {}
            Ok(false) => {
                return finish(level, table, out, layers.as_slice(), cover.inner, m.end);
            }
            Err(fault) => return Err(fault),
        }
    }
    finish(level, table, out, layers.as_slice(), cover.inner, m.end)
}

/// A group: the answer is whether the walk goes on behind it.
#[cycle(turns)]
fn take<S: States, R: LineRules>(
    level: &Level<R>,
    table: &mut S,
    out: &mut Out,
    over: &Over,
    layers: &mut Vec<Layer>,
    group: &GroupRule,
) -> Result<bool, LineFault>
    requires stack { IsStack (S.tables table.old) over.now.stack.now }
    requires within { IsMatchWithin (length level.now.text.now) over.now.m.now }
    requires small { length level.now.text.now < 2 ^ 31 }
    requires inner { over.now.cover.inner.0 < length (S.tables table.old).paths }
    requires layers { AreLayers (S.tables table.old) layers.old.items }
    ensures { let l = R.language level.now.rules.now in
        let t = S.tables table.old in
        let text = level.now.text.now in
        let m = over.now.m.now in
        let ls = layers_at t layers.old.items in
        let inner = inner_at l level.now.depth text over.now.cover.first (stack_at t over.now.stack.now) in
        Steps l.meta ls (stepped (l.filled text m) (path_at t over.now.cover.inner) m inner ls group.now (group_of m.groups group.now.group))
        t (S.tables table.new) out.old out.new layers.new.items result }
{
    let Some((start, end)) = span_of(over.m, group.group) else {
        return Ok(true);
    };
    if start == end {
        return Ok(true);
    }
    if over.m.end < start {
        return Ok(false);
    }
    let kept = match close(level, table, out, layers.as_slice(), start) {
        Ok(kept) => kept,
        Err(fault) => return Err(fault),
    };
    layers.truncate(kept);
    let scopes = innermost(table, over.cover.inner, layers.as_slice());
    if let Err(fault) = paint(level, table, out, scopes, start) {
        return Err(fault);
    }
    match apply(level, table, out, over, layers, group, Span { start, end }) {
        Ok(()) => Ok(true),
        Err(fault) => Err(fault),
    }
}

/// A group with a rule is tokenized again where depth and open rules allow it, and else it has its names.
#[cycle(turns)]
fn apply<S: States, R: LineRules>(
    level: &Level<R>,
    table: &mut S,
    out: &mut Out,
    over: &Over,
    layers: &mut Vec<Layer>,
    group: &GroupRule,
    span: Span,
) -> Result<(), LineFault>
    requires stack { IsStack (S.tables table.old) over.now.stack.now }
    requires within { IsMatchWithin (length level.now.text.now) over.now.m.now }
    requires small { length level.now.text.now < 2 ^ 31 }
    requires inner { over.now.cover.inner.0 < length (S.tables table.old).paths }
    requires layers { AreLayers (S.tables table.old) layers.old.items }
    requires start { span.start ≤ span.end }
    requires end { span.end ≤ length level.now.text.now }
    ensures { let l = R.language level.now.rules.now in
        let t = S.tables table.old in
        let text = level.now.text.now in
        let m = over.now.m.now in
        let inner = inner_at l level.now.depth text over.now.cover.first (stack_at t over.now.stack.now) in
        Takes l.meta (applied (l.filled text m) (path_at t over.now.cover.inner) (layers_at t layers.old.items) group.now span.start span.end inner group.now.rule)
        t (S.tables table.new) out.old out.new layers.new.items result }
{
    if let Some(rule) = group.rule {
        if level.depth > 0 {
            if !is_full(over.stack) {
                return tokenize(level, table, out, over, group, rule, span);
            }
        }
    }
    name(
        level,
        table,
        over.cover.inner,
        layers,
        &group.name,
        over.m,
        span.end,
    )
}

/// The text of a group is tokenized by a rule: from its start on, in the text up to its end.
#[cycle(turns)]
fn tokenize<S: States, R: LineRules>(
    level: &Level<R>,
    table: &mut S,
    out: &mut Out,
    over: &Over,
    group: &GroupRule,
    rule: u32,
    span: Span,
) -> Result<(), LineFault>
    requires deep { 0 < level.now.depth }
    requires stack { IsStack (S.tables table.old) over.now.stack.now }
    requires within { IsMatchWithin (length level.now.text.now) over.now.m.now }
    requires small { length level.now.text.now < 2 ^ 31 }
    requires inner { over.now.cover.inner.0 < length (S.tables table.old).paths }
    requires start { span.start ≤ span.end }
    requires end { span.end ≤ length level.now.text.now }
    ensures { let l = R.language level.now.rules.now in
        let t = S.tables table.old in
        let text = level.now.text.now in
        let m = over.now.m.now in
        Adds l.meta (again (l.filled text m) (path_at t over.now.cover.inner) (tokenized (grammar_at l (level.now.depth - 1)) text over.now.cover.first (stack_at t over.now.stack.now)) rule group.now span.start span.end)
        t (S.tables table.new) out.old out.new result }
{
    let mut way = match inner_way(level, table, over, group, rule, span.start) {
        Ok(way) => way,
        Err(fault) => return Err(fault),
    };
    let inner = Level {
        alloc: level.alloc,
        rules: level.rules,
        text: &level.text[..span.end],
        depth: level.depth - 1,
    };
    let Ok(mut room) = level.rules.inner_room(inner.text) else {
        return Err(LineFault::OutOfMemory);
    };
    run(&inner, &mut room, table, out, &mut way)
}
