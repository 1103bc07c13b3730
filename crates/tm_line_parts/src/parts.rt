//! What is painted and pushed, as parts of a line.
ghost use Rattle.std.specs.Prelude.{◌≡◌, ◌<◌, ◌++◌, ℕ, List, length, option_map, IfOk, slice_get, Some};
ghost use Rattle.tm_defs.specs.Tables.{IsOptionalText, path_at, text_at};
ghost use Rattle.tm_line_turns.specs.Captures.{pushed};
ghost use Rattle.tm_line_turns.specs.Laws.{IsMatchWithin};
ghost use Rattle.tm_line_turns.specs.LineRun.{end_made, makes, names_made, paint};
ghost use Rattle.tm_line_parts.specs.declared.rules.Out.{Out};
ghost use Rattle.tm_line_parts.specs.Adds.{Adds};
ghost use Rattle.tm_line_parts.specs.Did.{Gives};

use crate::rules::{Level, LineRules, Out};
use crate::tables::named_list;
use tm_defs::frames::{ScopeList, TextId};
use tm_defs::tables::{States, TableFault};
use tm_defs::texts::{Name, ScopePath};
use tm_defs::tokenizer::LineFault;
use tm_line_turns::captures::GroupName;
use tm_line_turns::found::Match;
use tm_line_turns::painter::Painted;

/// A scope list is painted up to an end.
pub fn paint<S: States, R: LineRules>(
    level: &Level<R>,
    table: &S,
    out: &mut Out,
    list: ScopeList,
    end: usize,
) -> Result<(), LineFault>
    requires { list.0 < length (S.tables table.now).paths }
    ensures { let t = S.tables table.now in
        Adds (R.language level.now.rules.now).meta (paint end (path_at t list)) t t out.old out.new result }
{
    let meta = level.rules.meta(table, list);
    let Ok(()) = out.pieces.push(Painted { end, meta }) else {
        return Err(LineFault::OutOfMemory);
    };
    Ok(())
}

/// Names are pushed onto a scope list.
pub fn push_all<S: States>(
    table: &mut S,
    list: ScopeList,
    names: &ScopePath,
) -> Result<ScopeList, LineFault>
    requires { list.0 < length (S.tables table.old).paths }
    ensures ok { IfOk result (λ id. slice_get (S.tables table.new).paths id.0 ≡
        Some (path_at (S.tables table.old) list ++ names.now)) }
    ensures adds { (meta : List (List ℕ) → ℕ) (o : Out) →
        Adds meta (makes (names_made (path_at (S.tables table.old) list) names.now)) (S.tables table.old) (S.tables table.new) o o result }
{
    match named_list(table, list, names) {
        Ok(id) => Ok(id),
        Err(TableFault::TableFull(count)) => Err(LineFault::TableFull(count)),
        Err(TableFault::OutOfMemory) => Err(LineFault::OutOfMemory),
    }
}

/// The names of a rule that is found are pushed onto a scope list.
pub fn push_names<S: States, R: LineRules>(
    level: &Level<R>,
    table: &mut S,
    list: ScopeList,
    rule: u32,
    m: &Match,
) -> Result<ScopeList, LineFault>
    requires list { list.0 < length (S.tables table.old).paths }
    requires within { IsMatchWithin (length level.now.text.now) m.now }
    ensures ok { let names = (R.language level.now.rules.now).names level.now.text.now rule m.now in
        IfOk result (λ id. slice_get (S.tables table.new).paths id.0 ≡ Some (path_at (S.tables table.old) list ++ names)) }
    ensures adds { let names = (R.language level.now.rules.now).names level.now.text.now rule m.now in
        (o : Out) → Adds (R.language level.now.rules.now).meta (makes (names_made (path_at (S.tables table.old) list) names)) (S.tables table.old) (S.tables table.new) o o result }
{
    if let Some(names) = level.rules.fixed_names(rule) {
        return push_all(table, list, names);
    }
    let Ok(names) = level.rules.names(level.text, rule, m) else {
        return Err(LineFault::OutOfMemory);
    };
    push_all(table, list, &names)
}

/// And those for what is inside it alone.
pub fn push_content_names<S: States, R: LineRules>(
    level: &Level<R>,
    table: &mut S,
    list: ScopeList,
    rule: u32,
    m: &Match,
) -> Result<ScopeList, LineFault>
    requires list { list.0 < length (S.tables table.old).paths }
    requires within { IsMatchWithin (length level.now.text.now) m.now }
    ensures ok { let names = (R.language level.now.rules.now).content_names level.now.text.now rule m.now in
        IfOk result (λ id. slice_get (S.tables table.new).paths id.0 ≡ Some (path_at (S.tables table.old) list ++ names)) }
    ensures adds { let names = (R.language level.now.rules.now).content_names level.now.text.now rule m.now in
        (o : Out) → Adds (R.language level.now.rules.now).meta (makes (names_made (path_at (S.tables table.old) list) names)) (S.tables table.old) (S.tables table.new) o o result }
{
    if let Some(names) = level.rules.fixed_content_names(rule) {
        return push_all(table, list, names);
    }
    let Ok(names) = level.rules.content_names(level.text, rule, m) else {
        return Err(LineFault::OutOfMemory);
    };
    push_all(table, list, &names)
}

/// The number of a text that ends a rule, if it has one of its own.
fn end_number<S: States>(table: &mut S, end: &Option<Name>) -> Result<Option<TextId>, LineFault>
    ensures known { IfOk result (λ id. IsOptionalText (S.tables table.new) id) }
    ensures ok { IfOk result (λ id. option_map (text_at (S.tables table.new)) id ≡ end.now) }
    ensures adds { (meta : List (List ℕ) → ℕ) (o : Out) →
        Adds meta (makes (end_made end.now)) (S.tables table.old) (S.tables table.new) o o result }
{
    match end {
        Some(text) => match table.text(text) {
            Ok(id) => Ok(Some(id)),
            Err(TableFault::TableFull(count)) => Err(LineFault::TableFull(count)),
            Err(TableFault::OutOfMemory) => Err(LineFault::OutOfMemory),
        },
        None => Ok(None),
    }
}

/// The text that ends a rule whose begin this match is, if it has one of its own, by number.
pub fn push_end<S: States, R: LineRules>(
    level: &Level<R>,
    table: &mut S,
    rule: u32,
    m: &Match,
) -> Result<Option<TextId>, LineFault>
    requires within { IsMatchWithin (length level.now.text.now) m.now }
    ensures known { IfOk result (λ id. IsOptionalText (S.tables table.new) id) }
    ensures ok { let end = (R.language level.now.rules.now).end_text level.now.text.now rule m.now in
        IfOk result (λ id. option_map (text_at (S.tables table.new)) id ≡ end) }
    ensures adds { let end = (R.language level.now.rules.now).end_text level.now.text.now rule m.now in
        (o : Out) → Adds (R.language level.now.rules.now).meta (makes (end_made end)) (S.tables table.old) (S.tables table.new) o o result }
{
    let Ok(end) = level.rules.end_text(level.text, rule, m) else {
        return Err(LineFault::OutOfMemory);
    };
    end_number(table, &end)
}

/// The names of a group are pushed onto a scope list.
pub fn push_group<S: States, R: LineRules>(
    level: &Level<R>,
    table: &mut S,
    list: ScopeList,
    name: &GroupName,
    m: &Match,
) -> Result<ScopeList, LineFault>
    requires list { list.0 < length (S.tables table.old).paths }
    requires within { IsMatchWithin (length level.now.text.now) m.now }
    ensures ok { let names = pushed ((R.language level.now.rules.now).filled level.now.text.now m.now) (Some name.now) in
        IfOk result (λ id. slice_get (S.tables table.new).paths id.0 ≡ Some (path_at (S.tables table.old) list ++ names)) }
    ensures adds { let names = pushed ((R.language level.now.rules.now).filled level.now.text.now m.now) (Some name.now) in
        (meta : List (List ℕ) → ℕ) (o : Out) → Adds meta (makes (names_made (path_at (S.tables table.old) list) names)) (S.tables table.old) (S.tables table.new) o o result }
{
    match name {
        GroupName::Fixed(names) => push_all(table, list, names),
        GroupName::Filled(template) => {
            let Ok(names) = level.rules.filled(level.text, m, template) else {
                return Err(LineFault::OutOfMemory);
            };
            push_all(table, list, &names)
        }
    }
}

/// The names of a group, if it has any, are pushed onto a scope list.
pub fn push_optional<S: States, R: LineRules>(
    level: &Level<R>,
    table: &mut S,
    list: ScopeList,
    name: &Option<GroupName>,
    m: &Match,
) -> Result<ScopeList, LineFault>
    requires list { list.0 < length (S.tables table.old).paths }
    requires within { IsMatchWithin (length level.now.text.now) m.now }
    ensures ok { let names = pushed ((R.language level.now.rules.now).filled level.now.text.now m.now) name.now in
        IfOk result (λ id. slice_get (S.tables table.new).paths id.0 ≡ Some (path_at (S.tables table.old) list ++ names)) }
    ensures adds { let names = pushed ((R.language level.now.rules.now).filled level.now.text.now m.now) name.now in
        (meta : List (List ℕ) → ℕ) (o : Out) → Adds meta (makes (names_made (path_at (S.tables table.old) list) names)) (S.tables table.old) (S.tables table.new) o o result }
{
    match name {
        Some(name) => push_group(level, table, list, name, m),
        None => Ok(list),
    }
}

/// What a rule that has begun gives to its frame: the scopes of what is inside it, and the text that ends it, if
/// it has one of its own.
pub fn inside_of<S: States, R: LineRules>(
    level: &Level<R>,
    table: &mut S,
    scopes: ScopeList,
    rule: u32,
    m: &Match,
) -> Result<(ScopeList, Option<TextId>), LineFault>
    requires scopes { scopes.0 < length (S.tables table.old).paths }
    requires within { IsMatchWithin (length level.now.text.now) m.now }
    ensures { let l = R.language level.now.rules.now in
        let text = level.now.text.now in
        (o : Out) → Gives l.meta (path_at (S.tables table.old) scopes) (l.content_names text rule m.now) (l.end_text text rule m.now) (S.tables table.old) (S.tables table.new) o result }
{
    let contents = match push_content_names(level, table, scopes, rule, m) {
        Ok(contents) => contents,
        Err(fault) => return Err(fault),
    };
    match push_end(level, table, rule, m) {
        Ok(end) => Ok((contents, end)),
        Err(fault) => Err(fault),
    }
}
