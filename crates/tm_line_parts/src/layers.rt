//! The scopes over the groups of a match: a local stack of layers, each with its end.
//!
//! Groups lie within one another or side by side. A group with names is a layer from its start to its end. Where
//! the next group starts the layers that end by there are painted and left (`close`), the innermost first; behind
//! the last group all are (`finish`).
ghost use Rattle.std.specs.Prelude.{◌≡◌, ℕ, ◌<◌, ◌≤◌, ◌++◌, ◌∷◌, [], List, length, nat_le, take, IfOk};
ghost use Rattle.std.specs.Option.{MatchOption};
ghost use Rattle.tm_defs.specs.Tables.{path_at};
ghost use Rattle.tm_line_turns.specs.Captures.{closed, every_layer, innermost, kept, named};
ghost use Rattle.tm_line_turns.specs.Laws.{IsMatchWithin};
ghost use Rattle.tm_line_turns.specs.LineRun.{joined, paint};
ghost use Rattle.tm_line_parts.specs.declared.rules.Out.{Out};
ghost use Rattle.tm_line_parts.specs.Adds.{Adds};
ghost use Rattle.tm_line_parts.specs.Layers.{AreLayers, Takes, layers_at};

use crate::parts::{paint, push_group};
use crate::rules::{Level, LineRules, Out};
use tm_defs::frames::ScopeList;
use tm_defs::tables::States;
use tm_defs::tokenizer::LineFault;
use tm_line_turns::captures::GroupName;
use tm_line_turns::found::Match;

/// Scopes that hold up to an end, in characters.
#[derive(Clone, Copy, Debug, PartialEq, Eq)]
pub struct Layer {
    pub scopes: ScopeList,
    pub end: usize,
}

/// The scopes of the innermost layer, or those below all layers.
pub fn innermost<S: States>(table: &S, base: ScopeList, layers: &[Layer]) -> ScopeList
    requires base { base.0 < length (S.tables table.now).paths }
    requires layers { AreLayers (S.tables table.now) layers.now }
    ensures known { result.0 < length (S.tables table.now).paths }
    ensures is { path_at (S.tables table.now) result ≡ innermost (path_at (S.tables table.now) base) (layers_at (S.tables table.now) layers.now) }
{
    match layers {
        [.., last] => last.scopes,
        [] => base,
    }
}

/// The innermost layer, and the others.
fn last_of(layers: &[Layer]) -> Option<(&Layer, &[Layer])>
    ensures { MatchOption result (layers.now ≡ []) (λ p. layers.now ≡ p.1.now ++ p.0.now ∷ []) }
{
    match layers {
        [rest @ .., last] => Some((last, rest)),
        [] => None,
    }
}

/// Whether a layer ends by a position.
fn ends_by(layer: &Layer, at: usize) -> bool
    ensures { result ≡ nat_le layer.now.end at }
{
    layer.end <= at
}

/// The layers that end by a position are painted, up to the first that ends later; so many are left.
pub fn close<S: States, R: LineRules>(
    level: &Level<R>,
    table: &S,
    out: &mut Out,
    layers: &[Layer],
    at: usize,
) -> Result<usize, LineFault>
    requires { AreLayers (S.tables table.now) layers.now }
    ensures adds { let t = S.tables table.now in
        Adds (R.language level.now.rules.now).meta (closed at (layers_at t layers.now)) t t out.old out.new result }
    ensures keeps { let t = S.tables table.now in
        IfOk result (λ n. (n ≤ length layers.now) × (layers_at t (take n layers.now) ≡ kept at (layers_at t layers.now))) }
{
    let Some((last, rest)) = last_of(layers) else {
        return Ok(0);
    };
    if !ends_by(last, at) {
        return Ok(layers.len());
    }
    if let Err(fault) = paint(level, table, out, last.scopes, last.end) {
        return Err(fault);
    }
    close(level, table, out, rest, at)
}

/// All layers are painted, and then the scopes below them up to the match's end.
pub fn finish<S: States, R: LineRules>(
    level: &Level<R>,
    table: &S,
    out: &mut Out,
    layers: &[Layer],
    base: ScopeList,
    end: usize,
) -> Result<(), LineFault>
    requires base { base.0 < length (S.tables table.now).paths }
    requires layers { AreLayers (S.tables table.now) layers.now }
    ensures { let t = S.tables table.now in
        Adds (R.language level.now.rules.now).meta (joined (every_layer (layers_at t layers.now)) (paint end (path_at t base))) t t out.old out.new result }
{
    let Some((last, rest)) = last_of(layers) else {
        return paint(level, table, out, base, end);
    };
    if let Err(fault) = paint(level, table, out, last.scopes, last.end) {
        return Err(fault);
    }
    finish(level, table, out, rest, base, end)
}

/// A group with names is a layer more, up to its end.
pub fn name<S: States, R: LineRules>(
    level: &Level<R>,
    table: &mut S,
    base: ScopeList,
    layers: &mut Vec<Layer>,
    name: &Option<GroupName>,
    m: &Match,
    end: usize,
) -> Result<(), LineFault>
    requires base { base.0 < length (S.tables table.old).paths }
    requires layers { AreLayers (S.tables table.old) layers.old.items }
    requires within { IsMatchWithin (length level.now.text.now) m.now }
    ensures { let t = S.tables table.old in
        let filled = (R.language level.now.rules.now).filled level.now.text.now m.now in
        (meta : List (List ℕ) → ℕ) (o : Out) → Takes meta (named filled (path_at t base) end (layers_at t layers.old.items) name.now) t (S.tables table.new) o o layers.new.items result }
{
    let Some(name) = name else {
        return Ok(());
    };
    let outer = innermost(table, base, layers.as_slice());
    match push_group(level, table, outer, name, m) {
        Ok(scopes) => {
            let Ok(()) = layers.push(Layer { scopes, end }) else {
                return Err(LineFault::OutOfMemory);
            };
            Ok(())
        }
        Err(fault) => Err(fault),
    }
}
