//! The frames of a line over the state of the lines before.
//!
//! The frames that this line opened lie in a vector, each with the position and the anchor of then. Below
//! them is a state of the table, which holds what earlier lines opened. Its innermost frame is taken from it
//! where the line needs it as the innermost one.
ghost use Rattle.std.specs.Prelude.{◌≡◌, ◌<◌, ◌∷◌, ◌&&◌, not, nat_lt, max, length, false, None, IfOk, OnOk, IsTrue};
ghost use Rattle.tm_defs.specs.Tables.{Tables, IsFrameOf, path_at};
ghost use Rattle.tm_line_turns.specs.LineRun.{anchor_of, framed, has, is_anchored, is_at, most_open, near, opened, some_open};
ghost use Rattle.tm_line_parts.specs.Stacks.{IsStack, below_at, open_at, opens, stack_at};

use tm_defs::frames::{Frame, ScopeList, StateId};
use tm_defs::memory::OutOfMemory;
use tm_defs::tables::States;
use tm_line_turns::found::Entry;

/// An open rule, and where this line opened it, if it did.
#[derive(Clone, Copy, Debug, PartialEq, Eq)]
pub struct OpenFrame {
    pub frame: Frame,
    pub entry: Option<Entry>,
}

/// The open rules: the innermost, those of this line around it, the innermost last, and the state below, which
/// has so many frames.
#[derive(Drop)]
pub struct Stack {
    pub top: OpenFrame,
    pub below: Vec<OpenFrame>,
    pub base: StateId,
    pub deep: usize,
}

/// Where a line stands.
#[derive(Drop)]
pub struct Way {
    pub stack: Stack,
    pub at: usize,
    pub anchor: Option<usize>,
    pub first: bool,
}

/// How many rules may be open.
const MOST_OPEN: usize = 512;

/// Whether a rule is open around the innermost.
pub fn has_below<S: States>(table: &S, stack: &Stack) -> bool
    requires { IsStack (S.tables table.now) stack.now }
    ensures { result ≡ some_open (below_at (S.tables table.now) stack.now) }
{
    table.prove_known();
    if stack.below.len() > 0 {
        return true;
    }
    stack.base.0 != 0
}

/// Leaves the innermost rule.
pub fn leave<S: States>(table: &S, stack: &mut Stack)
    requires stack { IsStack (S.tables table.now) stack.old }
    requires some { IsTrue (some_open (below_at (S.tables table.now) stack.old)) }
    ensures stack { IsStack (S.tables table.now) stack.new }
    ensures is { stack_at (S.tables table.now) stack.new ≡ below_at (S.tables table.now) stack.old }
{
    match stack.below.pop() {
        Some(next) => stack.top = next,
        None => {
            let Some((frame, base)) = table.top(stack.base) else {
                unreachable!();
            };
            stack.top = OpenFrame { frame, entry: None };
            stack.base = base;
            stack.deep -= 1;
        }
    }
}

/// Opens a rule.
pub fn open(stack: &mut Stack, new: OpenFrame) -> Result<(), OutOfMemory>
    ensures top { OnOk result (stack.new.top ≡ new) }
    ensures stack { (t : Tables) → IsStack t stack.old → IsFrameOf t new.frame →
        OnOk result (IsStack t stack.new × (stack_at t stack.new ≡ open_at t new ∷ stack_at t stack.old)) }
{
    stack.below.push(stack.top)?;
    stack.top = new;
    Ok(())
}

/// An equal stack.
fn copy(stack: &Stack) -> Result<Stack, OutOfMemory>
    ensures { (t : Tables) → IsStack t stack.now → IfOk result (λ copy. IsStack t copy × (stack_at t copy ≡ stack_at t stack.now)) }
{
    Ok(Stack {
        top: stack.top,
        below: stack.below.clone()?,
        base: stack.base,
        deep: stack.deep,
    })
}

/// A stack as this one, with the rule of a group on it, which starts here.
pub fn inside(
    stack: &Stack,
    rule: u32,
    names: ScopeList,
    contents: ScopeList,
    start: usize,
) -> Result<Stack, OutOfMemory>
    ensures { (t : Tables) → IsStack t stack.now → names.0 < length t.paths → contents.0 < length t.paths →
        IfOk result (λ inner. IsStack t inner × (stack_at t inner ≡ opened (framed rule None (path_at t names) (path_at t contents) false) start None ∷ stack_at t stack.now)) }
{
    let mut inner = copy(stack)?;
    let frame = Frame {
        rule,
        end: None,
        names,
        contents,
        at_eol: false,
    };
    let entry = Entry {
        at: start,
        anchor: None,
    };
    open(
        &mut inner,
        OpenFrame {
            frame,
            entry: Some(entry),
        },
    )?;
    Ok(inner)
}

/// Whether as many rules are open as may be.
pub fn is_full(stack: &Stack) -> bool
    ensures { (t : Tables) → IsStack t stack.now → result ≡ not (nat_lt (length (stack_at t stack.now)) most_open) }
{
    if stack.deep >= MOST_OPEN {
        return true;
    }
    stack.below.len() >= MOST_OPEN - 1 - stack.deep
}

/// Whether a rule was opened at a position.
pub fn is_at(entry: Option<Entry>, at: usize) -> bool
    ensures { result ≡ is_at entry at }
{
    match entry {
        Some(entry) => entry.at == at,
        None => false,
    }
}

/// The anchor with which a rule was opened.
pub fn anchor_of(entry: Option<Entry>) -> Option<usize>
    ensures { result ≡ anchor_of entry }
{
    match entry {
        Some(entry) => entry.anchor,
        None => None,
    }
}

/// Whether a rule that was opened here, with no other above, has the number.
fn are_near(frames: &[OpenFrame], at: usize, rule: u32) -> bool
    ensures { (t : Tables) → result ≡ has (near at (opens t frames.now)) rule }
{
    match frames {
        [] => false,
        [rest @ .., last] => {
            is_at(last.entry, at) && (last.frame.rule == rule || are_near(rest, at, rule))
        }
    }
}

/// The same, where the innermost rule is one of them.
fn is_near(stack: &Stack, at: usize, rule: u32) -> bool
    ensures { (t : Tables) → result ≡ has (near at (stack_at t stack.now)) rule }
{
    is_at(stack.top.entry, at)
        && (stack.top.frame.rule == rule || are_near(stack.below.as_slice(), at, rule))
}

/// Whether the position is the anchor.
pub fn is_anchored(way: &Way) -> bool
    ensures { result ≡ is_anchored way.now.anchor way.now.at }
{
    match way.anchor {
        Some(anchor) => anchor == way.at,
        None => false,
    }
}

/// Whether the end of the innermost rule would come again without end.
pub fn is_stuck_end(way: &Way, end: usize) -> bool
    ensures { result ≡ (not (nat_lt way.now.at end) && is_at way.now.stack.top.entry way.now.at) }
{
    way.at >= end && is_at(way.stack.top.entry, way.at)
}

/// Whether the begin of a rule would come again without end.
pub fn is_stuck_begin(way: &Way, rule: u32, end: usize) -> bool
    ensures { (t : Tables) → result ≡ (not (nat_lt way.now.at end) && has (near way.now.at (stack_at t way.now.stack)) rule) }
{
    way.at >= end && is_near(&way.stack, way.at, rule)
}

/// Goes on behind a match that ends here: never back.
pub fn advance(way: &mut Way, end: usize)
    ensures stack { way.new.stack ≡ way.old.stack }
    ensures at { way.new.at ≡ max way.old.at end }
    ensures anchor { way.new.anchor ≡ way.old.anchor }
    ensures first { way.new.first ≡ (way.old.first && not (nat_lt way.old.at end)) }
{
    if end > way.at {
        way.at = end;
        way.first = false;
    }
}
