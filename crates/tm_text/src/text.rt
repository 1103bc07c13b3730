//! A text as shared lines.
ghost use Rattle.std.specs.Prelude.{◌≡◌, ◌+◌, ◌<◌, ◌≤◌, ◌^◌, IfOk, OnOk, IfErr, OnErr, Err, Some, ℕ, drop, length, map, slice_get, take};
ghost use Rattle.std.specs.Arc.{arc_value};
ghost use Rattle.std.specs.Str.{IsUtf8, chars};
ghost use Rattle.tm_machine.specs.Changes.{effect_of, lines_changed, lines_of, new_lines, spliced};
ghost use Rattle.tm_machine.specs.Places.{IsIn};
ghost use Rattle.tm_text.specs.declared.faults.TextFault.TheVariants.{NotUtf8, TextFull};
ghost use Rattle.tm_text.specs.Texts.{IsChangeFault, IsSmall, IsText, IsTextFault, characters_of, size_of_lines};

use crate::faults::TextFault;
use crate::places::fault_of_places;
use crate::split::{lines_of_change, split};
use std::alloc::Global;
use std::marker::Model;
use std::sync::Arc;
use tm_defs::changes::{Change, ChangeFault, LineEffect};
use tm_defs::memory::OutOfMemory;
use tm_defs::texts::Line;
use tm_splice::replace_range;

/// A text has at most this many characters, each line break counted as one. Numbers of lines and columns are then
/// far below 2^31.
pub const TEXT_LIMIT: u64 = 16_777_216;

/// A text as lines that it may share with other texts. It has one line at least, and no line has a line break in it.
///
/// Contracts see the lines, and the spare room for new ones: a change that was planned takes no memory.
#[derive(Drop)]
pub struct Text {
    lines: Vec<Arc<Line>>,
    size: u64,
}

impl Model for Text {
    ghost use Rattle.std.specs.Prelude.{◌≡◌, ◌-◌, map, vec_len, vec_capacity};
    ghost use Rattle.std.specs.Arc.{arc_value};
    ghost use Rattle.tm_text.specs.Texts.{TextLines, IsText, size_of_lines};

    ghost Value = { TextLines };

    ghost view = { λ a. record { lines = map arc_value a.lines.items; spare = vec_capacity a.lines - vec_len a.lines } };

    ghost invariant = { λ a. IsText (map arc_value a.lines.items) × (a.size ≡ size_of_lines (map arc_value a.lines.items)) };
}

/// A change whose new lines are made, so that nothing can refuse it any more.
#[derive(Drop)]
pub struct Plan {
    effect: LineEffect,
    lines: Vec<Arc<Line>>,
    size: u64,
}

impl Model for Plan {
    ghost use Rattle.std.specs.Prelude.{◌≡◌, ◌<◌, map, vec_len};
    ghost use Rattle.std.specs.Arc.{arc_value};
    ghost use Rattle.tm_machine.specs.Changes.{HaveNoBreak};
    ghost use Rattle.tm_text.specs.Texts.{Planned, size_of_lines};

    ghost Value = { Planned };

    ghost view = { λ a. record { effect = a.effect; lines = map arc_value a.lines.items } };

    ghost invariant = { λ a. HaveNoBreak (map arc_value a.lines.items) × (0 < vec_len a.lines) × (a.effect.new ≡ vec_len a.lines) × (a.size ≡ size_of_lines (map arc_value a.lines.items)) };
}

impl Plan {
    /// What the change will do to line numbers. It takes no memory.
    pub fn effect(&self) -> LineEffect
        ensures { result ≡ self.now.effect }
    {
        self.effect
    }
}

/// The characters of lines, and a line break behind each.
fn size_of(lines: &[Arc<Line>]) -> u64
    requires { size_of_lines (map arc_value lines.now) < 2 ^ 64 }
    ensures { result ≡ size_of_lines (map arc_value lines.now) }
{
    let mut size = 0;
    for line in lines {
        size += line.as_slice().len() as u64 + 1;
    }
    size
}

/// The size of a range of lines.
fn size_of_range(lines: &[Arc<Line>], first: usize, old: usize) -> u64
    requires range { first + old ≤ length lines.now }
    requires size { size_of_lines (map arc_value lines.now) < 2 ^ 64 }
    ensures value { result ≡ size_of_lines (take old (drop first (map arc_value lines.now))) }
    ensures part { result ≤ size_of_lines (map arc_value lines.now) }
{
    size_of(&lines[first..first + old])
}

/// The characters of a text in UTF-8.
fn characters_of_str(alloc: Global, text: &str) -> Result<Vec<char>, OutOfMemory>
    ensures { IfOk result (λ found. found.items ≡ chars text.now) }
{
    Ok(text.chars().collect(alloc)?)
}

/// The text of characters, split as `Text::from_bytes` splits it. `TextFull` comes exactly where there are more than a
/// text may have.
pub fn from_characters(alloc: Global, characters: &[char]) -> Result<Text, TextFault>
    ensures ok { IfOk result (λ t. (t.lines ≡ lines_of characters.now) × (characters_of t.lines ≤ 16777216)) }
    ensures fault { (n : ℕ) → result ≡ Err (TextFull n) → (n ≡ characters_of (lines_of characters.now)) × (16777216 < n) }
    ensures not_bytes { (n : ℕ) → result ≡ Err (NotUtf8 n) → ⊥ }
{
    let lines = split(alloc, characters)?;
    let size = size_of(lines.as_slice());
    if size > TEXT_LIMIT + 1 {
        return Err(TextFault::TextFull(size - 1));
    }
    Ok(Text { lines, size })
}

impl Text {
    /// The text of bytes in UTF-8: `\r\n`, `\n` and `\r` each end a line. A byte order mark is a character.
    ///
    /// `NotUtf8` comes exactly where a byte is bad, with the offset of the first; `TextFull` exactly where none is and
    /// the text has more characters than it may have, with their count.
    pub fn from_bytes(alloc: Global, bytes: &[u8]) -> Result<Text, TextFault>
        ensures ok { IfOk result (λ t. IsUtf8 bytes.now × (t.lines ≡ lines_of (chars bytes.now)) × (characters_of t.lines ≤ 16777216)) }
        ensures fault { IfErr result (IsTextFault bytes.now) }
    {
        match std::str::from_utf8(bytes) {
            Ok(text) => {
                let characters = characters_of_str(alloc, text)?;
                from_characters(alloc, characters.as_slice())
            }
            Err(fault) => Err(TextFault::NotUtf8(fault.valid_up_to() as u64)),
        }
    }

    /// Says that the lines are a text: it does nothing.
    pub fn prove_known(&self)
        ensures text { IsText self.now.lines }
        ensures small { IsSmall self.now.lines }
    {
        let _ = &self.lines;
    }

    /// How many lines there are. It takes no memory.
    pub fn len(&self) -> u32
        ensures { result ≡ length self.now.lines }
    {
        self.prove_known();
        self.lines.len() as u32
    }

    /// A line. It takes no memory.
    pub fn line(&self, i: u32) -> &Arc<Line>
        requires { i < length self.now.lines }
        ensures { slice_get self.now.lines i ≡ Some (arc_value result.now) }
    {
        &self.lines[i as usize]
    }

    /// An equal text, which shares its lines.
    pub fn copy(&self) -> Result<Text, OutOfMemory>
        ensures { IfOk result (λ copy. copy.lines ≡ self.now.lines) }
    {
        Ok(Text {
            lines: self.lines.clone()?,
            size: self.size,
        })
    }

    /// Makes the new lines of a change, and room for them, and leaves the text's lines as they are.
    ///
    /// The first that is wrong is told: the first place, the second place, their order, too many characters.
    pub fn plan(&mut self, change: &Change) -> Result<Plan, ChangeFault>
        ensures lines { self.new.lines ≡ self.old.lines }
        ensures places { IfOk result (λ p. IsIn self.old.lines change.now) }
        ensures ok { IfOk result (λ p. (p.effect ≡ effect_of self.old.lines change.now) × (p.lines ≡ new_lines self.old.lines change.now)) }
        ensures fits { IfOk result (λ p. characters_of (lines_changed self.old.lines change.now) ≤ 16777216) }
        ensures spare { IfOk result (λ p. length p.lines ≤ self.new.spare) }
        ensures fault { IfErr result (IsChangeFault self.old.lines change.now) }
    {
        self.prove_known();
        if let Some(place) = fault_of_places(self.lines.as_slice(), change) {
            return Err(ChangeFault::BadPlace(place));
        }
        let alloc = *self.lines.allocator();
        let Ok(lines) = lines_of_change(alloc, self.lines.as_slice(), change) else {
            return Err(ChangeFault::OutOfMemory);
        };
        let old = change.to_line - change.from_line + 1;
        let added = size_of(lines.as_slice());
        let removed = size_of_range(
            self.lines.as_slice(),
            change.from_line as usize,
            old as usize,
        );
        let size = self.size - removed + added;
        if size > TEXT_LIMIT + 1 {
            return Err(ChangeFault::TextFull(size - 1));
        }
        if self.lines.reserve(lines.len()).is_err() {
            return Err(ChangeFault::OutOfMemory);
        }
        let effect = LineEffect {
            first: change.from_line,
            old,
            new: lines.len() as u32,
        };
        Ok(Plan {
            effect,
            lines,
            size: added,
        })
    }

    /// Replaces the range of a plan by its new lines. It takes no memory.
    pub fn commit(&mut self, plan: Plan) -> LineEffect
        requires range { plan.effect.first + plan.effect.old ≤ length self.old.lines }
        requires spare { length plan.lines ≤ self.old.spare }
        requires fits { characters_of (spliced plan.effect.first plan.effect.old plan.lines self.old.lines) ≤ 16777216 }
        ensures effect { result ≡ plan.effect }
        ensures lines { self.new.lines ≡ spliced plan.effect.first plan.effect.old plan.lines self.old.lines }
    {
        let effect = plan.effect;
        let first = effect.first as usize;
        let old = effect.old as usize;
        let removed = size_of_range(self.lines.as_slice(), first, old);
        self.size = self.size - removed + plan.size;
        let mut added = plan.lines;
        replace_range(&mut self.lines, first, old, &mut added);
        effect
    }

    /// Replaces a range by a text: all lines from the first to the last by the lines of the first line's front, the new
    /// text and the last line's rest. After a refusal the text is as before.
    pub fn apply(&mut self, change: &Change) -> Result<LineEffect, ChangeFault>
        ensures places { IfOk result (λ effect. IsIn self.old.lines change.now) }
        ensures effect { IfOk result (λ effect. effect ≡ effect_of self.old.lines change.now) }
        ensures lines { OnOk result (self.new.lines ≡ lines_changed self.old.lines change.now) }
        ensures fits { OnOk result (characters_of self.new.lines ≤ 16777216) }
        ensures err { OnErr result (self.new.lines ≡ self.old.lines) }
        ensures fault { IfErr result (IsChangeFault self.old.lines change.now) }
    {
        let plan = self.plan(change)?;
        Ok(self.commit(plan))
    }
}
