//! A whole line, from the state in which it begins to its tokens and the state behind it.
ghost use Rattle.std.specs.Prelude.{◌≡◌, ℕ, ◌≤◌, ◌<◌, ◌^◌, ◌++◌, ◌∷◌, [], List, length};
ghost use Rattle.tm_defs.specs.Tables.{Tables, state_at};
ghost use Rattle.tm_line_turns.specs.Painted.{furthest};
ghost use Rattle.tm_line_parts.specs.Whole.{Finishes, Tokenizes};
ghost use Rattle.tm_line_parts.specs.Stacks.{IsStack, stack_at};

use crate::ends::interned;
use crate::rules::{Job, Level, LineRules, Out};
use crate::run::run;
use crate::stack::Way;
use crate::whiles::started;
use std::alloc::Global;
use tm_defs::frames::StateId;
use tm_defs::tables::{States, TableFault};
use tm_defs::texts::{Line, ScopePath};
use tm_defs::tokenizer::{LineFault, LineOut};
use tm_line_turns::painter::tokens_of;

/// How many times the groups of a line may be tokenized again one within the other.
const MOST_DEEP: u32 = 8;

/// The tokens of what was painted, and the state behind the line, which is made here.
fn finished<S: States, R: LineRules>(
    job: &Job<R>,
    table: &mut S,
    out: &Out,
    way: &Way,
    len: usize,
) -> Result<LineOut, LineFault>
    requires stack { IsStack (S.tables table.old) way.now.stack }
    requires reach { len ≤ furthest out.now.pieces.items }
    requires short { len < 2 ^ 31 }
    ensures { let t = S.tables table.old in
        Finishes (R.language job.now.rules.now).meta out.now.pieces.items len (stack_at t way.now.stack) t (S.tables table.new) result }
{
    let end_meta = job.rules.meta(table, way.stack.top.frame.contents);
    let end = match interned(table, &way.stack) {
        Ok(end) => end,
        Err(TableFault::TableFull(count)) => return Err(LineFault::TableFull(count)),
        Err(TableFault::OutOfMemory) => return Err(LineFault::OutOfMemory),
    };
    let Ok(tokens) = tokens_of(job.alloc, out.pieces.as_slice(), len, end_meta) else {
        return Err(LineFault::OutOfMemory);
    };
    Ok(LineOut { tokens, end })
}

/// Tokenizes a text that is a line with its line break, in `room`, which is right for it.
pub fn tokenize_line<S: States, R: LineRules>(
    job: &Job<R>,
    room: &mut R::Room,
    table: &mut S,
    scopes: &ScopePath,
    start: StateId,
    budget: u64,
) -> Result<LineOut, LineFault>
    requires start { start.0 < length (S.tables table.old).states }
    requires some { 0 < length job.now.text.now }
    requires small { length job.now.text.now < 2 ^ 31 }
    requires room { (t : Tables) → R.Fits job.now.rules.now t job.now.text.now room.old }
    ensures { (line : List ℕ) → job.now.text.now ≡ line ++ 10 ∷ [] →
        Tokenizes (R.language job.now.rules.now) scopes.now (state_at (S.tables table.old) start) line (S.tables table.old) (S.tables table.new) budget result }
{
    let pieces = Vec::new(job.alloc);
    let mut out = Out { pieces, budget };
    let level = Level {
        alloc: job.alloc,
        rules: job.rules,
        text: job.text,
        depth: MOST_DEEP,
    };
    let mut way = match started(&level, room, table, &mut out, scopes, start) {
        Ok(way) => way,
        Err(fault) => return Err(fault),
    };
    if let Err(fault) = run(&level, room, table, &mut out, &mut way) {
        return Err(fault);
    }
    finished(job, table, &out, &way, job.text.len() - 1)
}
